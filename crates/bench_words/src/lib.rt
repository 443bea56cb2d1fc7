//! Host memory as 32-bit words, seen as a list of bytes, little-endian in each word.
#![tactic(auto)]

ghost use Rattle.std.specs.Prelude.{◌≡◌, ℕ, ◌+◌, ◌*◌, ◌%◌, ◌<◌, ◌≤◌, length, slice_index, slice_set, IfOk};
ghost use Rattle.bench_words.specs.Memory.{word_at, put_word, put_bytes, bytes_at, IsZero};
ghost use Rattle.bench_words.specs.Bytes.{IsBytes};

mod laws;

pub use laws::bytes_stay_bytes;
use std::alloc::{AllocError, Global};
use std::marker::Model;

/// Host memory: at most 4 MiB, at the addresses from 0 on. Callers see it as the list of its bytes.
#[derive(Drop)]
pub struct Words {
    cells: Vec<u32>,
}

impl Model for Words {
    ghost use Rattle.std.specs.Prelude.{List, ℕ, ◌≤◌, vec_len};
    ghost use Rattle.bench_words.specs.Memory.{bytes_of};

    ghost Value = { List ℕ };

    ghost view = { λ m. bytes_of m.cells.items };

    ghost invariant = { λ m. vec_len m.cells ≤ 1048576 };
}

impl Words {
    /// Makes memory of `words` words, at most 1,048,576, each 0. Its only error is want of memory.
    pub fn new(alloc: Global, words: u32) -> Result<Words, AllocError>
        requires { words ≤ 1048576 }
        ensures { IfOk result (λ m. IsZero m (4 * words)) }
    {
        let cells = vec![in alloc; 0u32; words as usize]?;
        Ok(Words { cells })
    }

    /// The number of bytes: a multiple of 4, at most 4,194,304. Every byte of memory is below 256.
    pub fn len(&self) -> u32
        ensures size { result ≡ length self.now }
        ensures whole { result % 4 ≡ 0 }
        ensures most { result ≤ 4194304 }
        ensures bytes { IsBytes self.now }
    {
        4 * self.cells.len() as u32
    }

    /// The word at an address that is a multiple of 4.
    pub fn get(&self, address: u32) -> u32
        requires aligned { address % 4 ≡ 0 }
        requires inside { address < length self.now }
        ensures { result ≡ word_at self.now address }
    {
        self.cells[(address / 4) as usize]
    }

    /// Writes the word at an address that is a multiple of 4. All other bytes stay.
    pub fn set(&mut self, address: u32, word: u32)
        requires aligned { address % 4 ≡ 0 }
        requires inside { address < length self.old }
        ensures wrote { self.new ≡ put_word self.old address word }
        ensures size { length self.new ≡ length self.old }
    {
        self.cells[(address / 4) as usize] = word;
    }

    /// The four bytes from any address on, as a word.
    pub fn word(&self, address: u32) -> u32
        requires { address + 4 ≤ length self.now }
        ensures { result ≡ word_at self.now address }
    {
        let size = self.len();
        prove!(address as u64 + 4 <= size as u64);
        self.byte(address) as u32
            + 0x100 * self.byte(address + 1) as u32
            + 0x1_0000 * self.byte(address + 2) as u32
            + 0x100_0000 * self.byte(address + 3) as u32
    }

    /// The byte at an address.
    pub fn byte(&self, address: u32) -> u8
        requires { address < length self.now }
        ensures { result ≡ slice_index self.now address }
    {
        self.cells[(address / 4) as usize].to_le_bytes()[(address % 4) as usize]
    }

    /// Writes the byte at an address. All other bytes stay.
    pub fn set_byte(&mut self, address: u32, byte: u8)
        requires { address < length self.old }
        ensures wrote { self.new ≡ slice_set self.old address byte }
        ensures size { length self.new ≡ length self.old }
    {
        let cell = (address / 4) as usize;
        let mut bytes = self.cells[cell].to_le_bytes();
        bytes[(address % 4) as usize] = byte;
        self.cells[cell] = u32::from_le_bytes(bytes);
    }

    /// Writes `bytes` from an address on. The whole range is in memory; all other bytes stay.
    pub fn copy_in(&mut self, address: u32, bytes: &[u8])
        requires { address + length bytes.now ≤ length self.old }
        ensures wrote { self.new ≡ put_bytes self.old address bytes.now }
        ensures size { length self.new ≡ length self.old }
    {
        let size = self.len() as usize;
        prove!(address as usize + bytes.len() <= size);
        for (i, byte) in bytes.iter().enumerate() {
            self.set_byte(address + i as u32, *byte);
        }
    }

    /// Fills `into` with the bytes from an address on. The whole range is in memory.
    pub fn copy_out(&self, address: u32, into: &mut [u8])
        requires { address + length into.old ≤ length self.now }
        ensures { into.new ≡ bytes_at self.now address (length into.old) }
    {
        let size = self.len() as usize;
        prove!(address as usize + into.len() <= size);
        for i in 0..into.len() {
            into[i] = self.byte(address + i as u32);
        }
    }
}

#[cfg(test)]
mod tests;

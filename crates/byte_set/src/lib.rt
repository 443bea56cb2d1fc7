//! Sets of bytes, as the 256 command blocks and the tags of a unit are numbered. No call takes memory or scans more
//! than four words.
#![tactic(auto)]

ghost use Rattle.std.specs.Prelude.{◌≡◌, ◌<◌, ◌⊎◌, ℕ, true, MatchOption};
ghost use Rattle.byte_set.specs.Bits.{holds, IsMask};
ghost use Rattle.byte_set.specs.Sets.{IsEmpty, Adds, Removes, IsEmptyOf, IsLeast};

use std::marker::Model;

/// The words of a set.
const WORDS: u8 = 4;

/// Every fourth bit, from the lowest one on.
const FOURTHS: u64 = 0x1111_1111_1111_1111;

/// A set of bytes. Contracts see its words, by which `holds` tells of each number whether it is in the set; none
/// above 255 is.
#[derive(Drop)]
pub struct ByteSet {
    /// Byte n is bit n % 64 of word n / 64.
    words: [u64; 4],
}

impl Model for ByteSet {
    ghost use Rattle.std.specs.Prelude.{ℕ, List};

    ghost Value = { List ℕ };

    ghost view = { λ s. s.words };
}

/// The bits of a word whose places `apart` divides, 1 or 4.
fn mask(apart: u8) -> u64
    requires { (apart ≡ 1) ⊎ (apart ≡ 4) }
    ensures { IsMask result apart }
{
    if apart == 4 { FOURTHS } else { u64::MAX }
}

impl ByteSet {
    /// The empty set.
    pub fn new() -> ByteSet
        ensures { IsEmpty (holds result) }
    {
        ByteSet { words: [0; 4] }
    }

    /// The set of all bytes.
    pub fn full() -> ByteSet
        ensures { (n : ℕ) → n < 256 → holds result n ≡ true }
    {
        ByteSet {
            words: [u64::MAX; 4],
        }
    }

    /// Whether a byte is in the set.
    pub fn contains(&self, byte: u8) -> bool
        ensures { result ≡ holds self.now byte }
    {
        self.words[byte as usize / 64] & (1 << (byte % 64)) != 0
    }

    /// Adds a byte.
    pub fn insert(&mut self, byte: u8)
        ensures { Adds (holds self.old) byte (holds self.new) }
    {
        let word = self.words[byte as usize / 64];
        self.words[byte as usize / 64] = word | (1 << (byte % 64));
    }

    /// Takes a byte out.
    pub fn remove(&mut self, byte: u8)
        ensures { Removes (holds self.old) byte (holds self.new) }
    {
        let word = self.words[byte as usize / 64];
        self.words[byte as usize / 64] = word & !(1 << (byte % 64));
    }

    /// The least byte of the set that `apart` divides, 1 or 4. None exactly where the set has no such byte.
    pub fn least(&self, apart: u8) -> Option<u8>
        requires { (apart ≡ 1) ⊎ (apart ≡ 4) }
        ensures { MatchOption result (IsEmptyOf (holds self.now) apart) (λ byte. IsLeast (holds self.now) apart byte) }
    {
        let mask = mask(apart);
        for w in 0..WORDS {
            let word = self.words[w as usize] & mask;
            if word != 0 {
                return Some(64 * w + word.trailing_zeros() as u8);
            }
        }
        None
    }
}

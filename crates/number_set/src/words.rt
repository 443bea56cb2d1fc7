//! Bits in words of 64.

ghost use Rattle.std.specs.Prelude.{◌≡◌, ℕ, ◌+◌, ◌/◌, ◌^◌, ◌<◌, ◌≤◌, ◌↔◌, IsTrue, IfOk, length, replicate, slice_index, max};
ghost use Rattle.number_set.specs.Bits.{bit_in, HasSet, HasCleared, HasWords};

use std::alloc::{AllocError, Global};
use std::marker::Model;

/// Words of 64 bits: bit i is bit `i % 64` of word `i / 64`.
#[derive(Drop)]
pub struct Words {
    words: Vec<u64>,
}

impl Model for Words {
    ghost use Rattle.std.specs.Prelude.{List, ℕ, ◌^◌, ◌≤◌, length};

    ghost Value = { List ℕ };

    ghost view = { λ w. w.words.items };

    ghost invariant = { λ w. length w.words.items ≤ 2 ^ 26 };
}

impl Words {
    /// `count` words of 0.
    pub fn new(alloc: Global, count: usize) -> Result<Self, AllocError>
        requires { count ≤ 2 ^ 26 }
        ensures { IfOk result (λ w. w ≡ replicate count 0) }
    {
        let words = vec![in alloc; 0; count]?;
        Ok(Words { words })
    }

    /// Makes room for bit i, which is in one of the words or in the next one. The bits stay, also after want of memory.
    pub fn reach(&mut self, i: usize) -> Result<(), AllocError>
        requires next { i / 64 ≤ length self.old }
        requires few { i < 2 ^ 32 }
        ensures words { HasWords self.old self.new }
        ensures few { length self.new ≤ max (length self.old) (i / 64 + 1) }
        ensures room { IfOk result (λ _. i / 64 < length self.new) }
    {
        if i / 64 == self.words.len() {
            self.words.push(0)?;
        }
        Ok(())
    }

    /// Is the first word 0?
    pub fn is_zero(&self) -> bool
        requires { 0 < length self.now }
        ensures { IsTrue result ↔ (slice_index self.now 0 ≡ 0) }
    {
        self.words[0] == 0
    }

    /// Is bit i set?
    pub fn is_set(&self, i: usize) -> bool
        requires { i / 64 < length self.now }
        ensures { IsTrue result ↔ (bit_in self.now i ≡ 1) }
    {
        let word = self.words[i / 64];
        word & (1 << (i % 64)) != 0
    }

    /// Sets bit i.
    pub fn set(&mut self, i: usize)
        requires { i / 64 < length self.old }
        ensures { HasSet self.old i self.new }
    {
        let word = self.words[i / 64];
        self.words[i / 64] = word | (1 << (i % 64));
    }

    /// Clears bit i. Is its word 0 then?
    pub fn clear(&mut self, i: usize) -> bool
        requires { i / 64 < length self.old }
        ensures bit { HasCleared self.old i self.new }
        ensures word { IsTrue result ↔ (slice_index self.new (i / 64) ≡ 0) }
    {
        let word = self.words[i / 64] & !(1 << (i % 64));
        self.words[i / 64] = word;
        word == 0
    }

    /// The least bit that is set in word w, which isn't 0, by its number among all bits.
    pub fn least_in(&self, w: usize) -> usize
        requires within { w < length self.now }
        requires nonzero { 0 < slice_index self.now w }
        ensures word { result / 64 ≡ w }
        ensures set { bit_in self.now result ≡ 1 }
        ensures clear_below { (j : ℕ) → j / 64 ≡ w → j < result → bit_in self.now j ≡ 0 }
    {
        let word = self.words[w];
        64 * w + word.trailing_zeros() as usize
    }
}

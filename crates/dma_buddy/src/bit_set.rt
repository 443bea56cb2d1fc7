//! Sets of numbers below a bound, whose least number is found in four steps.

ghost use Rattle.std.specs.Prelude.{◌≡◌, ℕ, ◌+◌, ◌*◌, ◌^◌, ◌<◌, ◌≤◌, ◌↔◌, Bool, true, false, List, length, slice_index_or, slice_set, replicate, IsTrue, IfOk, MatchOption};

use crate::words::Words;
use std::alloc::{AllocError, Global};
use std::marker::Model;

/// A set of numbers below a bound: contracts see a flag for each number.
///
/// Each layer has a bit for each word of the layer below, set where that word isn't 0.
#[derive(Drop)]
pub struct BitSet {
    bound: usize,
    low: Words,
    middle: Words,
    high: Words,
    top: Words,
}

impl Model for BitSet {
    ghost use Rattle.std.specs.Prelude.{Bool, List};
    ghost use Rattle.dma_buddy.specs.Bits.{flags, IsLayered};

    ghost Value = { List Bool };

    ghost view = { λ s. flags s.low s.bound };

    ghost invariant = { λ s. IsLayered s.bound s.low s.middle s.high s.top };
}

impl BitSet {
    /// The empty set of numbers below `bound`: at most 64 to the power of the number of layers.
    pub fn new(alloc: Global, bound: usize) -> Result<Self, AllocError>
        requires { bound ≤ 2 ^ 24 }
        ensures { IfOk result (λ s. s ≡ replicate bound false) }
    {
        let low = bound.div_ceil(64);
        let middle = low.div_ceil(64);
        let high = middle.div_ceil(64);
        Ok(BitSet {
            bound,
            low: Words::new(alloc, low)?,
            middle: Words::new(alloc, middle)?,
            high: Words::new(alloc, high)?,
            top: Words::new(alloc, 1)?,
        })
    }

    /// Is i in it?
    pub fn contains(&self, i: usize) -> bool
        requires { i < length self.now }
        ensures { result ≡ slice_index_or self.now i false }
    {
        self.low.is_set(i)
    }

    /// Adds i.
    pub fn insert(&mut self, i: usize)
        requires { i < length self.old }
        ensures { self.new ≡ slice_set self.old i true }
    {
        self.low.set(i);
        self.middle.set(i / 64);
        self.high.set(i / 64 / 64);
        self.top.set(i / 64 / 64 / 64);
    }

    /// Takes i out.
    pub fn remove(&mut self, i: usize)
        requires { slice_index_or self.old i false ≡ true }
        ensures { self.new ≡ slice_set self.old i false }
    {
        if self.low.clear(i) && self.middle.clear(i / 64) && self.high.clear(i / 64 / 64) {
            let _ = self.top.clear(i / 64 / 64 / 64);
        }
    }

    /// The least number in it.
    pub fn first(&self) -> Option<usize>
        ensures { MatchOption result
            ((i : ℕ) → slice_index_or self.now i false ≡ false)
            (λ i. (slice_index_or self.now i false ≡ true) × ((j : ℕ) → j < i → slice_index_or self.now j false ≡ false)) }
    {
        if self.top.is_zero() {
            return None;
        }
        let in_high = self.top.least_in(0);
        let in_middle = self.high.least_in(in_high);
        let in_low = self.middle.least_in(in_middle);
        Some(self.low.least_in(in_low))
    }
}

//! Sets of the numbers below a count.

ghost use Rattle.std.specs.Prelude.{◌≡◌, ℕ, ◌^◌, ◌<◌, Bool, true, false, List, [], ◌∷◌, ◌++◌, length, slice_index_or, slice_set, IfOk, IfErr, MatchOption};

use crate::words::Words;
use std::alloc::{AllocError, Global};
use std::marker::Model;

/// A set of some of the numbers below a count, at most 2^32: contracts see a flag for each number below it.
///
/// Each layer has a bit for each word of the layer below, set where that word isn't 0.
#[derive(Drop)]
pub struct NumberSet {
    count: usize,
    first: Words,
    second: Words,
    third: Words,
    fourth: Words,
    fifth: Words,
    sixth: Words,
}

impl Model for NumberSet {
    ghost use Rattle.std.specs.Prelude.{Bool, List};
    ghost use Rattle.number_set.specs.Bits.{flags, IsLayered};

    ghost Value = { List Bool };

    ghost view = { λ s. flags s.first s.count };

    ghost invariant = { λ s. IsLayered s.count s.first s.second s.third s.fourth s.fifth s.sixth };
}

impl NumberSet {
    /// The set of no number.
    #[tactic(auto, using(crate::proofs::Layers::layered_none))]
    pub fn new(alloc: Global) -> Result<Self, AllocError>
        ensures { IfOk result (λ s. s ≡ []) }
    {
        Ok(NumberSet {
            count: 0,
            first: Words::new(alloc, 0)?,
            second: Words::new(alloc, 0)?,
            third: Words::new(alloc, 0)?,
            fourth: Words::new(alloc, 0)?,
            fifth: Words::new(alloc, 0)?,
            sixth: Words::new(alloc, 1)?,
        })
    }

    /// How many numbers there are below the count.
    pub fn len(&self) -> usize
        ensures { result ≡ length self.now }
    {
        self.count
    }

    /// One number more below the count, not in the set. Want of memory leaves the set as it is.
    pub fn grow(&mut self) -> Result<(), AllocError>
        requires { length self.old < 2 ^ 32 }
        ensures grown { IfOk result (λ _. self.new ≡ self.old ++ false ∷ []) }
        ensures stays { IfErr result (λ _. self.new ≡ self.old) }
    {
        let n = self.count;
        self.fifth.reach(n / 64 / 64 / 64 / 64)?;
        self.fourth.reach(n / 64 / 64 / 64)?;
        self.third.reach(n / 64 / 64)?;
        self.second.reach(n / 64)?;
        self.first.reach(n)?;
        self.count = n + 1;
        Ok(())
    }

    /// Whether a number is in the set.
    pub fn contains(&self, n: u32) -> bool
        requires { n < length self.now }
        ensures { result ≡ slice_index_or self.now n false }
    {
        self.first.is_set(n as usize)
    }

    /// Adds a number.
    pub fn insert(&mut self, n: u32)
        requires { n < length self.old }
        ensures { self.new ≡ slice_set self.old n true }
    {
        let i = n as usize;
        self.first.set(i);
        self.second.set(i / 64);
        self.third.set(i / 64 / 64);
        self.fourth.set(i / 64 / 64 / 64);
        self.fifth.set(i / 64 / 64 / 64 / 64);
        self.sixth.set(i / 64 / 64 / 64 / 64 / 64);
    }

    /// Takes a number out.
    pub fn remove(&mut self, n: u32)
        requires { slice_index_or self.old n false ≡ true }
        ensures { self.new ≡ slice_set self.old n false }
    {
        let i = n as usize;
        if self.first.clear(i)
            && self.second.clear(i / 64)
            && self.third.clear(i / 64 / 64)
            && self.fourth.clear(i / 64 / 64 / 64)
            && self.fifth.clear(i / 64 / 64 / 64 / 64)
        {
            let _ = self.sixth.clear(i / 64 / 64 / 64 / 64 / 64);
        }
    }

    /// The least number in the set. None exactly where the set is empty.
    pub fn least(&self) -> Option<u32>
        ensures { MatchOption result
            ((i : ℕ) → slice_index_or self.now i false ≡ false)
            (λ i. (slice_index_or self.now i false ≡ true) × ((j : ℕ) → j < i → slice_index_or self.now j false ≡ false)) }
    {
        if self.sixth.is_zero() {
            return None;
        }
        let in_fifth = self.sixth.least_in(0);
        let in_fourth = self.fifth.least_in(in_fifth);
        let in_third = self.fourth.least_in(in_fourth);
        let in_second = self.third.least_in(in_third);
        let in_first = self.second.least_in(in_second);
        let least = self.first.least_in(in_first);
        Some(least as u32)
    }
}

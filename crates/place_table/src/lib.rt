//! Tables of places that are free or have a holder, in groups of 256: which ticket has a command block, or a tag of a
//! unit. The least free place of a group is found by bits.
#![tactic(auto)]

ghost use Rattle.std.specs.Prelude.{◌≡◌, ℕ, ◌+◌, ◌*◌, ◌<◌, ◌≤◌, ◌%◌, ◌⊎◌, true, None, Some, List, [], length, replicate, slice_index_or, slice_set, IfOk, IsSome, MatchOption};
ghost use Rattle.byte_set.specs.Bits.{holds};
ghost use Rattle.place_table.specs.Places.{IsLeastFree, AreWhole};

use byte_set::ByteSet;
use std::alloc::{AllocError, Global};
use std::marker::Model;

/// The places of a group.
const GROUP: usize = 256;

/// The holder of each place, and of each group the set of its free places. Contracts see the holders.
#[derive(Drop)]
pub struct PlaceTable {
    held: Vec<Option<u32>>,
    free: Vec<ByteSet>,
}

impl Model for PlaceTable {
    ghost use Rattle.std.specs.Prelude.{ℕ, List, Option};
    ghost use Rattle.place_table.specs.Places.{IsMarked};

    ghost Value = { List (Option ℕ) };

    ghost view = { λ t. t.held.items };

    ghost invariant = { λ t. IsMarked t.held.items t.free.items };
}

/// So many places without a holder.
fn no_holders(alloc: Global, count: usize) -> Result<Vec<Option<u32>>, AllocError>
    ensures { IfOk result (λ v. v.items ≡ replicate count None) }
{
    let mut held = Vec::with_capacity(alloc, count)?;
    for _ in 0..count {
        held.push(None)?;
    }
    Ok(held)
}

/// So many groups whose places are all free.
#[tactic(auto, using(crate::proofs::Marks::no_group, crate::proofs::Marks::one_group_more))]
fn free_groups(alloc: Global, groups: usize) -> Result<Vec<ByteSet>, AllocError>
    ensures { IfOk result (λ v. AreWhole groups v.items) }
{
    let mut free = Vec::with_capacity(alloc, groups)?;
    for _ in 0..groups {
        free.push(ByteSet::full())?;
    }
    Ok(free)
}

impl PlaceTable {
    /// So many groups of free places. Its one error is want of memory.
    #[tactic(auto, using(crate::proofs::Marks::none_marked))]
    pub fn new(alloc: Global, groups: usize) -> Result<PlaceTable, AllocError>
        requires { groups ≤ 16 }
        ensures { IfOk result (λ t. t ≡ replicate (256 * groups) None) }
    {
        Ok(PlaceTable {
            held: no_holders(alloc, GROUP * groups)?,
            free: free_groups(alloc, groups)?,
        })
    }

    /// The holder of a place, if it has one.
    pub fn holder(&self, place: usize) -> Option<u32>
        requires { place < length self.now }
        ensures { result ≡ slice_index_or self.now place None }
    {
        self.held[place]
    }

    /// Gives a place its holder.
    pub fn hold(&mut self, place: usize, holder: u32)
        requires { place < length self.old }
        ensures { self.new ≡ slice_set self.old place (Some holder) }
    {
        let group = &mut self.free[place / GROUP];
        group.remove((place % GROUP) as u8);
        self.held[place] = Some(holder);
    }

    /// Makes a place free.
    pub fn release(&mut self, place: usize)
        requires { place < length self.old }
        ensures { self.new ≡ slice_set self.old place None }
    {
        let group = &mut self.free[place / GROUP];
        group.insert((place % GROUP) as u8);
        self.held[place] = None;
    }

    /// The least free place of a group among those that `apart` divides, 1 or 4, by its number in the group. None exactly
    /// where each of them has a holder.
    pub fn least_free(&self, group: usize, apart: u8) -> Option<u8>
        requires group { 256 * group + 256 ≤ length self.now }
        requires apart { (apart ≡ 1) ⊎ (apart ≡ 4) }
        ensures { MatchOption result
            ((n : ℕ) → n < 256 → n % apart ≡ 0 → IsSome (slice_index_or self.now (256 * group + n) None))
            (λ n. IsLeastFree self.now (256 * group) apart n) }
    {
        let free = &self.free[group];
        free.least(apart)
    }
}

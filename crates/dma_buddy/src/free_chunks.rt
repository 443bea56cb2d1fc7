//! The set of free chunks: flags by size.

ghost use Rattle.std.specs.Prelude.{◌≡◌, ◌↔◌, ℕ, ◌+◌, ◌*◌, ◌%◌, ◌^◌, ◌<◌, ◌≤◌, [], IsTrue, IfOk, MatchOption};
ghost use Rattle.dma_buddy.specs.Chunks.{IsSizeFor};
ghost use Rattle.dma_buddy.specs.Regions.{IsFree, IsChunkOf, IsNoneFor, IsBestFor};
ghost use Rattle.dma_buddy.specs.Marks.{IsPlaceOf, Adds, Drops};

use crate::bit_set::BitSet;
use crate::buddies::{Chunk, LEAST};
use std::alloc::{AllocError, Global};
use std::marker::Model;

/// The number of sizes.
const ORDERS: usize = 8;

/// The free chunks of a region: contracts see where it lies, and the set.
///
/// There is a set of numbers for each size, and chunk number i of a size begins at `base + size * i`.
#[derive(Drop)]
pub struct FreeChunks {
    base: u32,
    units: u32,
    sets: Vec<BitSet>,
}

impl Model for FreeChunks {
    ghost use Rattle.dma_buddy.specs.Regions.{Space};
    ghost use Rattle.dma_buddy.specs.Marks.{space_of, IsShaped};

    ghost Value = { Space };

    ghost view = { λ f. space_of f.base f.units f.sets.items };

    ghost invariant = { λ f. IsShaped f.base f.units f.sets.items };
}

/// The order of the least size that is at least `len`: sizes are 512 bytes times 2 to the power of their order.
fn order_for(len: u32) -> usize
    requires { len ≤ 65536 }
    ensures order { result < 8 }
    ensures size { IsSizeFor len (512 * 2 ^ result) }
{
    let mut order = 0;
    while LEAST << order < len {
        order += 1;
    }
    order
}

/// The least size that is at least `len`.
pub fn size_for(len: u32) -> u32
    requires { len ≤ 65536 }
    ensures { IsSizeFor len result }
{
    LEAST << order_for(len)
}

impl FreeChunks {
    /// No free chunk.
    pub fn new(alloc: Global, base: u32, units: u32) -> Result<Self, AllocError>
        requires aligned { base % 65536 ≡ 0 }
        requires fits { base + 65536 * units < 2 ^ 32 }
        ensures { IfOk result (λ s. s ≡ record { base = base; units = units; free = [] }) }
    {
        let mut sets = Vec::new(alloc);
        for order in 0..ORDERS {
            let count = (units as usize) << (ORDERS - 1 - order);
            sets.push(BitSet::new(alloc, count)?)?;
        }
        Ok(FreeChunks { base, units, sets })
    }

    /// The number of units of the region.
    pub fn units(&self) -> u32
        ensures { result ≡ self.now.units }
    {
        self.units
    }

    /// The order and the number of a chunk of the region.
    fn place(&self, c: Chunk) -> (usize, usize)
        requires { IsChunkOf self.now c }
        ensures { IsPlaceOf self.now c result.0 result.1 }
    {
        let shift = c.size.trailing_zeros();
        let order = (shift - LEAST.trailing_zeros()) as usize;
        let index = ((c.base - self.base) >> shift) as usize;
        (order, index)
    }

    /// Is c free?
    pub fn contains(&self, c: Chunk) -> bool
        requires { IsChunkOf self.now c }
        ensures { IsTrue result ↔ IsFree self.now c }
    {
        let (order, index) = self.place(c);
        let set = &self.sets[order];
        set.contains(index)
    }

    /// Adds c to the free chunks.
    pub fn insert(&mut self, c: Chunk)
        requires chunk { IsChunkOf self.old c }
        requires absent { IsFree self.old c → ⊥ }
        ensures { Adds self.old c self.new }
    {
        let (order, index) = self.place(c);
        let set = &mut self.sets[order];
        set.insert(index);
    }

    /// Takes c out of the free chunks.
    pub fn remove(&mut self, c: Chunk)
        requires chunk { IsChunkOf self.old c }
        requires free { IsFree self.old c }
        ensures { Drops self.old c self.new }
    {
        let (order, index) = self.place(c);
        let set = &mut self.sets[order];
        set.remove(index);
    }

    /// Of the free chunks of at least `len` bytes, those of the least size, and of these the one at the lowest base.
    pub fn best(&self, len: u32) -> Option<Chunk>
        requires { len ≤ 65536 }
        ensures { MatchOption result (IsNoneFor self.now len) (λ c. IsBestFor self.now len c) }
    {
        let first = order_for(len);
        for order in first..ORDERS {
            let set = &self.sets[order];
            if let Some(index) = set.first() {
                let size = LEAST << order;
                return Some(Chunk {
                    base: self.base + size * index as u32,
                    size,
                });
            }
        }
        None
    }
}

//! The region: chunks are taken and given back.

ghost use Rattle.std.specs.Prelude.{◌≡◌, ◌↔◌, ℕ, ◌+◌, ◌*◌, ◌%◌, ◌^◌, ◌<◌, ◌≤◌, ◌++◌, IsTrue, IfOk, IfSome, MatchOption, MatchResult, length, drop, ◌-◌};
ghost use Rattle.std.specs.List.{All};
ghost use Rattle.dma_buddy.specs.Chunks.{IsChunkSize, IsSizeFor, Apart, buddy};
ghost use Rattle.dma_buddy.specs.Regions.{IsFree, IsListed, IsChunkOf, IsRegion, IsOut, IsNoneFor, IsWhole, Takes, TakesAll, RefusesAt, Gives, LeavesOut, LeavesAllOut, PutsBack, bytes_free};
ghost use Rattle.dma_buddy.specs.Marks.{Splits, Merged, TakesOnto};
ghost use Rattle.dma_buddy.specs.declared.buddies.Chunk.{Chunk};

use crate::buddies::{Chunk, UNIT};
use crate::chunk_list::Chunks;
use crate::free_chunks::{FreeChunks, size_for};
use std::alloc::{AllocError, Global};
use std::marker::Model;

/// A region of units of 65,536 bytes: contracts see where it lies, and the set of its free chunks.
#[derive(Drop)]
pub struct Region {
    chunks: FreeChunks,
    bytes: u32,
}

impl Model for Region {
    ghost use Rattle.std.specs.Prelude.{◌≡◌};
    ghost use Rattle.dma_buddy.specs.Regions.{Space, IsRegion, bytes_free};

    ghost Value = { Space };

    ghost view = { λ r. r.chunks };

    ghost invariant = { λ r. IsRegion r.chunks × (r.bytes ≡ bytes_free r.chunks) };
}

/// Adds what is left of a chunk that was taken out, where it is split down to `size` and the lower half kept each time.
fn split(chunks: &mut FreeChunks, whole: Chunk, size: u32)
    requires whole { IsChunkOf chunks.old whole }
    requires apart { (q : Chunk) → IsFree chunks.old q → Apart q whole }
    requires listed { IsListed chunks.old.free }
    requires size { IsChunkSize size }
    requires within { size ≤ whole.size }
    requires fits { whole.base + whole.size < 2 ^ 32 }
    ensures { Splits chunks.old whole size chunks.new }
{
    let mut half = whole.size;
    while half > size {
        half /= 2;
        chunks.insert(Chunk {
            base: whole.base + half,
            size: half,
        });
    }
}

/// Takes out the buddies with which c is merged, and gives what c becomes.
fn merge(chunks: &mut FreeChunks, c: Chunk) -> Chunk
    requires region { IsRegion chunks.old }
    requires out { IsOut chunks.old c }
    ensures merged { Merged chunks.old c result chunks.new }
    ensures ends { result.size < 65536 → IsFree chunks.new (buddy result) → ⊥ }
{
    let mut whole = c;
    while whole.size < UNIT {
        let other = whole.buddy();
        if !chunks.contains(other) {
            return whole;
        }
        chunks.remove(other);
        whole = whole.joined();
    }
    whole
}

impl Region {
    /// The region of `units` units from `base` on, each a free chunk. Only this call takes memory.
    pub fn new(alloc: Global, base: u32, units: u32) -> Result<Self, AllocError>
        requires aligned { base % 65536 ≡ 0 }
        requires fits { base + 65536 * units < 2 ^ 32 }
        ensures place { IfOk result (λ r. (r.base ≡ base) × (r.units ≡ units)) }
        ensures whole { IfOk result (λ r. IsWhole r) }
        ensures region { IfOk result (λ r. IsRegion r) }
    {
        let mut chunks = FreeChunks::new(alloc, base, units)?;
        for unit in 0..units {
            chunks.insert(Chunk {
                base: base + UNIT * unit,
                size: UNIT,
            });
        }
        Ok(Region {
            chunks,
            bytes: UNIT * units,
        })
    }

    /// Splits the smallest free chunk that suffices for `len` bytes, the one at the lowest address, and takes the
    /// lowest part. None where no free chunk is large enough: the region is then as before.
    pub fn take(&mut self, len: u32) -> Option<Chunk>
        requires { (1 ≤ len) × (len ≤ 65536) }
        ensures taken { MatchOption result (IsNoneFor self.old len × (self.new ≡ self.old)) (λ c. Takes self.old len c self.new) }
        ensures out { IfSome result (λ c. LeavesOut self.old c self.new) }
        ensures region { IsRegion self.new }
        ensures was_region { IsRegion self.old }
    {
        let whole = self.chunks.best(len)?;
        let size = size_for(len);
        self.chunks.remove(whole);
        split(&mut self.chunks, whole, size);
        self.bytes -= size;
        Some(Chunk {
            base: whole.base,
            size,
        })
    }

    /// Gives back a chunk that is out: it is merged with its buddy while that is free and less than a unit.
    pub fn give(&mut self, c: Chunk)
        requires { IsOut self.old c }
        ensures given { Gives self.old c self.new }
        ensures others { PutsBack self.old c self.new }
        ensures region { IsRegion self.new }
        ensures was_region { IsRegion self.old }
    {
        let whole = merge(&mut self.chunks, c);
        self.chunks.insert(whole);
        self.bytes += c.size;
    }

    /// The sum of the sizes of the free chunks.
    pub fn free_bytes(&self) -> u32
        ensures bytes { result ≡ bytes_free self.now }
        ensures most { result ≤ 65536 * self.now.units }
        ensures region { IsRegion self.now }
    {
        self.bytes
    }

    /// Are the free chunks those of the opening: each unit whole?
    pub fn whole(&self) -> bool
        ensures opening { IsTrue result ↔ IsWhole self.now }
        ensures bytes { IsTrue result ↔ (bytes_free self.now ≡ 65536 * self.now.units) }
    {
        self.bytes == UNIT * self.chunks.units()
    }

    /// Takes a chunk for each length in order, all or none. Err holds the first length for which no free chunk is
    /// large enough at its turn: the region is then as before.
    pub fn take_all(&mut self, lens: &[u32]) -> Result<Chunks, u32>
        requires count { length lens.now ≤ 16 }
        requires lens { All (λ len. (1 ≤ len) × (len ≤ 65536)) lens.now }
        ensures taken { MatchResult result (λ cs. TakesAll self.old lens.now cs self.new) (λ len. (self.new ≡ self.old) × RefusesAt self.old lens.now len) }
        ensures out { IfOk result (λ cs. LeavesAllOut self.old cs self.new) }
        ensures region { IsRegion self.new }
        ensures was_region { IsRegion self.old }
    {
        // the region's invariant is seen where a field is read
        let _ = &self.bytes;
        let mut chunks = Chunks::new();
        self.take_each(lens, 0, &mut chunks)?;
        Ok(chunks)
    }

    /// Takes a chunk for each length from place `from` on, and adds it to `chunks`. On the way back from a refusal
    /// each chunk is given back.
    fn take_each(&mut self, lens: &[u32], from: usize, chunks: &mut Chunks) -> Result<(), u32>
        requires within { from ≤ length lens.now }
        requires room { length chunks.old + (length lens.now - from) ≤ 16 }
        requires lens { All (λ len. (1 ≤ len) × (len ≤ 65536)) lens.now }
        requires region { IsRegion self.old }
        ensures taken { MatchResult result (λ _. TakesOnto self.old (drop from lens.now) chunks.old chunks.new self.new) (λ len. (self.new ≡ self.old) × RefusesAt self.old (drop from lens.now) len) }
        ensures region { IsRegion self.new }
    {
        if from == lens.len() {
            return Ok(());
        }
        let len = lens[from];
        let Some(c) = self.take(len) else {
            return Err(len);
        };
        chunks.push(c);
        if let Err(refused) = self.take_each(lens, from + 1, chunks) {
            self.give(c);
            return Err(refused);
        }
        Ok(())
    }
}

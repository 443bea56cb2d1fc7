//! A short list of chunks.

ghost use Rattle.std.specs.Prelude.{◌≡◌, ◌++◌, ◌∷◌, [], ◌<◌, ◌↔◌, IsTrue, length};

use crate::buddies::Chunk;
use std::marker::Model;

/// The most chunks of a list.
const MOST: usize = 16;

/// What stands in the places past the end.
const NONE: Chunk = Chunk { base: 0, size: 0 };

/// At most 16 chunks, in the order in which they were taken.
#[derive(Clone, Copy, Debug)]
pub struct Chunks {
    chunks: [Chunk; MOST],
    len: usize,
}

impl Model for Chunks {
    ghost use Rattle.std.specs.Prelude.{List};
    ghost use Rattle.dma_buddy.specs.declared.buddies.Chunk.{Chunk};
    ghost use Rattle.std.specs.Prelude.{take, length};

    ghost Value = { List Chunk };

    ghost use Rattle.dma_buddy.specs.Lists.{padded, IsPadded};
    ghost use Rattle.dma_buddy.specs.Kept.{kept};

    ghost view = { λ s. take s.len s.chunks };

    ghost invariant = { λ s. IsPadded s.len s.chunks };

    ghost inverse = { λ cs. record { chunks = padded cs; len = length cs } };

    ghost inverse_ok = { λ a h. kept a h };
}

impl Chunks {
    /// No chunk.
    pub(crate) fn new() -> Self
        ensures { result ≡ [] }
    {
        Chunks {
            chunks: [NONE; MOST],
            len: 0,
        }
    }

    /// Adds c at the end.
    pub(crate) fn push(&mut self, c: Chunk)
        requires { length self.old < 16 }
        ensures { self.new ≡ self.old ++ c ∷ [] }
    {
        self.chunks[self.len] = c;
        self.len += 1;
    }

    /// How many they are.
    pub fn len(&self) -> usize
        ensures { result ≡ length self.now }
    {
        self.len
    }

    /// Are there none?
    pub fn is_empty(&self) -> bool
        ensures { IsTrue result ↔ (self.now ≡ []) }
    {
        self.len == 0
    }

    /// The chunks, in order.
    pub fn as_slice(&self) -> &[Chunk]
        ensures { result.now ≡ self.now }
    {
        &self.chunks[..self.len]
    }
}

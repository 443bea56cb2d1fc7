//! Chunks, and their buddies.

ghost use Rattle.std.specs.Prelude.{◌≡◌, ℕ, ◌+◌, ◌*◌, ◌%◌, ◌^◌, ◌<◌, ◌≤◌, ◌==◌};

/// The least size of a chunk.
pub const LEAST: u32 = 512;

/// The greatest size of a chunk, and the size of a unit of the region.
pub const UNIT: u32 = 65_536;

/// The bytes from `base` to `base + size - 1`.
#[derive(Clone, Copy, Debug, PartialEq, Eq)]
pub struct Chunk {
    /// The address of its first byte: a multiple of `size`.
    pub base: u32,
    /// Its number of bytes: 512 times a power of two, at most 65,536.
    pub size: u32,
}

impl Chunk {
    ghost use Rattle.dma_buddy.specs.Chunks.{IsChunk, side, buddy, joined};

    /// Is it the lower half of the chunk of twice the size?
    fn is_lower(self) -> bool
        requires { IsChunk self }
        ensures { result ≡ (side self == 0) }
    {
        self.base & self.size == 0
    }

    /// The other half of the chunk of twice the size.
    pub fn buddy(self) -> Chunk
        requires chunk { IsChunk self }
        requires fits { self.base + 2 * self.size ≤ 2 ^ 32 }
        ensures { result ≡ buddy self }
    {
        if self.is_lower() {
            Chunk {
                base: self.base + self.size,
                size: self.size,
            }
        } else {
            Chunk {
                base: self.base - self.size,
                size: self.size,
            }
        }
    }

    /// The chunk of twice the size, of which it is a half.
    pub fn joined(self) -> Chunk
        requires chunk { IsChunk self }
        requires small { self.size < 65536 }
        ensures { result ≡ joined self }
    {
        if self.is_lower() {
            Chunk {
                base: self.base,
                size: 2 * self.size,
            }
        } else {
            Chunk {
                base: self.base - self.size,
                size: 2 * self.size,
            }
        }
    }
}

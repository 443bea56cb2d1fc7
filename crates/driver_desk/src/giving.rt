//! Chunks of the buffer region that go back.

ghost use Rattle.std.specs.Prelude.{◌≡◌, ℕ, ◌≤◌, ◌++◌, List, length, drop, map};
ghost use Rattle.dma_buddy.specs.declared.buddies.Chunk.{Chunk};
ghost use Rattle.dma_buddy.specs.Regions.{Space, IsRegion, IsSamePlace, AreOut, TakesAll};
ghost use Rattle.desk_law.specs.Calls.{GivesAll};
ghost use Rattle.driver_desk.specs.Held.{piece_chunks};

use desk_law::Piece;
use dma_buddy::{Chunk, Region};

/// Gives the chunks of a buffer back, in order. What else is out stays out.
pub(crate) fn give_all(region: &mut Region, pieces: &[Piece])
    requires out { AreOut region.old (piece_chunks pieces.now) }
    ensures given { GivesAll region.old (piece_chunks pieces.now) region.new }
    ensures others { (xs ys : List Chunk) → AreOut region.old (xs ++ (piece_chunks pieces.now ++ ys)) → AreOut region.new (xs ++ ys) }
    ensures place { IsSamePlace region.old region.new }
{
    for i in 0..pieces.len() {
        let piece = pieces[i];
        region.give(piece.chunk);
    }
}

/// Gives chunks back that `take_all` took, the last first, from place `from` on: the region is then as it was before
/// they were taken. What else is out stays out.
pub(crate) fn put_back(region: &mut Region, chunks: &[Chunk], from: usize)
    requires within { from ≤ length chunks.now }
    requires out { AreOut region.old (drop from chunks.now) }
    ensures undone { (s : Space) (lens : List ℕ) → IsRegion s → TakesAll s lens (drop from chunks.now) region.old → region.new ≡ s }
    ensures others { (xs : List Chunk) → AreOut region.old (xs ++ drop from chunks.now) → AreOut region.new xs }
    ensures place { IsSamePlace region.old region.new }
{
    if from < chunks.len() {
        let chunk = chunks[from];
        put_back(region, chunks, from + 1);
        region.give(chunk);
    }
}

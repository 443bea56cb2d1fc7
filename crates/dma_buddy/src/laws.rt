//! What holds of every region. The function does nothing; its contract is the law.

ghost use Rattle.std.specs.Prelude.{ℕ, List};
ghost use Rattle.dma_buddy.specs.declared.buddies.Chunk.{Chunk};
ghost use Rattle.dma_buddy.specs.Regions.{Space};
ghost use Rattle.dma_buddy.specs.Laws.{OneTake, OneTakeAll, OneGive};

/// One region: of one region and one length, one list of lengths or one chunk, two results of the same call are equal,
/// and it doesn't both take and refuse.
pub fn one_region()
    ensures take { (s : Space) (len : ℕ) → OneTake s len }
    ensures take_all { (s : Space) (lens : List ℕ) → OneTakeAll s lens }
    ensures give { (s : Space) (c : Chunk) → OneGive s c }
{}

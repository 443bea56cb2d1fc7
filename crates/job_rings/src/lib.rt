//! The two rings in host memory by which driver and chip hand blocks to each other: the start ring, which the driver
//! fills, and the done ring, which the chip fills. A slot is named by its address; it has two words, a block and the
//! address of the next slot, and an idle slot holds the block IDLE.
//!
//! Each call wants memory of 4 MiB. None takes memory.
#![tactic(auto)]

ghost use Rattle.std.specs.Prelude.{◌≡◌, ◌≢◌, ◌≤◌, length, MatchOption};
ghost use Rattle.bench_words.specs.Memory.{word_at, put_word};
ghost use Rattle.bench_words.specs.Views.{Wrote};
ghost use Rattle.host_map.specs.declared.TheConstants.{IDLE, START_RING, DONE_RING};
ghost use Rattle.job_rings.specs.Rings.{IsSlot, next_slot, started, Started};

mod laws;

use bench_words::Words;
use host_map::{DONE_RING, IDLE, SLOTS, START_RING};
pub use laws::{slots_are_counted, starts_stay_in_ring};

/// The bytes of a slot.
const SLOT_BYTES: u32 = 8;

// The slot behind a slot of the ring that begins at `ring`; the first one is behind the last.
fn next_slot(ring: u32, slot: u32) -> u32
    requires ring { ring ≤ 0x10000 }
    requires slot { IsSlot ring slot }
    ensures next { result ≡ next_slot ring slot }
    ensures is_slot { IsSlot ring result }
{
    ring + (slot - ring + SLOT_BYTES) % (SLOT_BYTES * SLOTS)
}

/// Starts a block: makes the slot behind `slot` idle, then fills `slot`, and answers the slot behind it. The order
/// matters to the chip, which goes on from a filled slot to the next one: there it must find an idle one.
///
/// `slot` is one of the 512 slots of the start ring. All other words stay.
pub fn put_start(words: &mut Words, slot: u32, block: u32) -> u32
    requires memory { length words.old ≡ 0x400000 }
    requires slot { IsSlot START_RING slot }
    ensures wrote { words.new ≡ started words.old slot block }
    ensures words { Started (word_at words.old) (word_at words.new) slot block }
    ensures size { length words.new ≡ length words.old }
    ensures next { result ≡ next_slot START_RING slot }
{
    let next = next_slot(START_RING, slot);
    words.set(next, IDLE);
    words.set(slot, block);
    next
}

/// The block in `slot`, one of the 512 slots of the done ring; None exactly where the slot is idle.
pub fn peek_done(words: &Words, slot: u32) -> Option<u32>
    requires memory { length words.now ≡ 0x400000 }
    requires slot { IsSlot DONE_RING slot }
    ensures { MatchOption result (word_at words.now slot ≡ IDLE) (λ block. (block ≡ word_at words.now slot) × (block ≢ IDLE)) }
{
    let block = words.get(slot);
    if block == IDLE { None } else { Some(block) }
}

/// Makes `slot` idle, one of the 512 slots of the done ring, and answers the slot behind it. All other words stay.
pub fn clear_done(words: &mut Words, slot: u32) -> u32
    requires memory { length words.old ≡ 0x400000 }
    requires slot { IsSlot DONE_RING slot }
    ensures wrote { words.new ≡ put_word words.old slot IDLE }
    ensures words { Wrote (word_at words.old) (word_at words.new) slot IDLE }
    ensures size { length words.new ≡ length words.old }
    ensures next { result ≡ next_slot DONE_RING slot }
{
    words.set(slot, IDLE);
    next_slot(DONE_RING, slot)
}

#[cfg(test)]
mod tests;

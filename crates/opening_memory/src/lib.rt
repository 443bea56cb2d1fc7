//! Host memory at the opening of a bench: what each word is, and the call that writes them all.
#![tactic(auto)]

ghost use Rattle.std.specs.Prelude.{◌≡◌, ◌%◌, ◌≤◌, length};
ghost use Rattle.bench_words.specs.Memory.{IsZero};
ghost use Rattle.driver_script.specs.Script.{IsVersion};
ghost use Rattle.opening_memory.specs.Opening.{control_table, fixed_table, ring_table, tag_table, IsOpening};
ghost use Rattle.opening_memory.specs.Tables.{written};

mod laws;

use bench_words::Words;
use cmd_block::{CUT, ENDED, Field, MESSAGE, NO_TARGET, write};
use driver_script::{Name, label, load};
use host_map::{
    ABORT_TAG, BADTASK_ADDRESS, CUT_STATE, DONE_RING, DONEP, ENDED_STATE, FRONT, FRONT_IDLE,
    FRONT_IDLE_ADDRESS, IDLE, JOB, NO_TARGET_STATE, NOTASK, OPEN_ADDRESS, OVER_ADDRESS, RINGP,
    SLOTS, START_RING, TAG_TABLES,
};
pub use laws::{constants_stay, opening_is_written, opening_says_names};
use rig_chains::lay_chains;
use rig_types::Unit;

/// The message ABORT TAG.
const ABORT_TAG_MESSAGE: u32 = 0x0d;
/// The message BUS DEVICE RESET.
const RESET_MESSAGE: u32 = 0x0c;
/// The entries of all tag tables.
const ENTRIES: u32 = 4096;

/// Writes the words that driver and script share.
fn lay_control(words: &mut Words)
    requires { length words.old ≡ 0x400000 }
    ensures wrote { words.new ≡ written words.old control_table }
    ensures size { length words.new ≡ length words.old }
{
    words.set(FRONT, FRONT_IDLE);
    words.set(RINGP, START_RING);
    words.set(DONEP, DONE_RING);
    words.set(ABORT_TAG, ABORT_TAG_MESSAGE);
    words.set(OVER_ADDRESS, label(Name::Over));
    words.set(ENDED_STATE, ENDED);
    words.set(CUT_STATE, CUT);
    words.set(NO_TARGET_STATE, NO_TARGET);
    words.set(OPEN_ADDRESS, label(Name::Open));
    words.set(BADTASK_ADDRESS, label(Name::Badtask));
    words.set(FRONT_IDLE_ADDRESS, FRONT_IDLE);
}

/// Writes the blocks that no command has.
fn lay_fixed(words: &mut Words)
    requires { length words.old ≡ 0x400000 }
    ensures wrote { words.new ≡ written words.old fixed_table }
    ensures size { length words.new ≡ length words.old }
{
    write(words, IDLE, Field::Start, label(Name::Waitr));
    write(words, NOTASK, Field::Restart, label(Name::Badtask));
    write(words, NOTASK, Field::Gate, label(Name::Open));
    write(words, FRONT_IDLE, Field::Start, label(Name::Ring));
    write(words, JOB, Field::Start, label(Name::Resetjob));
    write(words, JOB, Field::MsgCount, 1);
    write(words, JOB, Field::MsgAt, JOB + MESSAGE);
    words.set(JOB + MESSAGE, RESET_MESSAGE);
}

/// Makes each slot of a ring idle, and links it to the slot behind it.
fn lay_ring(words: &mut Words, ring: u32)
    requires memory { length words.old ≡ 0x400000 }
    requires aligned { ring % 4 ≡ 0 }
    requires inside { ring ≤ 0x10000 }
    ensures wrote { words.new ≡ written words.old (ring_table ring) }
    ensures size { length words.new ≡ length words.old }
{
    for n in 0..SLOTS {
        words.set(ring + 8 * n, IDLE);
    }
    for slot in 0..SLOTS {
        words.set(ring + 4 + 8 * slot, ring + 8 * ((slot + 1) % SLOTS));
    }
}

/// Frees every tag of every unit.
fn lay_tags(words: &mut Words)
    requires { length words.old ≡ 0x400000 }
    ensures wrote { words.new ≡ written words.old tag_table }
    ensures size { length words.new ≡ length words.old }
{
    for n in 0..ENTRIES {
        words.set(TAG_TABLES + 4 * n, NOTASK);
    }
}

/// Makes memory of 4 MiB that is 0 host memory at the opening, for a version of the script, 1 or 2, and the units of a
/// rig, at most 16. Takes no memory.
pub fn lay_opening(words: &mut Words, version: u8, units: &[Unit])
    requires memory { IsZero words.old 0x400000 }
    requires version { IsVersion version }
    requires units { length units.now ≤ 16 }
    ensures { IsOpening words.new version units.now }
{
    load(words, version);
    lay_control(words);
    lay_fixed(words);
    lay_ring(words, START_RING);
    lay_ring(words, DONE_RING);
    lay_tags(words);
    lay_chains(words, units);
}

#[cfg(test)]
mod tests;

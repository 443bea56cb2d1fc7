//! Aborts and resets: the words by which the driver cuts a command, sends a device reset through the chip, and ends
//! what a reset has dropped.
//!
//! Each call but `in_tail` wants memory of 4 MiB. None takes memory.
#![tactic(auto)]

ghost use Rattle.std.specs.Prelude.{◌≡◌, ◌+◌, ◌↔◌, IsTrue, length};
ghost use Rattle.bench_words.specs.Memory.{word_at};
ghost use Rattle.bench_words.specs.Views.{Wrote, WroteWithin};
ghost use Rattle.host_map.specs.declared.TheConstants.{FRONT, FRONT_IDLE};
ghost use Rattle.host_map.specs.Places.{IsCommandBlock};
ghost use Rattle.cmd_block.specs.Block.{offset};
ghost use Rattle.abort_reset.specs.Patches.{marked, job_at_front, idle_at_front, swept, Marked, JobAtFront, Swept, InTail};

use bench_words::Words;
use cmd_block::{Field, SWEPT, write};
use driver_script::{Name, label};
use host_map::{FRONT, FRONT_IDLE, JOB};

/// The last instruction of the tail, behind PUT.
const TAIL_END: u32 = 0x270;

/// Marks the command of `block`, one of the 256 command blocks, as to be cut: START and RESTART become CANCEL and
/// ABORT, so that the script neither selects for it nor goes on with it at a reselection. All other words stay.
pub fn mark(words: &mut Words, block: u32)
    requires memory { length words.old ≡ 0x400000 }
    requires block { IsCommandBlock block }
    ensures wrote { words.new ≡ marked words.old block }
    ensures words { Marked (word_at words.old) (word_at words.new) block }
    ensures within { WroteWithin (word_at words.old) (word_at words.new)
        (block + offset Field.Start) (block + offset Field.Restart + 4) }
    ensures size { length words.new ≡ length words.old }
{
    write(words, block, Field::Start, label(Name::Cancel));
    write(words, block, Field::Restart, label(Name::Abort));
}

/// Puts the device reset of a target before the start ring: JOB's SEL has the target in bits 23 to 16, and FRONT is
/// JOB. All other words stay.
pub fn front_job(words: &mut Words, target: u8)
    requires { length words.old ≡ 0x400000 }
    ensures wrote { words.new ≡ job_at_front words.old target }
    ensures words { JobAtFront (word_at words.old) (word_at words.new) target }
    ensures size { length words.new ≡ length words.old }
{
    write(words, JOB, Field::Sel, u32::from(target) * 0x1_0000);
    words.set(FRONT, JOB);
}

/// Makes FRONT idle. All other words stay.
pub fn front_idle(words: &mut Words)
    requires { length words.old ≡ 0x400000 }
    ensures wrote { words.new ≡ idle_at_front words.old }
    ensures words { Wrote (word_at words.old) (word_at words.new) FRONT FRONT_IDLE }
    ensures size { length words.new ≡ length words.old }
{
    words.set(FRONT, FRONT_IDLE);
}

/// Ends the command of `block`, one of the 256 command blocks, as swept by a reset: STATE is 4 and GATE is BADTASK. All
/// other words stay.
pub fn sweep(words: &mut Words, block: u32)
    requires memory { length words.old ≡ 0x400000 }
    requires block { IsCommandBlock block }
    ensures wrote { words.new ≡ swept words.old block }
    ensures words { Swept (word_at words.old) (word_at words.new) block }
    ensures within { WroteWithin (word_at words.old) (word_at words.new)
        (block + offset Field.State) (block + offset Field.Gate + 4) }
    ensures size { length words.new ≡ length words.old }
{
    write(words, block, Field::State, SWEPT);
    write(words, block, Field::Gate, label(Name::Badtask));
}

/// Whether a script address is in the tail, where a command is already ended and only its entry into the done ring is
/// due: from TAIL to the jump behind PUT, or DROPPED.
pub fn in_tail(dsp: u32) -> bool
    ensures { IsTrue result ↔ InTail dsp }
{
    (label(Name::Tail) <= dsp && dsp <= TAIL_END) || dsp == label(Name::Dropped)
}

#[cfg(test)]
mod tests;

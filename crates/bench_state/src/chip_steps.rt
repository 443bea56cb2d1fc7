//! Chip: the chip makes one step.

ghost use Rattle.std.specs.Prelude.{◌≡◌};
ghost use Rattle.world_law.specs.ChipSteps.{stop_for, stop_after, reply_for, RunsChip};
ghost use Rattle.world_law.specs.declared.reply.Reply.TheVariants.{Idle};

use crate::state::State;
use chip_regs::Cause;
use chip_step::StepEnd;
use target_bus::step;
use world_law::{Reply, Stop};

/// The vector with which the script ends a device reset.
const JOB_DONE: u32 = 5;

impl State {
    /// The chip makes a step with a word, over the bus of the rig with the desk's live tickets. `Idle` changes nothing.
    pub fn run_chip(&mut self, word: u32) -> Reply
        ensures setting { self.new.setting ≡ self.old.setting }
        ensures runs { RunsChip self.old.world word result self.new.world }
        ensures idle { result ≡ Idle → self.new ≡ self.old }
    {
        let end = step(&mut self.words, &mut self.regs, &mut self.bus, word);
        self.stop = stop_after(end, self.stop);
        reply_for(end)
    }
}

/// The stop stage to which a stop of the chip leads: a mismatch can be repaired, a selection that timed out and the end
/// of a device reset leave tickets to sweep, and after any other stop the bus is to be reset.
fn stop_for(cause: Cause) -> Stop
    ensures { result ≡ stop_for cause }
{
    match cause {
        Cause::Ma => Stop::Mismatch,
        Cause::Sto => Stop::Clear,
        Cause::Sir(vector) => {
            if vector == JOB_DONE {
                Stop::Clear
            } else {
                Stop::MustReset
            }
        }
        Cause::Iid | Cause::Bf | Cause::Udc | Cause::Rst => Stop::MustReset,
    }
}

/// The stop stage after a step of the chip.
fn stop_after(end: StepEnd, old: Stop) -> Stop
    ensures { result ≡ stop_after end old }
{
    match end {
        StepEnd::Stopped(cause) => stop_for(cause),
        _ => old,
    }
}

/// The answer to a step of the chip.
fn reply_for(end: StepEnd) -> Reply
    ensures { result ≡ reply_for end }
{
    match end {
        StepEnd::Idle => Reply::Idle,
        _ => Reply::Made,
    }
}

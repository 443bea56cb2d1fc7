//! Which step each caller makes in its turn: the first of its tries that is enabled. But for a sweep, which comes after a
//! reset alone, no choice goes over tickets.

ghost use Rattle.std.specs.Prelude.{◌≡◌, ◌<◌, ◌∷◌, [], length};
ghost use Rattle.rig_types.specs.declared.step.Step.TheVariants as step;
ghost use Rattle.desk_law.specs.Desk.{aborter};
ghost use Rattle.run_law.specs.Serial.{IsFirst, tries_aborter, tries_of, tries_reaper, tries_submitter};
ghost use Rattle.bench_state.specs.LastLines.{last_ticket};
ghost use Rattle.serial_run.specs.Histories.{tried, tries_last};

use bench_core::Bench;
use rig_types::{Line, Step};
use world_law::Decided;

/// The first of these tries that has a step that its caller may make.
fn first_enabled(bench: &Bench, caller: u32, tries: &[Option<Step>]) -> Option<Step>
    ensures { IsFirst bench.now.setting bench.now.world caller (tried tries.now) result }
{
    for held in tries {
        if let Some(step) = *held {
            if bench.is_enabled(caller, step) {
                return Some(step);
            }
        }
    }
    None
}

/// The ticket of a submitter's last line that is decided, if that line was accepted.
fn last_ticket(bench: &Bench, submitter: u32) -> Option<u32>
    requires { submitter < 16 }
    ensures { result ≡ last_ticket bench.now.world submitter }
{
    let number = bench.next_line(submitter).saturating_sub(1);
    match bench.line(Line {
        submitter: submitter as u16,
        number,
    }) {
        Decided::Accepted(t) => Some(t),
        Decided::Open | Decided::Refused(_) => None,
    }
}

/// What a submitter tries: Signal, Link or Queue of its last ticket, and Build of its next line. No other ticket of it
/// can be Built or Linked.
fn tries_of_submitter(bench: &Bench, submitter: u32) -> [Option<Step>; 4]
    requires { submitter < 16 }
    ensures { tried result ≡ tries_last bench.now.world submitter }
{
    let last = last_ticket(bench, submitter);
    [
        Some(Step::Signal),
        last.map(|t| Step::Link(t)),
        last.map(|t| Step::Queue(t)),
        Some(Step::Build(Line {
            submitter: submitter as u16,
            number: bench.next_line(submitter),
        })),
    ]
}

/// What the reaper tries: what the stop of the chip asks for, Signal, the least tickets of each stage, and TakeDone.
fn tries_of_reaper(bench: &Bench) -> [Option<Step>; 10]
    ensures { tried result ≡ tries_reaper bench.now.world }
{
    [
        Some(Step::Fix),
        bench.next_sweep().map(|t| Step::Sweep(t)),
        Some(Step::ResetBus),
        Some(Step::Restart),
        Some(Step::Signal),
        bench.least_again().map(|t| Step::Queue(t)),
        bench.least_check().map(|t| Step::Sense(t)),
        bench.least_unlinked().map(|t| Step::Free(t)),
        bench.least_ended().map(|t| Step::Unlink(t)),
        Some(Step::TakeDone),
    ]
}

/// The step of a submitter.
fn next_step_of_submitter(bench: &Bench, submitter: u32) -> Option<Step>
    requires few { submitter < 16 }
    requires there { submitter < length bench.now.setting.submitters }
    requires own { submitter < aborter bench.now.world.desk }
    ensures { IsFirst bench.now.setting bench.now.world submitter (tries_submitter bench.now.world submitter) result }
{
    bench.list_is_lawful();
    first_enabled(bench, submitter, &tries_of_submitter(bench, submitter))
}

/// The step of the aborter, which has this number: Signal, or the next act.
fn next_step_of_aborter(bench: &Bench, aborter: u32) -> Option<Step>
    ensures { IsFirst bench.now.setting bench.now.world aborter (tries_aborter bench.now.world) result }
{
    let tries = [Some(Step::Signal), Some(Step::Act(bench.next_act()))];
    first_enabled(bench, aborter, &tries)
}

/// The step of the reaper, which has this number.
fn next_step_of_reaper(bench: &Bench, reaper: u32) -> Option<Step>
    ensures { IsFirst bench.now.setting bench.now.world reaper (tries_reaper bench.now.world) result }
{
    first_enabled(bench, reaper, &tries_of_reaper(bench))
}

/// The step of the chip, which has this number and makes its choices by a word.
fn next_step_of_chip(bench: &Bench, chip: u32, word: u32) -> Option<Step>
    ensures { IsFirst bench.now.setting bench.now.world chip (step.Chip word ∷ []) result }
{
    first_enabled(bench, chip, &[Some(Step::Chip(word))])
}

/// The step that a caller makes in its turn, if it has one that is enabled. The word is the chip's.
pub(crate) fn next_step(bench: &Bench, caller: u32, word: u32) -> Option<Step>
    ensures { IsFirst bench.now.setting bench.now.world caller (tries_of bench.now.world caller word) result }
{
    let aborter = bench.submitter_count();
    if caller < aborter {
        next_step_of_submitter(bench, caller)
    } else if caller == aborter {
        next_step_of_aborter(bench, caller)
    } else if caller == aborter + 1 {
        next_step_of_reaper(bench, caller)
    } else {
        next_step_of_chip(bench, caller, word)
    }
}

//! Making one line of a trace.

ghost use Rattle.std.specs.Prelude.{◌≡◌, ◌<◌, ◌≤◌, ◌↔◌, [], IfErr, IsTrue, OnOk, length, slice_index_or};
ghost use Rattle.world_law.specs.Answers.{WithinLimit};
ghost use Rattle.replay_run.specs.Making.{MakesLine, MakesStep, RefusesLine, RefusesStep};
ghost use Rattle.replay_run.specs.Replays.{Knows};

use crate::callers::{caller_of, is_caller_given};
use bench_core::Bench;
use refusal_lines::{Fault, Refusal};
use rig_types::{Step, Work};
use trace_text::TraceLine;
use world_law::Reply;

/// How many lines a submitter has; 0 where the work has no such submitter.
fn line_count(work: &Work, submitter: u16) -> usize
    ensures { result ≡ length (slice_index_or work.now.submitters submitter []) }
{
    match work.submitters.as_slice().get(submitter as usize) {
        Some(commands) => commands.as_slice().len(),
        None => 0,
    }
}

/// Whether the work has the line or the act that a step names. The other steps name neither.
fn is_known(bench: &Bench, step: Step) -> bool
    ensures { IsTrue result ↔ Knows bench.now.setting step }
{
    match step {
        Step::Build(l) => (l.number as usize) < line_count(bench.work(), l.submitter),
        Step::Act(k) => (k as usize) < bench.work().acts.as_slice().len(),
        _ => true,
    }
}

/// Makes a step of a caller, and enters it. Where the caller can't make it, or it isn't recorded, the fault has the number
/// of the entry that it would have been, from 1. The other error is want of memory.
fn make_step(bench: &mut Bench, caller: u32, step: Step) -> Result<(), Refusal>
    requires { WithinLimit bench.old.setting (length bench.old.entries) bench.old.world }
    ensures setting { bench.new.setting ≡ bench.old.setting }
    ensures made { OnOk result (MakesStep (record { caller = caller; step = step }) bench.old bench.new) }
    ensures refused { IfErr result (RefusesStep (record { caller = caller; step = step }) bench.old) }
{
    bench.list_is_lawful();
    let before = bench.length();
    match bench.step(caller, step) {
        Reply::OutOfMemory => Err(Refusal::OutOfMemory),
        _ => {
            if before < bench.length() {
                Ok(())
            } else {
                Err(Refusal::Bad(Fault::TraceStep(before + 1)))
            }
        }
    }
}

/// Makes the step of a line that is known, by the one caller that can.
fn make_known(bench: &mut Bench, line: TraceLine) -> Result<(), Refusal>
    requires free { WithinLimit bench.old.setting (length bench.old.entries) bench.old.world }
    requires known { Knows bench.old.setting line.step }
    ensures setting { bench.new.setting ≡ bench.old.setting }
    ensures made { OnOk result (MakesLine line bench.old bench.new) }
    ensures refused { IfErr result (RefusesLine line bench.old) }
{
    bench.list_is_lawful();
    let caller = caller_of(bench, line);
    if !is_caller_given(line, caller) {
        return Err(Refusal::Bad(Fault::TraceStep(bench.length() + 1)));
    }
    make_step(bench, caller, line.step)
}

/// Makes the step of a trace's next line, and enters it. The line is refused where the list is full and the bench isn't
/// drained; else where the work doesn't have what the line names; else where no caller can make a step of this line that is
/// recorded. The faults have the number of the line, from 1, where each line before it is an entry. The other error is want
/// of memory.
pub(crate) fn make_line(bench: &mut Bench, line: TraceLine) -> Result<(), Refusal>
    ensures setting { bench.new.setting ≡ bench.old.setting }
    ensures made { OnOk result (MakesLine line bench.old bench.new) }
    ensures refused { IfErr result (RefusesLine line bench.old) }
{
    bench.list_is_lawful();
    if bench.length() == bench.rig().step_limit && !bench.drained() {
        return Err(Refusal::StepLimit);
    }
    if !is_known(bench, line.step) {
        return Err(Refusal::Bad(Fault::UnknownStep(bench.length() + 1)));
    }
    make_known(bench, line)
}

//! Who makes the step of a line.

ghost use Rattle.std.specs.Prelude.{◌≡◌, ◌↔◌, IsTrue};
ghost use Rattle.trace_text.specs.Grammar.{line_caller};
ghost use Rattle.replay_run.specs.Making.{caller_of, queue_caller};

use bench_core::Bench;
use rig_types::Step;
use trace_text::TraceLine;

/// The caller of a Queue: the submitter of its ticket where this is Linked, and else the reaper.
#[tactic(auto, using(crate::proofs::LineCallers::by_submitter, crate::proofs::LineCallers::by_reaper))]
fn queue_caller(bench: &Bench, t: u32) -> u32
    ensures { result ≡ queue_caller bench.now.world t }
{
    let submitter = bench.submitter_of(t);
    if bench.is_enabled(submitter, Step::Queue(t)) {
        submitter
    } else {
        bench.reaper()
    }
}

/// The caller of a line: no other may make its step and gives this line.
pub(crate) fn caller_of(bench: &Bench, line: TraceLine) -> u32
    ensures { result ≡ caller_of bench.now.world line }
{
    match line.step {
        Step::Build(l) => u32::from(l.submitter),
        Step::Link(t) => bench.submitter_of(t),
        Step::Queue(t) => queue_caller(bench, t),
        Step::Signal => line.caller.unwrap_or(0),
        Step::Chip(_) => bench.chip(),
        Step::Act(_) => bench.aborter(),
        _ => bench.reaper(),
    }
}

/// Whether the line of a step that this caller makes gives the caller as this line does.
pub(crate) fn is_caller_given(line: TraceLine, caller: u32) -> bool
    ensures { IsTrue result ↔ (line_caller line.step caller ≡ line.caller) }
{
    match line.step {
        Step::Build(l) => line.caller == Some(u32::from(l.submitter)),
        Step::Signal => line.caller == Some(caller),
        _ => line.caller.is_none(),
    }
}

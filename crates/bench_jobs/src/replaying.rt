//! The report of a replay.

ghost use Rattle.bench_state.specs.States.{setting_of};
ghost use Rattle.bench_jobs.specs.Jobs.{ReplayRuns};

use bench_core::Bench;
use refusal_lines::Refusal;
use replay_run::replay;
use report_text::report_text;
use rig_types::{Rig, Work};
use scsi_words::Bytes;
use std::alloc::Global;
use trace_text::TraceLine;

/// The report text of the bench after the steps of a trace over a rig and a work. Refusals come as those of `replay`.
pub fn replay_text(
    alloc: Global,
    rig: Rig,
    work: Work,
    lines: &[TraceLine],
) -> Result<Bytes, Refusal>
    ensures { ReplayRuns (setting_of rig work) lines.now result }
{
    let mut bench = Bench::open(alloc, rig, work)?;
    replay(&mut bench, lines)?;
    let text = report_text(alloc, &bench)?;
    Ok(text)
}

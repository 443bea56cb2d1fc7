//! The jobs of the commands over a bench.
ghost use Rattle.std.specs.Prelude.{◌≡◌};
ghost use Rattle.bench_state.specs.States.{setting_of};
ghost use Rattle.run_files.specs.Shelves.{shelved};
ghost use Rattle.sym_top.specs.CommandLine.{replay as Replaying, step as Stepping};
ghost use Rattle.sym_top.specs.Jobs.{LoadYields, ReplayYields, StepYields};
ghost use Rattle.sym_top.specs.Making.{Prepares};

use crate::job::{Job, Output};
use crate::load_numbers::LoadNumbers;
use bench_jobs::{load_text, replay_text, step_run};
use refusal_lines::Refusal;
use rig_types::{Rig, Work};
use run_files::{load_rig, load_trace, load_work};
use std::alloc::Global;
use sym_io::Shelf;
use trace_text::TraceLine;

/// The job of `step` over a rig and a work.
fn run_job<'a>(
    alloc: Global,
    rig: Rig,
    work: Work,
    seed: u32,
    trace: &'a str,
) -> Result<Job<'a>, Refusal>
    ensures { StepYields (setting_of rig work) seed trace.now result }
{
    let texts = step_run(alloc, rig, work, seed)?;
    Ok(Job {
        text: texts.report,
        output: Some(Output {
            name: trace,
            bytes: texts.trace,
        }),
    })
}

/// Loads the rig and the work of `step`, and makes the serial run of the seed.
pub(crate) fn step_job<'a, F: Shelf>(
    alloc: Global,
    rig: &str,
    work: &str,
    seed: u32,
    trace: &'a str,
    shelf: &mut F,
) -> Result<Job<'a>, Refusal>
    ensures { Prepares (Stepping rig.now work.now seed trace.now) (shelved (F.files shelf.old) (F.load_faults shelf.old) (F.store_faults shelf.old)) (shelved (F.files shelf.new) (F.load_faults shelf.new) (F.store_faults shelf.new)) result }
{
    let rig = load_rig(alloc, rig, shelf)?;
    let work = load_work(alloc, work, &rig, shelf)?;
    run_job(alloc, rig, work, seed, trace)
}

/// The job of `replay` over a rig, a work and the lines of a trace.
fn lines_job<'a>(
    alloc: Global,
    rig: Rig,
    work: Work,
    lines: &[TraceLine],
) -> Result<Job<'a>, Refusal>
    ensures { ReplayYields (setting_of rig work) lines.now result }
{
    let text = replay_text(alloc, rig, work, lines)?;
    Ok(Job { text, output: None })
}

/// Loads the rig, the work and the trace of `replay`, and makes the steps of the trace.
pub(crate) fn replay_job<'a, F: Shelf>(
    alloc: Global,
    rig: &str,
    work: &str,
    trace: &str,
    shelf: &mut F,
) -> Result<Job<'a>, Refusal>
    ensures { Prepares (Replaying rig.now work.now trace.now) (shelved (F.files shelf.old) (F.load_faults shelf.old) (F.store_faults shelf.old)) (shelved (F.files shelf.new) (F.load_faults shelf.new) (F.store_faults shelf.new)) result }
{
    let rig = load_rig(alloc, rig, shelf)?;
    let work = load_work(alloc, work, &rig, shelf)?;
    let lines = load_trace(alloc, trace, &rig, shelf)?;
    lines_job(alloc, rig, work, lines.as_slice())
}

/// The job of `load`.
pub(crate) fn load_job<'a>(alloc: Global, numbers: LoadNumbers) -> Result<Job<'a>, Refusal>
    ensures { LoadYields numbers.count numbers.seed result }
{
    let text = load_text(alloc, numbers.count, numbers.seed)?;
    Ok(Job { text, output: None })
}

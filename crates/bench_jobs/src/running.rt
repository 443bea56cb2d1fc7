//! The serial run of a seed, and its texts.

ghost use Rattle.std.specs.Prelude.{◌≡◌, IfOk, map};
ghost use Rattle.trace_text.specs.Grammar.{IsTrace, line_of};
ghost use Rattle.bench_state.specs.States.{setting_of};
ghost use Rattle.report_text.specs.Text.{report_text};
ghost use Rattle.bench_jobs.specs.Jobs.{RunsAs, SerialFills, StepRuns};
ghost use Rattle.bench_jobs.specs.Histories.{IsDrainedHistory};

use bench_core::Bench;
use refusal_lines::Refusal;
use report_text::report_text;
use rig_types::{Rig, Work};
use scsi_words::Bytes;
use serial_run::drive;
use std::alloc::{AllocError, Global};
use std::marker::Model;
use trace_text::write;

/// The texts of a run.
#[derive(Drop)]
pub struct RunTexts {
    /// The trace of its list of steps.
    pub trace: Bytes,
    /// The report text of the bench after it.
    pub report: Bytes,
}

impl Model for RunTexts {
    ghost use Rattle.bench_jobs.specs.Jobs.{Texts};

    ghost Value = { Texts };

    ghost view = { λ texts. record { trace = texts.trace; report = texts.report } };
}

/// The texts of the serial run of a seed over a rig and a work. `StepLimit` comes exactly where the list of that run has
/// as many entries as the rig allows and the bench isn't drained, and the one other refusal is want of memory. It also
/// comes where a round records nothing, which isn't proved to be impossible.
pub fn step_run(alloc: Global, rig: Rig, work: Work, seed: u32) -> Result<RunTexts, Refusal>
    ensures { StepRuns (setting_of rig work) seed result }
{
    let bench = drained_run(alloc, rig, work, seed)?;
    let texts = texts_of(alloc, &bench)?;
    Ok(texts)
}

/// A bench that the serial run of a seed has drained, or why there is none.
pub(crate) fn drained_run(alloc: Global, rig: Rig, work: Work, seed: u32) -> Result<Bench, Refusal>
    ensures { RunsAs (IsDrainedHistory (setting_of rig work) seed) (SerialFills (setting_of rig work) seed) result }
{
    let bench = Bench::open(alloc, rig, work)?;
    let bench = drive(bench, seed)?;
    bench.list_is_lawful();
    if bench.drained() {
        Ok(bench)
    } else {
        Err(Refusal::StepLimit)
    }
}

/// The trace of a bench's list, and its report text.
fn texts_of(alloc: Global, bench: &Bench) -> Result<RunTexts, AllocError>
    ensures trace { IfOk result (λ texts. IsTrace bench.now.setting.version texts.trace (map line_of bench.now.entries)) }
    ensures report { IfOk result (λ texts. texts.report ≡ report_text bench.now.world) }
{
    let rig = bench.rig();
    let trace = write(alloc, bench.entries(), rig.version)?;
    let report = report_text(alloc, bench)?;
    Ok(RunTexts { trace, report })
}

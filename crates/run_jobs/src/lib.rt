//! What the command `run` stores and prints: the trace of the list that all callers of a bench made beside each other,
//! and the report of the bench after it.
#![tactic(auto)]

ghost use Rattle.std.specs.Prelude.{◌≡◌, ◌⊎◌, true, false, IfOk, length, map, MatchOption};
ghost use Rattle.trace_text.specs.Grammar.{IsTrace, line_of};
ghost use Rattle.world_law.specs.Lines.{drained};
ghost use Rattle.bench_state.specs.States.{setting_of};
ghost use Rattle.report_text.specs.Text.{report_text};
ghost use Rattle.run_jobs.specs.PoolRuns.{HasTexts};

use bench_core::Bench;
use bench_pool::Gate;
use pool_run::run_pool;
use report_text::report_text;
use rig_types::{Rig, Work};
use scsi_words::Bytes;
use std::alloc::{AllocError, Global};
use std::marker::Model;
use std::sync::Wait;
use std::thread::Threads;
use trace_text::write;

/// The texts of a run.
#[derive(Drop)]
pub struct PoolTexts {
    /// The trace of its list of steps.
    pub trace: Bytes,
    /// The report text of the bench after it. None where the list is at its limit, and work is left.
    pub report: Option<Bytes>,
}

impl Model for PoolTexts {
    ghost use Rattle.run_jobs.specs.PoolRuns.{Texts};

    ghost Value = { Texts };

    ghost view = { λ texts. record { trace = texts.trace; report = texts.report } };
}

/// The report text of a bench that is drained.
fn report_of(alloc: Global, bench: &Bench) -> Result<Option<Bytes>, AllocError>
    ensures { IfOk result (λ report. MatchOption report (drained bench.now.setting bench.now.world ≡ false)
        (λ text. (drained bench.now.setting bench.now.world ≡ true) × (text ≡ report_text bench.now.world))) }
{
    if bench.drained() {
        Ok(Some(report_text(alloc, bench)?))
    } else {
        Ok(None)
    }
}

/// The trace of a bench's list.
fn trace_of(alloc: Global, bench: &Bench) -> Result<Bytes, AllocError>
    ensures { IfOk result (λ trace. IsTrace bench.now.setting.version trace (map line_of bench.now.entries)) }
{
    let rig = bench.rig();
    write(alloc, bench.entries(), rig.version)
}

/// The texts of a bench that is drained, or whose list has as many entries as the rig allows.
fn texts_of(alloc: Global, bench: &Bench) -> Result<PoolTexts, AllocError>
    requires { (drained bench.now.setting bench.now.world ≡ true) ⊎ (length bench.now.entries ≡ bench.now.setting.step_limit) }
    ensures { IfOk result (HasTexts bench.now.setting) }
{
    bench.list_is_lawful();
    let trace = trace_of(alloc, bench)?;
    let report = report_of(alloc, bench)?;
    Ok(PoolTexts { trace, report })
}

/// Runs all callers of a bench over a rig and a work beside each other, and gives the trace of the list that they made.
/// Where it leaves the bench drained, the report text of that bench comes with it; else the list has as many entries as
/// the rig allows. The one error is want of memory.
pub fn run_texts<R: Threads + Wait + Sync, G: Gate + Sync>(
    rt: &R,
    alloc: Global,
    rig: Rig,
    work: Work,
    seed: u32,
    gate: &G,
) -> Result<PoolTexts, AllocError>
    ensures { IfOk result (HasTexts (setting_of rig work)) }
{
    let bench = Bench::open(alloc, rig, work)?;
    let bench = run_pool(rt, alloc, bench, seed, gate)?;
    texts_of(alloc, &bench)
}

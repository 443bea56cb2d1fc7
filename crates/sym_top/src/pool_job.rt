//! What the command `run` makes of its files, and how it ends.
ghost use Rattle.bench_state.specs.States.{setting_of};
ghost use Rattle.run_files.specs.Shelves.{shelved};
ghost use Rattle.sym_top.specs.Calls.{ends, sunk};
ghost use Rattle.sym_top.specs.Making.{Passes};
ghost use Rattle.sym_top.specs.RunAsked.{run_asked};
ghost use Rattle.sym_top.specs.RunCalls.{FinishesFull, FinishesRun};
ghost use Rattle.sym_top.specs.Running.{PoolYields, RunYields};

use crate::job::{Job, Output, finish, store};
use crate::run_command::RunCommand;
use bench_pool::Gate;
use refusal_lines::Refusal;
use rig_types::{Rig, Work};
use run_files::{load_rig, load_work};
use run_jobs::{PoolTexts, run_texts};
use std::alloc::Global;
use std::sync::Wait;
use std::thread::Threads;
use sym_io::{Shelf, Sink};

/// The texts of a run over a rig and a work. The one refusal is want of memory.
fn texts_of<R: Threads + Wait + Sync, G: Gate + Sync>(
    rt: &R,
    alloc: Global,
    rig: Rig,
    work: Work,
    seed: u32,
    gate: &G,
) -> Result<PoolTexts, Refusal>
    ensures { PoolYields (setting_of rig work) result }
{
    let texts = run_texts(rt, alloc, rig, work, seed, gate)?;
    Ok(texts)
}

/// Loads the rig and the work of `run`, and lets all callers make steps beside each other. No file changes.
pub fn pool_texts<R: Threads + Wait + Sync, F: Shelf, G: Gate + Sync>(
    rt: &R,
    alloc: Global,
    command: RunCommand<'_>,
    shelf: &mut F,
    gate: &G,
) -> Result<PoolTexts, Refusal>
    ensures { Passes (RunYields (run_asked command.entry)) (shelved (F.files shelf.old) (F.load_faults shelf.old) (F.store_faults shelf.old)) (shelved (F.files shelf.new) (F.load_faults shelf.new) (F.store_faults shelf.new)) result }
{
    let rig = load_rig(alloc, command.rig, shelf)?;
    let work = load_work(alloc, command.work, &rig, shelf)?;
    texts_of(rt, alloc, rig, work, command.seed, gate)
}

/// Stores the trace of a list that is full, and tells the limit.
fn finish_full<F: Shelf, O: Sink>(trace: &Output<'_>, shelf: &mut F, out: &O) -> Result<(), Refusal>
    ensures { FinishesFull trace.now (ends (shelved (F.files shelf.old) (F.load_faults shelf.old) (F.store_faults shelf.old)) (shelved (F.files shelf.new) (F.load_faults shelf.new) (F.store_faults shelf.new))
        (sunk (O.written out.now) (O.faults out.now)) (sunk (O.written out.now) (O.faults out.now))) result }
{
    store(trace, shelf)?;
    Err(Refusal::StepLimit)
}

/// Stores the trace of a run, and then prints its report, or tells the limit where there is none.
pub fn finish_run<F: Shelf, O: Sink>(
    name: &str,
    texts: PoolTexts,
    shelf: &mut F,
    out: &mut O,
) -> Result<(), Refusal>
    ensures { FinishesRun name.now texts (ends (shelved (F.files shelf.old) (F.load_faults shelf.old) (F.store_faults shelf.old)) (shelved (F.files shelf.new) (F.load_faults shelf.new) (F.store_faults shelf.new))
        (sunk (O.written out.old) (O.faults out.old)) (sunk (O.written out.new) (O.faults out.new))) result }
{
    let trace = Output {
        name,
        bytes: texts.trace,
    };
    match texts.report {
        Some(text) => {
            let job = Job {
                text,
                output: Some(trace),
            };
            finish(&job, shelf, out)
        }
        None => finish_full(&trace, shelf, out),
    }
}

//! Callers that can go on only where each has a thread of its own.

ghost use Rattle.std.specs.Prelude.{◌≡◌, [], IfOk};

use crate::gates::{BuildTogether, Mark, QueueAfterFree, SignalBesideFree};
use bench_core::Bench;
use bench_pool::Gate;
use pool_run::run_pool;
use rig_reader::read_rig;
use rig_types::ReadFault;
use std::alloc::Global;
use std::process::Abort;
use std::sync::Wait;
use std::test::Fail;
use std::thread::Threads;
use work_reader::read_work;

/// One unit, with all other keys at their defaults.
const RIG: &str = "version = 1\n[[unit]]\ntarget = 0\nlun = 0\nblocks = 64\n";
/// A submitter with one READ(10) of block 3.
const SUBMITTER: &str =
    "[[submitter]]\n[[submitter.command]]\nunit = 0\ncdb = \"28000000000300000100\"\nsegments = [512]\ndirection = \"in\"\n";

/// A bench over `RIG` and so many submitters with one command each.
fn bench_of(alloc: Global, submitters: usize) -> Result<Bench, ReadFault>
    ensures { IfOk result (λ b. b.entries ≡ []) }
{
    let mut text = String::from_str(alloc, "version = 1\n")?;
    for _ in 0..submitters {
        text.push_str(SUBMITTER)?;
    }
    let rig = read_rig(alloc, RIG.as_bytes())?;
    let work = read_work(alloc, text.as_bytes(), &rig)?;
    Ok(Bench::open(alloc, rig, work)?)
}

/// Runs so many submitters of one command each past a gate: all commands are reported.
fn run_past<R: Threads + Wait + Sync + Abort, G: Gate + Sync>(
    rt: &R,
    alloc: Global,
    submitters: usize,
    gate: &G,
) -> Result<(), Fail> {
    let bench = bench_of(alloc, submitters)?;
    let bench = run_pool(rt, alloc, bench, 7, gate)?;
    assert!(rt; bench.drained());
    assert_eq!(rt; bench.report_count(), submitters);
    Ok(())
}

#[test]
fn a_submitter_is_held_while_another_is_served(rt: HostRuntime) -> Result<(), Fail> {
    let gate = QueueAfterFree { freed: Mark::new() };
    run_past(&rt, rt.alloc(), 2, &gate)?;
    assert!(rt; gate.freed.served_all());
    Ok(())
}

#[test]
fn submitters_build_together(rt: HostRuntime) -> Result<(), Fail> {
    let gate = BuildTogether { there: Mark::new() };
    run_past(&rt, rt.alloc(), 4, &gate)?;
    assert!(rt; gate.there.served_all());
    Ok(())
}

#[test]
fn the_reaper_is_held_beside_a_submitter(rt: HostRuntime) -> Result<(), Fail> {
    let gate = SignalBesideFree {
        freed: Mark::new(),
        signals: Mark::new(),
    };
    run_past(&rt, rt.alloc(), 2, &gate)?;
    assert!(rt; gate.freed.served_all());
    assert!(rt; gate.signals.served_all());
    Ok(())
}

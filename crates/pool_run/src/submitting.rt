//! A submitter's way through its lines.

ghost use Rattle.std.specs.Prelude.{◌≡◌, ◌≤◌, ◌+◌, List, length, OnOk, IfErr};
ghost use Rattle.rig_types.specs.declared.commands.WhenFull.{WhenFull};
ghost use Rattle.bench_lock.specs.Views.{Follows};
ghost use Rattle.bench_pool.specs.Submits.{MayBegin};
ghost use Rattle.bench_pool.specs.Workers.{Fails};
ghost use Rattle.pool_run.specs.Callers.{RestsAfter};

use bench_core::Bench;
use bench_lock::{Seat, Shared};
use bench_pool::{Gate, SubmitFault, WorkerFault, submit};
use rig_types::{Line, WhenFull};
use std::sync::Wait;
use std::sync::atomic::AtomicU64;

/// Submits one line. Ok where it is decided: it has its ticket, or was refused.
fn submit_line<R: Wait, G: Gate>(
    rt: &R,
    shared: &Shared<Bench>,
    seat: &mut Seat<Bench>,
    line: Line,
    when_full: WhenFull,
    stop: &AtomicU64,
    gate: &G,
) -> Result<(), WorkerFault>
    requires lock { seat.old.lock ≡ shared.now }
    requires begin { MayBegin seat.old.view line when_full }
    ensures lock { seat.new.lock ≡ seat.old.lock }
    ensures follows { Follows seat.old.view seat.new.view }
    ensures ok { OnOk result ((choices : List WhenFull) → RestsAfter choices line.submitter line.number seat.old.view
        → RestsAfter choices line.submitter (line.number + 1) seat.new.view) }
    ensures fault { IfErr result (Fails seat.new.view) }
{
    match submit(rt, shared, seat, line, when_full, stop, gate) {
        Ok(_) => Ok(()),
        Err(SubmitFault::Refused(_)) => Ok(()),
        Err(SubmitFault::StepLimit) => Err(WorkerFault::StepLimit),
        Err(SubmitFault::OutOfMemory) => Err(WorkerFault::OutOfMemory),
    }
}

/// Submits the lines of a submitter in their order, each when the one before is decided. The seat's caller is the
/// submitter, and `choices` are those of its commands.
///
/// Ok where all of its lines are decided. It has no signal to make then, and none comes due any more.
///
/// # Errors
///
/// StepLimit where the list that the seat has seen is full and not drained. OutOfMemory where `stop` isn't 0, or memory
/// is wanting for a Build, which sets `stop` to 1.
pub(crate) fn submit_lines<R: Wait, G: Gate>(
    rt: &R,
    shared: &Shared<Bench>,
    seat: &mut Seat<Bench>,
    submitter: u16,
    choices: &[WhenFull],
    stop: &AtomicU64,
    gate: &G,
) -> Result<(), WorkerFault>
    requires lock { seat.old.lock ≡ shared.now }
    requires few { length choices.now ≤ 2147483648 }
    requires rests { RestsAfter choices.now submitter 0 seat.old.view }
    ensures lock { seat.new.lock ≡ seat.old.lock }
    ensures follows { Follows seat.old.view seat.new.view }
    ensures ok { OnOk result (RestsAfter choices.now submitter (length choices.now) seat.new.view) }
    ensures fault { IfErr result (Fails seat.new.view) }
{
    let count = choices.len() as u32;
    for number in 0..count {
        let line = Line { submitter, number };
        submit_line(rt, shared, seat, line, choices[number as usize], stop, gate)?;
    }
    Ok(())
}

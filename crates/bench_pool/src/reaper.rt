//! The reaper's worker.

ghost use Rattle.std.specs.Prelude.{◌≡◌, IfErr, OnOk};
ghost use Rattle.bench_lock.specs.Views.{Follows};
ghost use Rattle.bench_pool.specs.Workers.{Sees, IsDrained, Ends, Fails};

use crate::gate::{Gate, Place};
use crate::worker::{End, WorkerFault, ended, try_step};
use bench_core::Bench;
use bench_lock::{Seat, Shared};
use crossbeam_utils::Backoff;
use desk_law::Stage;
use rig_types::Step;
use std::sync::Wait;
use std::sync::atomic::AtomicU64;
use world_law::{Reply, Seen, Stop};

/// Makes a step, and then the signal that is due for it.
fn step_and_signal<R: Wait>(
    rt: &R,
    shared: &Shared<Bench>,
    seat: &mut Seat<Bench>,
    step: Step,
    stop: &AtomicU64,
) -> Result<(), End>
    requires lock { seat.old.lock ≡ shared.now }
    requires sees { Sees seat.old.view }
    ensures lock { seat.new.lock ≡ seat.old.lock }
    ensures follows { Follows seat.old.view seat.new.view }
    ensures ok { OnOk result (Sees seat.new.view) }
    ensures end { IfErr result (Ends seat.new.view) }
{
    try_step(rt, shared, seat, step, stop)?;
    try_step(rt, shared, seat, Step::Signal, stop)?;
    Ok(())
}

/// Makes the report of a ticket that is Unlinked, and tells the gate.
fn free<R: Wait, G: Gate>(
    rt: &R,
    shared: &Shared<Bench>,
    seat: &mut Seat<Bench>,
    caller: u32,
    ticket: u32,
    stop: &AtomicU64,
    gate: &G,
) -> Result<(), End>
    requires lock { seat.old.lock ≡ shared.now }
    requires sees { Sees seat.old.view }
    ensures lock { seat.new.lock ≡ seat.old.lock }
    ensures follows { Follows seat.old.view seat.new.view }
    ensures ok { OnOk result (Sees seat.new.view) }
    ensures end { IfErr result (Ends seat.new.view) }
{
    try_step(rt, shared, seat, Step::Free(ticket), stop)?;
    gate.pass(caller, Place::Freed(ticket));
    Ok(())
}

/// Ends a ticket that a reset has lost: Sweep, Unlink and Free.
fn sweep<R: Wait, G: Gate>(
    rt: &R,
    shared: &Shared<Bench>,
    seat: &mut Seat<Bench>,
    caller: u32,
    ticket: u32,
    stop: &AtomicU64,
    gate: &G,
) -> Result<(), End>
    requires lock { seat.old.lock ≡ shared.now }
    requires sees { Sees seat.old.view }
    ensures lock { seat.new.lock ≡ seat.old.lock }
    ensures follows { Follows seat.old.view seat.new.view }
    ensures ok { OnOk result (Sees seat.new.view) }
    ensures end { IfErr result (Ends seat.new.view) }
{
    try_step(rt, shared, seat, Step::Sweep(ticket), stop)?;
    try_step(rt, shared, seat, Step::Unlink(ticket), stop)?;
    free(rt, shared, seat, caller, ticket, stop, gate)
}

/// Makes the step that a stop of the chip asks for. Whether there was one.
fn serve_stop<R: Wait, G: Gate>(
    rt: &R,
    shared: &Shared<Bench>,
    seat: &mut Seat<Bench>,
    caller: u32,
    seen: Seen,
    stop: &AtomicU64,
    gate: &G,
) -> Result<bool, End>
    requires lock { seat.old.lock ≡ shared.now }
    requires sees { Sees seat.old.view }
    ensures lock { seat.new.lock ≡ seat.old.lock }
    ensures follows { Follows seat.old.view seat.new.view }
    ensures ok { OnOk result (Sees seat.new.view) }
    ensures end { IfErr result (Ends seat.new.view) }
{
    let step = match (seen.stop, seen.sweep) {
        (Stop::Run, _) => return Ok(false),
        (Stop::Mismatch, _) => Step::Fix,
        (Stop::MustReset, _) => Step::ResetBus,
        (Stop::Clear, None) => Step::Restart,
        (Stop::Clear, Some(ticket)) => {
            sweep(rt, shared, seat, caller, ticket, stop, gate)?;
            return Ok(true);
        }
    };
    try_step(rt, shared, seat, step, stop)?;
    Ok(true)
}

/// Asks for the sense of a ticket that ended with CHECK CONDITION, once FRONT is idle and the chip runs.
fn sense<R: Wait, G: Gate>(
    rt: &R,
    shared: &Shared<Bench>,
    seat: &mut Seat<Bench>,
    caller: u32,
    ticket: u32,
    stop: &AtomicU64,
    gate: &G,
) -> Result<(), End>
    requires lock { seat.old.lock ≡ shared.now }
    requires sees { Sees seat.old.view }
    ensures lock { seat.new.lock ≡ seat.old.lock }
    ensures follows { Follows seat.old.view seat.new.view }
    ensures ok { OnOk result (Sees seat.new.view) }
    ensures end { IfErr result (Ends seat.new.view) }
{
    let backoff = Backoff::new();
    for _ in rt.forever() {
        let reply = try_step(rt, shared, seat, Step::Sense(ticket), stop)?;
        let Reply::NotNow(seen) = reply else {
            try_step(rt, shared, seat, Step::Signal, stop)?;
            return Ok(());
        };
        serve_stop(rt, shared, seat, caller, seen, stop, gate)?;
        backoff.snooze();
    }
    unreachable!()
}

/// Goes on with a ticket that was taken: it is freed, queued again, or its sense is asked for.
fn settle<R: Wait, G: Gate>(
    rt: &R,
    shared: &Shared<Bench>,
    seat: &mut Seat<Bench>,
    caller: u32,
    ticket: u32,
    stop: &AtomicU64,
    gate: &G,
) -> Result<(), End>
    requires lock { seat.old.lock ≡ shared.now }
    requires sees { Sees seat.old.view }
    ensures lock { seat.new.lock ≡ seat.old.lock }
    ensures follows { Follows seat.old.view seat.new.view }
    ensures ok { OnOk result (Sees seat.new.view) }
    ensures end { IfErr result (Ends seat.new.view) }
{
    let reply = try_step(rt, shared, seat, Step::Unlink(ticket), stop)?;
    let Reply::NotNow(seen) = reply else {
        return free(rt, shared, seat, caller, ticket, stop, gate);
    };
    match seen.stage {
        Some(Stage::Check) => sense(rt, shared, seat, caller, ticket, stop, gate),
        _ => step_and_signal(rt, shared, seat, Step::Queue(ticket), stop),
    }
}

/// One turn: a ticket is taken and settled, or a stop is served. Whether there was anything to do.
fn turn<R: Wait, G: Gate>(
    rt: &R,
    shared: &Shared<Bench>,
    seat: &mut Seat<Bench>,
    caller: u32,
    stop: &AtomicU64,
    gate: &G,
) -> Result<bool, End>
    requires lock { seat.old.lock ≡ shared.now }
    requires sees { Sees seat.old.view }
    ensures lock { seat.new.lock ≡ seat.old.lock }
    ensures follows { Follows seat.old.view seat.new.view }
    ensures ok { OnOk result (Sees seat.new.view) }
    ensures end { IfErr result (Ends seat.new.view) }
{
    match try_step(rt, shared, seat, Step::TakeDone, stop)? {
        Reply::Taken(ticket) => {
            settle(rt, shared, seat, caller, ticket, stop, gate)?;
            Ok(true)
        }
        Reply::NotNow(seen) => serve_stop(rt, shared, seat, caller, seen, stop, gate),
        _ => Ok(false),
    }
}

/// Takes tickets from the done ring and frees them, queues them again or asks for their sense, and serves the stops of
/// the chip, until all is drained. The seat's caller is `caller`, the reaper.
///
/// Ok where the list that the seat has seen is drained then.
///
/// # Errors
///
/// StepLimit where that list is full and not drained. OutOfMemory where `stop` isn't 0, or memory is wanting for a
/// reset, which sets `stop` to 1.
pub fn reaper_worker<R: Wait, G: Gate>(
    rt: &R,
    shared: &Shared<Bench>,
    seat: &mut Seat<Bench>,
    caller: u32,
    stop: &AtomicU64,
    gate: &G,
) -> Result<(), WorkerFault>
    requires lock { seat.old.lock ≡ shared.now }
    requires sees { Sees seat.old.view }
    ensures lock { seat.new.lock ≡ seat.old.lock }
    ensures follows { Follows seat.old.view seat.new.view }
    ensures ok { OnOk result (IsDrained seat.new.view) }
    ensures fault { IfErr result (Fails seat.new.view) }
{
    let backoff = Backoff::new();
    for _ in rt.forever() {
        match turn(rt, shared, seat, caller, stop, gate) {
            Ok(true) => backoff.reset(),
            Ok(false) => backoff.snooze(),
            Err(end) => return ended(end),
        }
    }
    unreachable!()
}

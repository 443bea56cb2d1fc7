//! The aborter's worker.

ghost use Rattle.std.specs.Prelude.{◌≡◌, IfErr, OnOk};
ghost use Rattle.bench_lock.specs.Views.{Follows};
ghost use Rattle.bench_pool.specs.Workers.{Sees, IsDrained, Ends, Fails};

use crate::worker::{End, WorkerFault, ended, try_step};
use bench_core::Bench;
use bench_lock::{Seat, Shared};
use crossbeam_utils::Backoff;
use rig_types::Step;
use std::sync::Wait;
use std::sync::atomic::AtomicU64;
use world_law::Reply;

/// Tries an act, and where it isn't enabled makes the signal that may be due. The act to try next.
fn try_act<R: Wait>(
    rt: &R,
    shared: &Shared<Bench>,
    seat: &mut Seat<Bench>,
    act: u32,
    stop: &AtomicU64,
) -> Result<u32, End>
    requires lock { seat.old.lock ≡ shared.now }
    requires sees { Sees seat.old.view }
    ensures lock { seat.new.lock ≡ seat.old.lock }
    ensures follows { Follows seat.old.view seat.new.view }
    ensures ok { OnOk result (Sees seat.new.view) }
    ensures end { IfErr result (Ends seat.new.view) }
{
    match try_step(rt, shared, seat, Step::Act(act), stop)? {
        Reply::NotNow(seen) => {
            if seen.due > 0 {
                try_step(rt, shared, seat, Step::Signal, stop)?;
            }
            Ok(seen.next_act)
        }
        _ => Ok(act),
    }
}

/// Makes the acts of the work, each as soon as it is enabled, with the signals that are due, until all is drained. The
/// seat's caller is the aborter.
///
/// Ok where the list that the seat has seen is drained then.
///
/// # Errors
///
/// StepLimit where that list is full and not drained. OutOfMemory where `stop` isn't 0, or memory is wanting for an
/// act, which sets `stop` to 1.
pub fn abort_worker<R: Wait>(
    rt: &R,
    shared: &Shared<Bench>,
    seat: &mut Seat<Bench>,
    stop: &AtomicU64,
) -> Result<(), WorkerFault>
    requires lock { seat.old.lock ≡ shared.now }
    requires sees { Sees seat.old.view }
    ensures lock { seat.new.lock ≡ seat.old.lock }
    ensures follows { Follows seat.old.view seat.new.view }
    ensures ok { OnOk result (IsDrained seat.new.view) }
    ensures fault { IfErr result (Fails seat.new.view) }
{
    let backoff = Backoff::new();
    let mut act = 0;
    for _ in rt.forever() {
        match try_act(rt, shared, seat, act, stop) {
            Ok(next) => act = next,
            Err(end) => return ended(end),
        }
        backoff.snooze();
    }
    unreachable!()
}

//! The chip's worker.

ghost use Rattle.std.specs.Prelude.{◌≡◌, ◌≤◌, ◌^◌, IfErr, OnOk};
ghost use Rattle.bench_lock.specs.Views.{Follows};
ghost use Rattle.bench_pool.specs.Workers.{Sees, IsDrained, Fails, AddsEager};

use crate::worker::{WorkerFault, ended, try_step};
use bench_core::Bench;
use bench_lock::{Seat, Shared};
use crossbeam_utils::Backoff;
use rig_types::Step;
use std::sync::Wait;
use std::sync::atomic::AtomicU64;
use world_law::Reply;

const BIT_31: u32 = 0x8000_0000;

/// The word with bit 31 set: a unit that may reselect does.
fn eager(word: u32) -> u32
    ensures { 2 ^ 31 ≤ result }
{
    if word < BIT_31 { word + BIT_31 } else { word }
}

/// Lets the chip run until all is drained, by words that follow from the seed, each with bit 31 set. The seat's caller
/// is the chip.
///
/// Ok where the list that the seat has seen is drained then.
///
/// # Errors
///
/// StepLimit where that list is full and not drained. OutOfMemory where `stop` isn't 0.
pub fn chip_worker<R: Wait>(
    rt: &R,
    shared: &Shared<Bench>,
    seat: &mut Seat<Bench>,
    seed: u32,
    stop: &AtomicU64,
) -> Result<(), WorkerFault>
    requires lock { seat.old.lock ≡ shared.now }
    requires sees { Sees seat.old.view }
    ensures lock { seat.new.lock ≡ seat.old.lock }
    ensures follows { Follows seat.old.view seat.new.view }
    ensures eager { AddsEager seat.old.view.own seat.new.view.own }
    ensures ok { OnOk result (IsDrained seat.new.view) }
    ensures fault { IfErr result (Fails seat.new.view) }
{
    let backoff = Backoff::new();
    let mut word = seed;
    for _ in rt.forever() {
        word = word.wrapping_mul(1_664_525).wrapping_add(1_013_904_223);
        match try_step(rt, shared, seat, Step::Chip(eager(word)), stop) {
            Ok(Reply::Made) => backoff.reset(),
            Ok(_) => backoff.snooze(),
            Err(end) => return ended(end),
        }
    }
    unreachable!()
}

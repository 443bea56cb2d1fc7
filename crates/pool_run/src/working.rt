//! The work of a caller, by its number.

ghost use Rattle.std.specs.Prelude.{◌≡◌, ◌⊎◌, OnOk, IfErr, IsOk, Some, Err};
ghost use Rattle.bench_lock.specs.Views.{Follows};
ghost use Rattle.world_law.specs.World.{BenchSetting};
ghost use Rattle.pool_run.specs.Callers.{IsFresh, Finishes, GivesUp};

use crate::choices::Choices;
use crate::submitting::submit_lines;
use bench_core::Bench;
use bench_lock::{Seat, Shared};
use bench_pool::{Gate, WorkerFault, abort_worker, chip_worker, reaper_worker};
use std::sync::Wait;
use std::sync::atomic::AtomicU64;

/// What all callers of a bench share beside it.
#[derive(Drop)]
pub(crate) struct Pool {
    /// What the submitters do where there is no room.
    pub(crate) choices: Choices,
    /// The word that the chip's words follow from.
    pub(crate) seed: u32,
    /// 0 until memory is wanting to a caller.
    pub(crate) stop: AtomicU64,
}

/// Does the work of a caller: submits a submitter's lines, or is the aborter, the reaper or the chip until all is
/// drained. The seat has made no step yet.
fn work<R: Wait, G: Gate>(
    rt: &R,
    shared: &Shared<Bench>,
    seat: &mut Seat<Bench>,
    caller: u16,
    pool: &Pool,
    gate: &G,
) -> Result<(), WorkerFault>
    requires lock { seat.old.lock ≡ shared.now }
    requires fresh { IsFresh pool.now.choices seat.old.view }
    requires caller { seat.old.view.caller ≡ caller }
    ensures lock { seat.new.lock ≡ seat.old.lock }
    ensures follows { Follows seat.old.view seat.new.view }
    ensures ok { OnOk result ((g : BenchSetting) → seat.old.view.opening ≡ Some g → Finishes g caller seat.new.view.seen) }
    ensures fault { IfErr result (λ e. (g : BenchSetting) → seat.old.view.opening ≡ Some g → GivesUp g seat.new.view.seen e) }
{
    let choices = pool.choices.as_slice();
    let place = usize::from(caller);
    if place < choices.len() {
        return submit_lines(
            rt,
            shared,
            seat,
            caller,
            choices[place].as_slice(),
            &pool.stop,
            gate,
        );
    }
    match place - choices.len() {
        0 => abort_worker(rt, shared, seat, &pool.stop),
        1 => reaper_worker(rt, shared, seat, u32::from(caller), &pool.stop, gate),
        _ => chip_worker(rt, shared, seat, pool.seed, &pool.stop),
    }
}

/// The work of a caller that owns its seat, and gives it back with its answer.
pub(crate) fn job<R: Wait, G: Gate>(
    rt: &R,
    shared: &Shared<Bench>,
    seat: Seat<Bench>,
    caller: u16,
    pool: &Pool,
    gate: &G,
) -> (Seat<Bench>, Result<(), WorkerFault>)
    requires lock { seat.lock ≡ shared.now }
    requires fresh { IsFresh pool.now.choices seat.view }
    requires caller { seat.view.caller ≡ caller }
    ensures lock { result.0.lock ≡ seat.lock }
    ensures follows { Follows seat.view result.0.view }
    ensures ok { OnOk result.1 ((g : BenchSetting) → seat.view.opening ≡ Some g → Finishes g caller result.0.view.seen) }
    ensures fault { IfErr result.1 (λ e. (g : BenchSetting) → seat.view.opening ≡ Some g → GivesUp g result.0.view.seen e) }
{
    let mut seat = seat;
    let answer = work(rt, shared, &mut seat, caller, pool, gate);
    (seat, answer)
}

/// The answer of two jobs together: want of memory before a full list, and this before Ok.
pub(crate) fn both(
    first: Result<(), WorkerFault>,
    second: Result<(), WorkerFault>,
) -> Result<(), WorkerFault>
    ensures ok { OnOk result (IsOk first × IsOk second) }
    ensures fault { IfErr result (λ e. (first ≡ Err e) ⊎ (second ≡ Err e)) }
{
    match (first, second) {
        (Ok(()), _) => second,
        (Err(WorkerFault::StepLimit), Err(fault)) => Err(fault),
        (Err(fault), _) => Err(fault),
    }
}

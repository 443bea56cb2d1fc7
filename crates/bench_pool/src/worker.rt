//! One step of a worker, and how a worker ends.

ghost use Rattle.std.specs.Prelude.{◌≡◌, IfErr, OnOk};
ghost use Rattle.rig_types.specs.declared.step.Step.{Step};
ghost use Rattle.bench_lock.specs.Views.{Follows};
ghost use Rattle.bench_lock.specs.declared.view.View.{View};
ghost use Rattle.world_law.specs.World.{BenchSetting};
ghost use Rattle.bench_pool.specs.Workers.{Sees, IsDrained, Ends, Fails, MayAdd};

use bench_core::Bench;
use bench_lock::{Seat, Shared};
use rig_types::Step;
use std::sync::Wait;
use std::sync::atomic::{AtomicU64, Ordering};
use world_law::Reply;

/// Why a worker ends before the list is drained.
#[derive(Clone, Copy, Debug, PartialEq, Eq)]
pub enum WorkerFault {
    /// The list has as many entries as the rig allows, and isn't drained.
    StepLimit,
    /// Memory was wanting, to this caller or to another.
    OutOfMemory,
}

/// Why a worker makes no more steps.
#[derive(Clone, Copy, Debug, PartialEq, Eq)]
pub(crate) enum End {
    Drained,
    StepLimit,
    OutOfMemory,
}

/// Makes a step, unless `stop` isn't 0. Err where the worker is at its end; want of memory sets `stop` to 1.
pub(crate) fn try_step<R: Wait>(
    rt: &R,
    shared: &Shared<Bench>,
    seat: &mut Seat<Bench>,
    step: Step,
    stop: &AtomicU64,
) -> Result<Reply, End>
    requires lock { seat.old.lock ≡ shared.now }
    requires sees { Sees seat.old.view }
    ensures lock { seat.new.lock ≡ seat.old.lock }
    ensures follows { Follows seat.old.view seat.new.view }
    ensures adds { MayAdd step seat.old.view seat.new.view }
    ensures ok { OnOk result (Sees seat.new.view) }
    ensures end { IfErr result (Ends seat.new.view) }
{
    if stop.load(Ordering::SeqCst) != 0 {
        return Err(End::OutOfMemory);
    }
    match shared.apply(rt, seat, step).reply {
        Reply::NotNow(seen) if seen.drained => Err(End::Drained),
        Reply::StepLimit => Err(End::StepLimit),
        Reply::OutOfMemory => {
            stop.store(1, Ordering::SeqCst);
            Err(End::OutOfMemory)
        }
        reply => Ok(reply),
    }
}

/// What the end of a worker is to its caller.
pub(crate) fn ended(end: End) -> Result<(), WorkerFault>
    ensures { (v : View BenchSetting Step) → Ends v end → OnOk result (IsDrained v) × IfErr result (Fails v) }
{
    match end {
        End::Drained => Ok(()),
        End::StepLimit => Err(WorkerFault::StepLimit),
        End::OutOfMemory => Err(WorkerFault::OutOfMemory),
    }
}

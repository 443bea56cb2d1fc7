//! All callers of a bench, beside each other.

ghost use Rattle.std.specs.Prelude.{◌≡◌, ℕ, ◌+◌, ◌≤◌, ◌<◌, ◌⊎◌, true, [], length, IsOk, OnOk, IfOk, IfErr, Some, Err};
ghost use Rattle.std.specs.Thread.{IsSync};
ghost use Rattle.bench_lock.specs.Log.{has};
ghost use Rattle.bench_lock.specs.Views.{Follows};
ghost use Rattle.world_law.specs.World.{BenchSetting};
ghost use Rattle.world_law.specs.Lines.{drained};
ghost use Rattle.bench_core.specs.Histories.{IsReplayed};
ghost use Rattle.bench_pool.specs.declared.worker.WorkerFault.TheVariants.{StepLimit};
ghost use Rattle.pool_run.specs.Callers.{IsFresh, Finishes, GivesUp};

use crate::choices::Choices;
use crate::working::{Pool, both, job};
use bench_core::Bench;
use bench_lock::{Seat, Shared};
use bench_pool::{Gate, WorkerFault};
use std::alloc::{AllocError, Global};
use std::sync::Wait;
use std::sync::atomic::AtomicU64;
use std::thread::{Threads, join};

/// The jobs of the caller 0, whose seat this is, and of the callers from `next` to `callers`, which are spare in it. Each
/// runs beside the remaining ones. No step was made yet.
fn run_from<R: Threads + Wait + Sync, G: Gate + Sync>(
    rt: &R,
    shared: &Shared<Bench>,
    seat: Seat<Bench>,
    next: u16,
    callers: u16,
    pool: &Pool,
    gate: &G,
) -> (Seat<Bench>, Result<(), WorkerFault>)
    requires lock { seat.lock ≡ shared.now }
    requires fresh { IsFresh pool.now.choices seat.view }
    requires first { seat.view.caller ≡ 0 }
    requires spare { (x : ℕ) → next ≤ x → x < callers → has x seat.view.spare ≡ true }
    ensures lock { result.0.lock ≡ seat.lock }
    ensures follows { Follows seat.view result.0.view }
    ensures ok { OnOk result.1 ((g : BenchSetting) → seat.view.opening ≡ Some g → (x : ℕ) → (x ≡ 0) ⊎ ((next ≤ x) × (x < callers)) → Finishes g x result.0.view.seen) }
    ensures fault { IfErr result.1 (λ e. (g : BenchSetting) → seat.view.opening ≡ Some g → GivesUp g result.0.view.seen e) }
{
    if next >= callers {
        return job(rt, shared, seat, 0, pool, gate);
    }
    let mut seat = seat;
    let other = shared.split(&mut seat, u32::from(next));
    let ((mut rest, first), (other, second)) = join(
        rt,
        move || -> (Seat<Bench>, Result<(), WorkerFault>)
            requires { IsSync R.row × IsSync G.row × (next < callers) × (seat.lock ≡ shared.now) × IsFresh pool.now.choices seat.view × (seat.view.caller ≡ 0)
                × ((x : ℕ) → next + 1 ≤ x → x < callers → has x seat.view.spare ≡ true) }
            ensures lock { result.0.lock ≡ seat.lock }
            ensures follows { Follows seat.view result.0.view }
            ensures ok { OnOk result.1 ((g : BenchSetting) → seat.view.opening ≡ Some g → (x : ℕ) → (x ≡ 0) ⊎ ((next + 1 ≤ x) × (x < callers)) → Finishes g x result.0.view.seen) }
            ensures fault { IfErr result.1 (λ e. (g : BenchSetting) → seat.view.opening ≡ Some g → GivesUp g result.0.view.seen e) }
        { run_from(rt, shared, seat, next + 1, callers, pool, gate) },
        move || -> (Seat<Bench>, Result<(), WorkerFault>)
            requires { IsSync G.row × (other.lock ≡ shared.now) × IsFresh pool.now.choices other.view × (other.view.caller ≡ next) }
            ensures lock { result.0.lock ≡ other.lock }
            ensures follows { Follows other.view result.0.view }
            ensures ok { OnOk result.1 ((g : BenchSetting) → other.view.opening ≡ Some g → Finishes g next result.0.view.seen) }
            ensures fault { IfErr result.1 (λ e. (g : BenchSetting) → other.view.opening ≡ Some g → GivesUp g result.0.view.seen e) }
        { job(rt, shared, other, next, pool, gate) },
    );
    shared.join(&mut rest, other);
    (rest, both(first, second))
}

/// What the callers' answer is to the pool: only want of memory is an error.
fn outcome(answer: Result<(), WorkerFault>) -> Result<(), AllocError>
    ensures { OnOk result (IsOk answer ⊎ (answer ≡ Err StepLimit)) }
{
    match answer {
        Err(WorkerFault::OutOfMemory) => Err(AllocError),
        _ => Ok(()),
    }
}

/// Runs all callers of a bench beside each other, each in a thread of its own where one can be made: a worker for each
/// submitter, the aborter, the reaper and the chip, whose words follow from `seed`. Between two tries they pause.
///
/// The bench that comes back has the rig and the work that it had, and is drained, or its list has as many entries as
/// the rig allows. Its list is lawful. Which list it is depends on how the threads take turns.
///
/// Condition: the bench's list is empty.
///
/// # Errors
///
/// AllocError where memory is wanting for the lock or to a caller. The bench is then dropped.
pub fn run_pool<R: Threads + Wait + Sync, G: Gate + Sync>(
    rt: &R,
    alloc: Global,
    bench: Bench,
    seed: u32,
    gate: &G,
) -> Result<Bench, AllocError>
    requires { bench.entries ≡ [] }
    ensures setting { IfOk result (λ b. b.setting ≡ bench.setting) }
    ensures lawful { IfOk result (λ b. IsReplayed b.setting b.entries b.world) }
    ensures end { IfOk result (λ b. (drained b.setting b.world ≡ true) ⊎ (length b.entries ≡ b.setting.step_limit)) }
{
    let callers = bench.submitter_count() as u16 + 3;
    let pool = Pool {
        choices: Choices::of(alloc, bench.work())?,
        seed,
        stop: AtomicU64::new(0),
    };
    let (shared, seat) = Shared::open(alloc, bench, u32::from(callers))?;
    let (seat, answer) = run_from(rt, &shared, seat, 1, callers, &pool, gate);
    let bench = shared.close(seat);
    bench.list_is_lawful();
    outcome(answer)?;
    Ok(bench)
}

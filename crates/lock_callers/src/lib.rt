//! Several callers over one machine, each in a thread of its own where one can be made. It shows that the lock serves
//! real threads; nothing stands on it.
#![tactic(auto)]

ghost use Rattle.std.specs.Prelude.{◌≡◌, ℕ, ◌+◌, ◌≤◌, ◌<◌, ◌⊎◌, true, IfOk, Some};
ghost use Rattle.std.specs.Thread.{IsSync};
ghost use Rattle.bench_lock.specs.Log.{has, Begins};
ghost use Rattle.bench_lock.specs.Views.{Follows};
ghost use Rattle.lock_callers.specs.Counted.{IsServed};
ghost use Rattle.lock_callers.specs.declared.counter.Bounds.{Bounds};

mod counter;
#[cfg(test)]
mod tests;

use bench_lock::{Seat, Shared};
pub use counter::{Bounds, Counter};
use std::alloc::{AllocError, Global};
use std::sync::Wait;
use std::thread::{Threads, join};

/// One caller's steps: 0, 1 and so on, `steps` in all.
fn make_steps<R: Wait>(
    rt: &R,
    shared: &Shared<Counter>,
    seat: Seat<Counter>,
    steps: u32,
) -> Seat<Counter>
    requires { seat.lock ≡ shared.now }
    ensures lock { result.lock ≡ seat.lock }
    ensures follows { Follows seat.view result.view }
    ensures served { (b : Bounds) → seat.view.opening ≡ Some b → (k : ℕ) → k < steps → IsServed b result.view.seen seat.view.caller k }
{
    let mut seat = seat;
    for k in 0..steps {
        shared.apply(rt, &mut seat, k);
    }
    seat
}

/// The steps of this seat's caller and of the callers from `next` to `callers`, which are spare in it.
fn from_next<R: Threads + Wait + Sync>(
    rt: &R,
    shared: &Shared<Counter>,
    seat: Seat<Counter>,
    next: u32,
    callers: u32,
    steps: u32,
) -> Seat<Counter>
    requires lock { seat.lock ≡ shared.now }
    requires spare { (x : ℕ) → next ≤ x → x < callers → has x seat.view.spare ≡ true }
    ensures lock { result.lock ≡ seat.lock }
    ensures follows { Follows seat.view result.view }
    ensures served { (b : Bounds) → seat.view.opening ≡ Some b → (x k : ℕ) → (x ≡ seat.view.caller) ⊎ ((next ≤ x) × (x < callers)) → k < steps → IsServed b result.view.seen x k }
{
    if next >= callers {
        return make_steps(rt, shared, seat, steps);
    }
    let mut seat = seat;
    let other = shared.split(&mut seat, next);
    let (mut rest, other) = join(
        rt,
        move || -> Seat<Counter>
            requires { IsSync R.row × (next < callers) × (seat.lock ≡ shared.now) × ((x : ℕ) → next + 1 ≤ x → x < callers → has x seat.view.spare ≡ true) }
            ensures { (result.lock ≡ seat.lock) × Follows seat.view result.view
                × ((b : Bounds) → seat.view.opening ≡ Some b → (x k : ℕ) → (x ≡ seat.view.caller) ⊎ ((next + 1 ≤ x) × (x < callers)) → k < steps → IsServed b result.view.seen x k) }
        { from_next(rt, shared, seat, next + 1, callers, steps) },
        move || -> Seat<Counter>
            requires { other.lock ≡ shared.now }
            ensures { (result.lock ≡ other.lock) × Follows other.view result.view
                × ((b : Bounds) → other.view.opening ≡ Some b → (k : ℕ) → k < steps → IsServed b result.view.seen other.view.caller k) }
        { make_steps(rt, shared, other, steps) },
    );
    shared.join(&mut rest, other);
    rest
}

/// Lets `callers` callers make `steps` steps each, 0 and so on, and gives the counter back. The callers are those below
/// `callers`. Each step is in the list then, or the counter leaves it out, or has no room for it.
///
/// # Errors
///
/// AllocError where there is no memory for the lock.
pub fn run<R: Threads + Wait + Sync>(
    rt: &R,
    alloc: Global,
    counter: Counter,
    callers: u32,
    steps: u32,
) -> Result<Counter, AllocError>
    requires { 1 ≤ callers }
    ensures bounds { IfOk result (λ c. c.bounds ≡ counter.bounds) }
    ensures list { IfOk result (λ c. Begins counter.list c.list) }
    ensures served { IfOk result (λ c. (x k : ℕ) → x < callers → k < steps → IsServed counter.bounds c.list x k) }
{
    let (shared, seat) = Shared::open(alloc, counter, callers)?;
    let seat = from_next(rt, &shared, seat, 1, callers, steps);
    Ok(shared.close(seat))
}

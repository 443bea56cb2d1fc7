//! A submitter's way with one line: Build, Link, Queue and Signal.

ghost use Rattle.std.specs.Prelude.{◌≡◌, IfOk, IfErr, IfSome, IfNone};
ghost use Rattle.bench_lock.specs.Views.{Follows};
ghost use Rattle.world_law.specs.World.{BenchSetting, World};
ghost use Rattle.seat_law.specs.Standing.{Standing, IsAt, IsNext, after_next};
ghost use Rattle.seat_law.specs.Outcomes.{Moves};
ghost use Rattle.world_law.specs.Builds.{is_tried_again};
ghost use Rattle.bench_pool.specs.Submits.{MayBegin, HasBuilt, HasSubmitted, Faults, IsTried, FindsFull};

use crate::gate::{Gate, Place};
use bench_core::Bench;
use bench_lock::{Seat, Shared};
use crossbeam_utils::Backoff;
use desk_law::Refused;
use rig_types::{Line, Step, WhenFull};
use std::sync::Wait;
use std::sync::atomic::{AtomicU64, Ordering};
use world_law::Reply;

/// Why a line has no ticket, or its ticket isn't wholly submitted.
#[derive(Clone, Copy, Debug, PartialEq, Eq)]
pub enum SubmitFault {
    /// Its Build was recorded, and refused the line.
    Refused(Refused),
    /// The list has as many entries as the rig allows, and isn't drained.
    StepLimit,
    /// Memory was wanting, to this caller or to another.
    OutOfMemory,
}

/// Where the unit or the buffer region is full, a command that waits is tried again.
fn waits_for_room(when_full: WhenFull, refused: Refused) -> bool
    ensures { result ≡ is_tried_again when_full refused }
{
    match (when_full, refused) {
        (WhenFull::Wait, Refused::LunFull { .. } | Refused::RegionFull { .. }) => true,
        _ => false,
    }
}

/// Tries once to build the line. None where it is to be tried again, and nothing has changed for the submitter then.
fn try_build<R: Wait>(
    rt: &R,
    shared: &Shared<Bench>,
    seat: &mut Seat<Bench>,
    line: Line,
    when_full: WhenFull,
    stop: &AtomicU64,
) -> Option<Result<u32, SubmitFault>>
    requires lock { seat.old.lock ≡ shared.now }
    requires begin { MayBegin seat.old.view line when_full }
    ensures lock { seat.new.lock ≡ seat.old.lock }
    ensures follows { Follows seat.old.view seat.new.view }
    ensures tried { IsTried seat.old.view.own seat.new.view line when_full result }
{
    match shared.apply(rt, seat, Step::Build(line)).reply {
        Reply::Built(ticket) => Some(Ok(ticket)),
        Reply::Refused(refused) => {
            if waits_for_room(when_full, refused) {
                None
            } else {
                Some(Err(SubmitFault::Refused(refused)))
            }
        }
        Reply::StepLimit => Some(Err(SubmitFault::StepLimit)),
        Reply::OutOfMemory => {
            stop.store(1, Ordering::SeqCst);
            Some(Err(SubmitFault::OutOfMemory))
        }
        _ => None,
    }
}

/// Builds the line, as often as it takes.
fn build<R: Wait>(
    rt: &R,
    shared: &Shared<Bench>,
    seat: &mut Seat<Bench>,
    line: Line,
    when_full: WhenFull,
    stop: &AtomicU64,
) -> Result<u32, SubmitFault>
    requires lock { seat.old.lock ≡ shared.now }
    requires begin { MayBegin seat.old.view line when_full }
    ensures lock { seat.new.lock ≡ seat.old.lock }
    ensures follows { Follows seat.old.view seat.new.view }
    ensures built { IfOk result (HasBuilt seat.old.view.own seat.new.view line) }
    ensures fault { IfErr result (Faults seat.old.view.own seat.new.view line when_full) }
{
    let backoff = Backoff::new();
    for _ in rt.forever() {
        if stop.load(Ordering::SeqCst) != 0 {
            return Err(SubmitFault::OutOfMemory);
        }
        if let Some(answer) = try_build(rt, shared, seat, line, when_full, stop) {
            return answer;
        }
        backoff.snooze();
    }
    unreachable!()
}

/// Makes the submitter's next step after Build. It is made at once, or the list is full.
fn make<R: Wait>(
    rt: &R,
    shared: &Shared<Bench>,
    seat: &mut Seat<Bench>,
    step: Step,
) -> Result<(), SubmitFault>
    requires lock { seat.old.lock ≡ shared.now }
    ensures lock { seat.new.lock ≡ seat.old.lock }
    ensures follows { Follows seat.old.view seat.new.view }
    ensures made { (g : BenchSetting) → (w : World) → (p : Standing) → IsAt seat.old.view g w p → IsNext p step
        → IfOk result (λ _. Moves seat.old.view g w step seat.new.view (after_next p)) × IfErr result (FindsFull seat.old.view.own seat.new.view g) }
{
    match shared.apply(rt, seat, step).reply {
        Reply::Made => Ok(()),
        _ => Err(SubmitFault::StepLimit),
    }
}

/// Submits the line: Build, Link, Queue and Signal, four steps, with the lock let go of between them. While Build
/// isn't enabled, or is refused for want of room and the command waits, it is tried again, until `stop` isn't 0.
///
/// Ok is the ticket: then the list has the seat's own four steps, and no others of its caller since the call.
///
/// # Errors
///
/// Refused exactly where the line's Build was recorded and refused. StepLimit where the list is full and not drained,
/// of which the seat may have made up to three steps. OutOfMemory before any step is made, where `stop` isn't 0 or
/// memory is wanting for the Build, which sets `stop` to 1.
pub fn submit<R: Wait, G: Gate>(
    rt: &R,
    shared: &Shared<Bench>,
    seat: &mut Seat<Bench>,
    line: Line,
    when_full: WhenFull,
    stop: &AtomicU64,
    gate: &G,
) -> Result<u32, SubmitFault>
    requires lock { seat.old.lock ≡ shared.now }
    requires begin { MayBegin seat.old.view line when_full }
    ensures lock { seat.new.lock ≡ seat.old.lock }
    ensures follows { Follows seat.old.view seat.new.view }
    ensures ok { IfOk result (HasSubmitted seat.old.view.own seat.new.view line) }
    ensures fault { IfErr result (Faults seat.old.view.own seat.new.view line when_full) }
{
    let caller = u32::from(line.submitter);
    gate.pass(caller, Place::BeforeBuild);
    let ticket = build(rt, shared, seat, line, when_full, stop)?;
    gate.pass(caller, Place::BeforeLink);
    make(rt, shared, seat, Step::Link(ticket))?;
    gate.pass(caller, Place::BeforeQueue);
    make(rt, shared, seat, Step::Queue(ticket))?;
    gate.pass(caller, Place::BeforeSignal);
    make(rt, shared, seat, Step::Signal)?;
    Ok(ticket)
}

//! The lock and its seats.
ghost use Rattle.std.specs.Prelude.{◌≡◌, ℕ, ◌≤◌, ◌<◌, true, [], IfOk, Some};
ghost use Rattle.atomic_table.specs.Seated.{TableId};
ghost use Rattle.bench_lock.specs.Log.{has, Begins};
ghost use Rattle.bench_lock.specs.Views.{Held, IsSized, IsOwn, Rests, HasAllCallers, first_view, left_view, right_view, joined_view};
ghost use Rattle.bench_lock.specs.Stepped.{Stepped};

use crate::applied::Applied;
use crate::machine::Machine;
use crate::rule::{About, MachineView, Turns};
use crate::steps::{TableSeat, apply_at, join_at, split_as};
use atomic_table::Table;
use std::alloc::{AllocError, Global};
use std::marker::{Brand, Model};
use std::snapshot::Snapshot;
use std::sync::Wait;

/// A machine under a lock. Contracts see which lock it is.
#[derive(Drop)]
pub struct Shared<M: Machine> {
    table: Table<M, MachineView<M>, About<M>, Turns<M>, Global>,
}

impl<M: Machine> Model for Shared<M> {
    ghost Value = { TableId };

    ghost view = { λ s. s.table.shared.table_id };

    ghost invariant = { λ s. IsSized s.table.shared.table_id };
}

/// What a caller makes steps with. Contracts see its lock and its view.
///
/// A seat that is dropped leaves its numbers unused, and the lock can't be closed any more.
#[derive(Drop)]
pub struct Seat<M: Machine> {
    caller: u32,
    seat: TableSeat<M>,
}

impl<M: Machine> Model for Seat<M> {
    ghost Value = { Held M.Opening M.Step };

    ghost view = { λ s. record { lock = s.seat.table_id; view = s.seat.me.0 } };

    ghost invariant = { λ s. (s.seat.me.0.caller ≡ s.caller) × Rests s.seat.me.0 × (s.seat.me.1 ≡ []) };
}

impl<M: Machine> Shared<M> {
    /// Puts the machine under a new lock. The seat has the caller 0 and the spare callers 1 to `callers - 1`.
    ///
    /// # Errors
    ///
    /// AllocError where there is no memory for the table. The machine is then dropped.
    pub fn open(alloc: Global, machine: M, callers: u32) -> Result<(Shared<M>, Seat<M>), AllocError>
        requires { 1 ≤ callers }
        ensures lock { IfOk result (λ r. r.1.lock ≡ r.0) }
        ensures view { IfOk result (λ r. r.1.view ≡ first_view (M.opening machine) (M.list machine) callers) }
    {
        let about = About {
            machine: Snapshot::of(&machine),
            callers,
        };
        let count = machine.length() as u64;
        let mut slots = Vec::with_capacity(alloc, 1)?;
        slots.push(machine)?;
        match Table::new(alloc, &[0, 0, count], slots, &about) {
            Ok((table, seat)) => Ok((Shared { table }, Seat { caller: 0, seat })),
            Err(_) => Err(AllocError),
        }
    }

    /// Makes one step for the seat's caller, in its turn. It may wait, and takes no memory beyond what the machine's
    /// step takes.
    pub fn apply<R: Wait>(&self, rt: &R, seat: &mut Seat<M>, step: M::Step) -> Applied<M::Reply>
        requires { seat.old.lock ≡ self.now }
        ensures lock { seat.new.lock ≡ seat.old.lock }
        ensures stepped { (o : _) × Stepped M.allows M.records o seat.old.view seat.new.view step result.reply result.front }
    {
        apply_at(rt, &self.table.shared, &mut seat.seat, seat.caller, step)
    }

    /// Makes a seat for `caller`, a spare caller of `from`. The new seat has seen what `from` has seen. It waits for
    /// nobody and takes no memory.
    pub fn split(&self, from: &mut Seat<M>, caller: u32) -> Seat<M>
        requires lock { from.old.lock ≡ self.now }
        requires spare { has caller from.old.view.spare ≡ true }
        ensures left { (from.new.lock ≡ from.old.lock) × (from.new.view ≡ left_view caller from.old.view) }
        ensures right { (result.lock ≡ from.old.lock) × (result.view ≡ right_view caller from.old.view) }
        ensures own { IsOwn result.view result.view.seen }
    {
        let seat = split_as::<M, Brand>(&self.table.shared, &mut from.seat, caller);
        Seat { caller, seat }
    }

    /// Joins `from` into `into`, which has then seen what both had seen. The caller of `from` is never used again.
    /// It waits for nobody and takes no memory.
    pub fn join(&self, into: &mut Seat<M>, from: Seat<M>)
        requires lock { (into.old.lock ≡ self.now) × (from.lock ≡ self.now) }
        ensures view { (into.new.lock ≡ into.old.lock) × (into.new.view ≡ joined_view into.old.view from.view) }
        ensures seen { Begins into.old.view.seen into.new.view.seen × Begins from.view.seen into.new.view.seen }
        ensures own { IsOwn into.new.view into.new.view.seen }
    {
        let Seat { caller: _, seat } = from;
        join_at(&self.table.shared, &mut into.seat, seat);
    }

    /// Gives the machine back by its last seat: that seat has all callers, so each other seat was joined. It takes no
    /// memory.
    pub fn close(self, last: Seat<M>) -> M
        requires lock { last.lock ≡ self }
        requires all { HasAllCallers last.view }
        ensures opening { last.view.opening ≡ Some (M.opening result) }
        ensures list { Begins last.view.seen (M.list result) }
        ensures own { IsOwn last.view (M.list result) }
    {
        let Shared { table } = self;
        let Seat { caller: _, seat } = last;
        let mut closed = table.close_with(seat);
        let machine = closed.take(0);
        closed.free();
        machine
    }
}

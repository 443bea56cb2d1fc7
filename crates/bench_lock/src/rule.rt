//! The rule of the table, and what each atomic step tells its seat. These types are for the proofs alone.
ghost use Rattle.std.specs.Prelude.{ℕ, length};

use crate::machine::Machine;
use crate::view::View;
use atomic_table::{Join, Play, Split, TableRule};
use std::marker::{Brand, PhantomData};
use std::snapshot::Snapshot;

/// What the table is told when it is made: the machine as it was, and the number of callers.
#[derive(Drop)]
pub(crate) struct About<M> {
    pub(crate) machine: Snapshot<M>,
    pub(crate) callers: u32,
}

pub(crate) type MachineView<M> = View<<M as Machine>::Opening, <M as Machine>::Step>;

pub(crate) struct Turns<M> {
    marker: PhantomData<M>,
}

impl<M: Machine> TableRule<M, MachineView<M>, About<M>> for Turns<M> {
    ghost use Rattle.bench_lock.specs.Rule.{Rule};
    ghost use Rattle.bench_lock.specs.Views.{first_view};

    ghost holds = { λ key. Rule M.opening M.list (M.opening key.machine.value) (length (M.list key.machine.value)) key.callers };

    ghost first = { λ key. first_view (M.opening key.machine.value) (M.list key.machine.value) key.callers };
}

/// A ticket is drawn.
pub(crate) struct Draw<M> {
    marker: PhantomData<M>,
}

impl<M: Machine> Play<M, MachineView<M>> for Draw<M> {
    ghost use Rattle.bench_lock.specs.Views.{Draws};

    ghost then = { Draws };
}

/// SERVING is read, and the machine is taken where the seat's ticket is served.
pub(crate) struct Look<M> {
    marker: PhantomData<M>,
}

impl<M: Machine> Play<M, MachineView<M>> for Look<M> {
    ghost use Rattle.bench_lock.specs.Views.{Looks};

    ghost then = { Looks M.opening M.list };
}

/// The step that the held machine has made is counted.
pub(crate) struct Count<M> {
    marker: PhantomData<M>,
}

impl<M: Machine> Play<M, MachineView<M>> for Count<M> {
    ghost use Rattle.bench_lock.specs.Views.{Counts};

    ghost then = { Counts M.opening M.list };
}

/// The machine is given back, and the next ticket is served.
pub(crate) struct PassOn<M> {
    marker: PhantomData<M>,
}

impl<M: Machine> Play<M, MachineView<M>> for PassOn<M> {
    ghost use Rattle.bench_lock.specs.Views.{Passes};

    ghost then = { Passes };
}

/// A new seat learns that it has no entry in what it has seen.
pub(crate) struct Know<M> {
    marker: PhantomData<M>,
}

impl<M: Machine> Play<M, MachineView<M>> for Know<M> {
    ghost use Rattle.bench_lock.specs.Views.{Knows};

    ghost then = { Knows };
}

/// The two lists of a joined seat are compared.
pub(crate) struct Compare<M> {
    marker: PhantomData<M>,
}

impl<M: Machine> Play<M, MachineView<M>> for Compare<M> {
    ghost use Rattle.bench_lock.specs.Views.{Compares};

    ghost then = { Compares };
}

/// Names a caller, since how a view is split can't depend on a number of the running program.
pub(crate) trait Named {
    ghost name: { ℕ };
}

impl Named for Brand {
    ghost name = { 0 };
}

/// The new seat gets the caller that C names.
pub(crate) struct HandOver<C> {
    marker: PhantomData<C>,
}

impl<O, T, C: Named> Split<View<O, T>> for HandOver<C> {
    ghost use Rattle.bench_lock.specs.Views.{left_view, right_view};

    ghost left = { left_view C.name };

    ghost right = { right_view C.name };
}

/// One seat takes in the other's numbers and the longer list.
pub(crate) struct Merge;

impl<O, T> Join<View<O, T>> for Merge {
    ghost use Rattle.bench_lock.specs.Views.{merged_view, spent_view};

    ghost both = { merged_view };

    ghost spent = { spent_view };
}

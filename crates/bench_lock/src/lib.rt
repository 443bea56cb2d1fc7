//! A lock of the project's own, over one table of `atomic_table`.
//!
//! A machine stands in the table's one slot. Each caller has a seat. To make a step a seat draws a ticket, waits
//! until that ticket is served, makes the step on the machine in its slot, counts it and passes the turn on. So
//! there is one list of steps, the machine's own: what a seat has seen is always a prefix of it, and each reply is
//! the machine's reply at its place in it.
//!
//! Not claimed: in which order seats step that were never joined or split, that a call returns, fairness, or time.
#![tactic(auto)]

mod applied;
mod laws;
mod machine;
mod rule;
mod seats;
mod steps;
#[cfg(test)]
mod tests;
mod view;

pub use applied::Applied;
pub use laws::steps_after_others;
pub use machine::Machine;
pub use seats::{Seat, Shared};
pub use view::View;

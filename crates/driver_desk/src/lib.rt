//! The driver's desk: tickets, ring positions, the buffer region and the signals that are due, as the definitions of
//! `desk_law` have them.
#![tactic(auto)]

mod blocks;
mod building;
mod desk;
mod fault;
mod giving;
mod least_tickets;
mod refusals;
mod reporting;
mod stage_sets;

pub use desk::Desk;
pub use fault::BuildFault;

//! The log of one logical unit: room is reserved ahead, an entry then takes no memory, and what a ticket's
//! entries come to is read without going over the log.
#![tactic(auto)]

mod log;
#[cfg(test)]
mod tests;
mod ticket_counts;

pub use log::UnitLog;

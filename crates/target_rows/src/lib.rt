//! Tests that cross crates: a target with one unit, run through whole commands.
#![tactic(auto)]

#[cfg(test)]
mod actions;
#[cfg(test)]
mod commands;
mod initiator;
#[cfg(test)]
mod openings;
#[cfg(test)]
mod resets;
#[cfg(test)]
mod rogue;

pub use initiator::Initiator;

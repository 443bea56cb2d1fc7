//! Reads the rig file: the units on the bus, and the limits of a run. The format is this project's own; docs/FORMATS.md has
//! it with examples.
#![tactic(auto)]

mod rig;
mod unit;

pub use rig::read_rig;

//! Reads the work file: what the submitters ask of the units, and which acts are made meanwhile. The format is this
//! project's own; docs/FORMATS.md has it with examples.
#![tactic(auto)]

mod acts;
mod commands;
mod fill;
mod spelled;
mod submitters;
mod work;

pub use work::read_work;

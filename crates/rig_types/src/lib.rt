//! The records that the crates of this repository share: a rig, its work, the steps and the reports.
//!
//! A rig names the units on the bus and the limits of a run. A work is what the submitters ask of
//! these units, and which acts are made meanwhile. The types `Rig` and `Work` keep the ranges of the
//! files that they are read from, so no function has to test them again.
#![tactic(auto)]

mod acts;
mod commands;
mod fault;
mod report;
mod request;
mod rig;
mod step;
mod work;

pub use acts::{Act, ActKind, Acts};
pub use commands::{Command, Commands, Submitters, WhenFull};
pub use fault::{BadKind, ReadFault};
pub use report::{Outcome, Report, Reports};
pub use request::Request;
pub use rig::{Pattern, Rig, Unit, Units};
pub use step::{Entry, Line, Step};
pub use work::Work;

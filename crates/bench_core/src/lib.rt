//! The bench: the rig and the work with the list of the steps that were made over them, and the world in which these
//! left it.
#![tactic(auto)]

mod bench;
mod machine;
mod readers;

pub use bench::Bench;
pub use machine::Setting;

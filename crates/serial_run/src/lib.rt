//! The serial run, and the rig and the work that it is measured by.
#![tactic(auto)]

mod bounds;
mod choices;
mod commands;
mod driving;
mod generator;
mod rig;
mod work;

pub use bounds::bound;
pub use driving::drive;
pub use rig::generated_rig;
pub use work::generated_work;

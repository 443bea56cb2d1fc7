//! One step of the chip, over any bus: fetch, decode, and what each instruction does, after the SYM53C810A.
//!
//! Nothing on the path of a step takes memory, copies host memory or goes over the instruction table.
#![tactic(auto)]

mod addresses;
mod block;
mod carrying;
mod connection;
mod memory;
mod outcome;
mod register_forms;
mod scsi_bus;
mod stepping;
mod transfers;

pub use outcome::StepEnd;
pub use scsi_bus::{Bus, Settled};
pub use stepping::step;

//! The bench: host memory, the chip, the bus and the driver's desk over a rig and its work, and the steps of its
//! callers.
#![tactic(auto)]

mod act_steps;
mod acting;
mod blocking;
mod building;
mod chip_steps;
mod desk_steps;
mod dispatching;
mod drained;
mod driver;
mod enabling;
mod extending;
mod freeing;
mod least;
mod making;
mod opening;
mod owners;
mod reading;
mod recording;
mod repairing;
mod resetting;
mod restarting;
mod seeing;
mod state;
mod sweeping;
mod tickets;
mod unit_reading;

pub use driver::Driver;
pub use state::{Lines, State};

//! The SCSI bus of a bench: the devices of all targets of a rig, with the lines of the bus.
//!
//! Each call does what the bus's definition says of it. Nothing but the opening and the room of logs takes memory, and no
//! call looks through tasks.
#![tactic(auto)]

mod bus;
mod candidates;
mod connecting;
mod live_bus;
mod opening;
mod resetting;
mod rooms;
#[cfg(test)]
mod tests;
mod tickets;
mod turns;

pub use bus::TargetBus;
pub use live_bus::{LiveBus, step};
pub use tickets::LiveTickets;

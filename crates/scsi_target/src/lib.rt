//! One SCSI-2 target with its logical units, their tasks and their logs: what it does on the bus.
//!
//! ATN, ACK and the live ticket of a tag are the caller's to know. Where the log of a unit has no room for the
//! entries of a call, the call changes nothing; `reserve` makes room. Nothing but `open` and `reserve` takes memory.
#![tactic(auto)]

mod beginning;
mod bus;
mod bytes;
mod connection_state;
mod device;
mod initiator_message;
mod laws;
mod messages;
mod resetting;
mod task_exit;

pub use device::Device;
pub use laws::one_move_a_word;

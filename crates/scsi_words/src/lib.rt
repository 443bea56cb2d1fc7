#![tactic(auto)]
//! The words of SCSI-2 (ANSI X3.131-1994) that every layer speaks, as types: phases of the bus, messages of one byte
//! and status bytes, each with its reader and its writer; directions of data; and lists of bytes and numbers and a
//! text, which contracts see as lists.
//!
//! No call here takes memory.

mod lists;
mod messages;
pub mod phase_codes;
mod phases;
mod statuses;

pub use lists::{Bytes, Counts, Text};
pub use messages::kinds::Message;
pub use messages::{message, message_byte};
pub use phases::kinds::{Direction, Phase};
pub use phases::phase;
pub use statuses::kinds::Status;
pub use statuses::status;

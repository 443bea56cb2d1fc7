//! One logical unit of a SCSI-2 direct-access device, by itself: its disk, its sense, its unit
//! attention, and what it does with one command. It knows no bus and no phase.
#![tactic(auto)]

mod losing;
mod lun;
mod performing;
mod sense;
#[cfg(test)]
mod tests;

pub use lun::{Lun, pattern_byte};
pub use performing::Answer;
pub use sense::SenseCode;

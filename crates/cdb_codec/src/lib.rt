//! Command descriptor blocks of SCSI-2 (ANSI X3.131-1994): the eight commands that a unit of this
//! project performs, read from their bytes and written again, and what data each needs.
#![tactic(auto)]

mod codes;
mod commands;
mod needs;
mod reading;
#[cfg(test)]
mod tests;
mod writing;

pub use commands::{Cdb, Need};
pub use needs::need;
pub use reading::{cdb_length, read_cdb};
pub use writing::write_cdb;

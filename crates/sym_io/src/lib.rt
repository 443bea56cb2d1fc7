#![tactic(auto)]
//! What the commands read and write: a sink takes bytes, a shelf holds files by name. Both are traits with a
//! written meaning (the bytes or files, where they are told, and a count of faults), so that a command's contract
//! can say what was written and why it failed.
//!
//! [`MemorySink`] and [`MemoryShelf`] tell their bytes and fail at the calls that they are given; [`QuietSink`] and
//! [`QuietShelf`] never fail; [`RealSink`] and [`RealShelf`] are the real ones, and tell nothing that the system
//! does not.

mod files;
mod memory;
mod quiet;
mod real;
mod shelf;
mod sink;

pub use files::{File, Files};
pub use memory::shelf::MemoryShelf;
pub use memory::sink::MemorySink;
pub use quiet::{QuietShelf, QuietSink};
pub use real::{RealShelf, RealSink};
pub use shelf::{Shelf, ShelfFault};
pub use sink::{Failed, Sink, write_all};

#[cfg(test)]
mod tests;

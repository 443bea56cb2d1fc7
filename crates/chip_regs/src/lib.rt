//! The registers of the chip, after the SYM53C810A: each by its name and by its place, the bits that stop
//! the chip, and the cause for which it is stopped.
//!
//! No call here takes memory.
#![tactic(auto)]

mod bits;
mod laws;
pub mod places;
mod registers;

pub use bits::{Ctest2, Dstat, Istat, Sist0, Sist1};
pub use laws::{registers_keep_bytes, wide_by_bytes};
pub use registers::{Cause, Regs};

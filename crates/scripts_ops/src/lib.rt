//! The instruction table of the chip: instructions as values, to words and back.
#![tactic(auto)]

mod decoding;
mod encoding;
mod fields;
mod guessing;
#[cfg(test)]
mod tests;
mod values;

pub use decoding::decode;
pub use encoding::{Spelling, encode};
pub use fields::{has_fields, is_phase, is_read, is_wide, is_written};
pub use guessing::offset_at;
pub use values::{Address, Change, Condition, Op};

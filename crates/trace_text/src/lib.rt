//! The text of a trace: one line for each step of a bench's list.
//!
//! [`write`] makes the text of a list of entries, and [`read`] gives the lines of a text, or the first line outside the
//! grammar. The format is this project's own; docs/FORMATS.md has it with an example.
#![tactic(auto)]

mod laws;
mod line;
mod numbers;
mod reading;
#[cfg(test)]
mod tests;
mod types;
mod writing;

pub use laws::one_reading;
pub use reading::read;
pub use types::{TraceFault, TraceLine, TraceLines};
pub use writing::write;

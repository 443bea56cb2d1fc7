//! The assembler: a text to its words and labels, or to its first fault.
#![tactic(auto)]

mod assembling;
mod faults;
mod judging;
mod laws;
mod lines;
mod making;
mod names;
mod whole;

pub use assembling::{AsmFault, Image, Label, Labels};
pub use laws::{one_reading, some_answer};
pub use whole::assemble;

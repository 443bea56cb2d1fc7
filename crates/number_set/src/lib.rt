//! A set of numbers that grows by one number at a time, and whose least number is found in six steps.
#![tactic(auto)]

mod set;
mod words;

pub use set::NumberSet;

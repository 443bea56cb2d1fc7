//! The listing of words: each instruction as the assembler reads it.
#![tactic(auto)]

mod laws;
mod listing;
#[cfg(test)]
mod tests;
mod texts;

pub use laws::{assembles_again, lists_all, one_listing};
pub use listing::list;

//! Traces that are made again: the steps of a trace's lines on a bench, and why a trace is refused.
#![tactic(auto)]

mod callers;
mod laws;
mod making;
mod replaying;

pub use laws::{one_replay, runs_replay};
pub use replaying::replay;

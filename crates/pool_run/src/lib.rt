//! The callers of a bench that run beside each other: submitters, the aborter, the reaper and the chip.
#![tactic(auto)]

mod choices;
mod pool;
mod submitting;
mod working;

pub use pool::run_pool;

//! The callers of a bench under the lock: submitters, the aborter, the reaper and the chip.
#![tactic(auto)]

mod aborter;
mod chip;
mod gate;
mod line_steps;
mod reaper;
mod worker;

pub use aborter::abort_worker;
pub use chip::chip_worker;
pub use gate::{Gate, NoGate, Place};
pub use line_steps::{SubmitFault, submit};
pub use reaper::reaper_worker;
pub use worker::WorkerFault;

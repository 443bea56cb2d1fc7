//! What the commands over a bench print and store: the trace and the report of a serial run, the lines of a run over
//! generated work, and the report of a replay.
#![tactic(auto)]

mod laws;
mod loading;
mod replaying;
mod running;
#[cfg(test)]
mod tests;

pub use laws::{one_result, step_replays};
pub use loading::load_text;
pub use replaying::replay_text;
pub use running::{RunTexts, step_run};

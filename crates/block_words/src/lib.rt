//! What the words of a live ticket's block say in every world of a run: definitions, with their laws. Nothing here runs.
#![tactic(auto)]

mod ended_laws;
mod laws;
mod reported_laws;

pub use ended_laws::{agreements_stay, buffers_stay, ended_blocks_stay, ended_tickets_stay};
pub use laws::{
    commands_are_told, lives_of_rules, marks_agree, marks_are_told, state_and_status_tell,
    words_stay,
};
pub use reported_laws::{
    joined_steps_report, reported_runs_fit, reports_stay, runs_report, sweeps_report, takes_report,
};

//! Runs of the bench beside lists of moves of tickets and targets: definitions, with their laws. Nothing here runs.
#![tactic(auto)]

mod laws;
mod report_laws;

pub use laws::{
    blocks_agree, chip_leaves_desk, chip_steps_join, desk_steps_move, done_steps_move,
    driver_steps_join, histories_tie, joined_runs_fit, opening_is_joined, plans_exist, runs_join,
    word_steps_join,
};
pub use report_laws::{buffers_fit_requests, reports_agree};

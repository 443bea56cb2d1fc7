//! The room of the logs of all units over every list of moves of tickets and targets: definitions, with their laws.
//! Nothing here runs.
#![tactic(auto)]

mod laws;

pub use laws::{logs_stay_within, reserves_suffice};

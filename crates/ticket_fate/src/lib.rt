//! What happens to a ticket from its Build to its Free, without host memory: definitions, with the law that the
//! report of each freed ticket fits the log of its unit. Nothing here runs.
#![tactic(auto)]

mod laws;

pub use laws::{
    entries_are_few, histories_end, none_lost_after_end, reports_fit, units_run_their_logs,
};

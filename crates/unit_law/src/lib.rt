//! What a logical unit's log means, and which report of a ticket fits it. These are definitions with
//! their laws; the one type that runs is the log's entry.
#![tactic(auto)]

mod entry;
mod laws;

pub use entry::LogEntry;
pub use laws::{answers_end_well, data_within_need, drops_store_blocks, longer_logs};

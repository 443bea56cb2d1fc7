//! The world of a run, what each step of a caller answers and makes of it, and runs: lists of recorded steps from the
//! opening on. These are definitions with their laws; the types that run are the replies and the owners of words.
#![tactic(auto)]

mod laws;
mod owner;
mod reply;

pub use laws::{
    enabled_or_not, longer_works, one_answer, one_moment_longer, one_run, opens_memory,
    others_leave, reports_accepted, rests_drained, tickets_keep,
};
pub use owner::Owner;
pub use reply::{Decided, Reply, Seen, Stop};

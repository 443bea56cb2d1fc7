//! How targets with their lists of tasks by tag and tickets fit one another: definitions, with their laws over every
//! list of moves. Nothing here runs.
#![tactic(auto)]

mod laws;

pub use laws::{
    idle_calls_relink, one_target_moves, pointers_follow, sessions_say_more, tags_name_one,
    tasks_are_their_tickets, work_calls_move,
};

//! What the seat of a caller knows of the list of a bench under a lock: the world that the list leads to, and that the
//! steps of others leave to a submitter what it has still to do. These are definitions with their laws.
#![tactic(auto)]

mod laws;

pub use laws::{
    answered_at_once, list_has_one_world, others_leave_standing, submitter_is_answered,
    told_of_the_end,
};

//! The room that Builds and resets reserve in a unit's log suffices for all that its tickets add: definitions with
//! their laws. Nothing here runs.
#![tactic(auto)]

mod laws;

pub use laws::{room_is_reserved, tickets_have_room};

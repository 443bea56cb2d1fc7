//! What each call of the bus makes of its targets, without chip or memory: definitions, with their laws. Nothing here
//! runs.
#![tactic(auto)]

mod laws;

pub use laws::{
    attention_makes, bus_resets_move, bytes_make, calls_have_room, calls_move, phases_make,
    selections_make, selections_tell,
};

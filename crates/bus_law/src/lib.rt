//! The bus of all targets of a rig: what each call of the chip answers, and what it makes of the bus. These are
//! definitions with their laws; nothing of this crate runs.
#![tactic(auto)]

mod laws;

pub use laws::{answers_are_one, bus_is_lawful, connects_one, one_connected};

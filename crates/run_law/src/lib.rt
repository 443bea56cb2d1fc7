//! What a run says of its tickets, and how long it may be: the history of a ticket that its report is judged by, the
//! data moves after an abort, that data stay in their buffers, the rounds of the serial run, and the bound. These are
//! definitions with their laws; nothing of this crate runs.
#![tactic(auto)]

mod laws;

pub use laws::{longer_histories, one_serial_run, worked_rows};

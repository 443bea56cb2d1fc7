//! Laws of a step of the chip, over any bus: its bytes, its words, its one end, what it reads and writes, and what it
//! is over another bus. Nothing here runs.
#![tactic(auto)]

mod laws;

pub use laws::{
    Relation, bytes_stay_bytes, moves_count_down, moves_words, one_step, reads_within, same_step,
    step_runs_on, stops_leave_memory, writes_within,
};

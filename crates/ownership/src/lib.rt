//! Who owns each word of host memory while the chip runs the driver script, for any target. Nothing here runs.
#![tactic(auto)]

mod laws;

pub use laws::{
    only_data_moves_touch_data, script_moves_words, script_steps, script_transfers,
    script_writes_only, start_enters_blocks,
};

//! Who owns each word of host memory: what holds of a bench at every moment, for any target. Nothing here runs.
#![tactic(auto)]

mod chip_laws;
mod laws;
mod run_laws;
mod space_laws;

pub use chip_laws::{
    answering_opens, answering_stays, chip_steps_hold, data_moves_hold, data_stay_in_buffers,
    pointers_stay_in_buffers, runs_keep_buffers, stops_are_handled,
};
pub use laws::{
    aborts_hold, bench_steps_hold, device_resets_hold, fixes_hold, frees_hold, links_hold,
    opening_holds, queues_hold, resets_hold, restarts_hold, rings_are_read, senses_hold,
    sweeps_hold, takes_hold, tickets_are_added, words_are_owned,
};
pub use run_laws::{
    data_are_moved, depths_are_kept, script_writes_only, tests_never_fail, vectors_are_told, wake,
};
pub use space_laws::{
    block_is_built, builds_add, builds_hold, callers_are_kept, desks_are_kept, places_are_free,
    space_is_owned, tickets_are_built,
};

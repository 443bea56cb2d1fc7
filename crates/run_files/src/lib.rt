//! Loads the files of a run from a shelf, and reads them: a rig, a work, a trace.
#![tactic(auto)]

mod laws;
mod loading;
mod reading;

pub use laws::one_reading;
pub use loading::{FILE_LIMIT, TRACE_LIMIT, load};
pub use reading::{load_rig, load_trace, load_work};

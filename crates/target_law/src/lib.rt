//! What a SCSI-2 target with simple queue tags may do on the bus: its moves, what it shows, and, as definitions
//! in `specs/`, the state of a target, its lawful moves, and what each call of the bus makes of it, with laws. The
//! types that run are the moves and what is shown.
#![tactic(auto)]

mod laws;
mod moves;
mod nexus;
mod rogue_phase;
mod task_phase;

pub use laws::{begins_at_once, lies_by_rooms, resets_have_room, rigs_stay, tags_stay_distinct};
pub use moves::Move;
pub use nexus::Nexus;
pub use rogue_phase::RoguePhase;
pub use task_phase::{Completion, ReselectByte, TargetMessage, TaskPhase};

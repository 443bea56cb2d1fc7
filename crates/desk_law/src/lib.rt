//! What the driver's desk keeps, and what each of its calls makes of it and of host memory. These are definitions with
//! their laws; the types that run are the tickets with their stages, and why a request is refused.
#![tactic(auto)]

mod laws;
mod refused;
mod stage;
mod ticket;

pub use laws::{calls_are_one, refusals_are_one};
pub use refused::{Kind, Refused};
pub use stage::{Stage, Taken};
pub use ticket::{Piece, Pieces, Ticket};

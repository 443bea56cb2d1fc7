//! How the program ends, why a command is refused, and the line on standard error that says so.
#![tactic(auto)]

mod exit;
mod fault;
mod printing;
mod refusal;

pub use exit::Exit;
pub use fault::Fault;
pub use printing::say;
pub use refusal::Refusal;

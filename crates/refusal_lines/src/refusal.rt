//! Why a command is refused.
ghost use Rattle.std.specs.Prelude.{◌≡◌};
ghost use Rattle.refusal_lines.specs.Refusals.{exit_of, exit_of_fault};

use crate::exit::Exit;
use crate::fault::Fault;
use std::alloc::AllocError;

/// Why a command is refused.
#[derive(Debug, Drop)]
pub enum Refusal {
    /// The words are no command.
    Usage,
    /// A file could not be loaded.
    Read,
    /// A file could not be stored, or the output not be written.
    Write,
    /// Want of memory.
    OutOfMemory,
    /// A file is wrong, by its first fault.
    Bad(Fault),
    /// The list of steps is at its limit, and work is left.
    StepLimit,
    /// A file is longer than its limit.
    TooLong,
}

impl From<AllocError> for Refusal {
    ghost use Rattle.refusal_lines.specs.declared.refusal.Refusal.TheVariants.{OutOfMemory};

    ghost from_gives = { λ _ e. e ≡ OutOfMemory };

    fn from(_: AllocError) -> Self {
        Refusal::OutOfMemory
    }
}

/// How the program ends where a file has this fault.
fn exit_of_fault(fault: &Fault) -> Exit
    ensures { result ≡ exit_of_fault fault.now }
{
    match fault {
        Fault::Rig { .. } => Exit::BadRig,
        Fault::Work { .. } => Exit::BadWork,
        Fault::Source { .. } => Exit::BadSource,
        Fault::TraceLine(_) | Fault::UnknownStep(_) | Fault::TraceStep(_) | Fault::NotDrained =>
            Exit::BadTrace,
    }
}

impl Refusal {
    /// How the program ends.
    pub fn exit(&self) -> Exit
        ensures { result ≡ exit_of self.now }
    {
        match self {
            Refusal::Usage => Exit::Usage,
            Refusal::Read => Exit::ReadFault,
            Refusal::Write => Exit::WriteFault,
            Refusal::OutOfMemory => Exit::OutOfMemory,
            Refusal::Bad(fault) => exit_of_fault(fault),
            Refusal::StepLimit => Exit::StepLimit,
            Refusal::TooLong => Exit::TooLong,
        }
    }
}

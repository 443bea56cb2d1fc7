//! What a trace says.

ghost use Rattle.std.specs.Prelude.{◌≡◌};
ghost use Rattle.trace_text.specs.declared.types.TraceFault.TheVariants.{OutOfMemory};

use rig_types::Step;
use std::alloc::{AllocError, AllocFailed};
use std::marker::Model;

/// A line of a trace: its step, and its caller where the line gives one, as the lines of Build and Signal alone do.
#[derive(Clone, Copy, Debug, PartialEq, Eq)]
pub struct TraceLine {
    pub step: Step,
    pub caller: Option<u32>,
}

/// The lines of a trace after its first, in order. A contract sees it as the list of lines.
#[derive(Debug, Drop)]
pub struct TraceLines {
    held: Vec<TraceLine>,
}

impl Model for TraceLines {
    ghost use Rattle.std.specs.Prelude.{List};
    ghost use Rattle.trace_text.specs.declared.types.TraceLine.{TraceLine};

    ghost Value = { List TraceLine };

    ghost view = { λ b. b.held.items };
}

impl TraceLines {
    /// The lines of a vector.
    pub fn of(held: Vec<TraceLine>) -> Self
        ensures { result ≡ held.items }
    {
        TraceLines { held }
    }

    /// The lines, lent.
    pub fn as_slice(&self) -> &[TraceLine]
        ensures { result.now ≡ self.now }
    {
        self.held.as_slice()
    }
}

/// Why a text is refused.
#[derive(Debug, Drop, PartialEq, Eq)]
pub enum TraceFault {
    /// The first line outside the grammar, from 1.
    Line(u32),
    OutOfMemory,
}

impl From<AllocError> for TraceFault {
    ghost from_gives = { λ _ e. e ≡ OutOfMemory };

    fn from(_e: AllocError) -> TraceFault {
        TraceFault::OutOfMemory
    }
}

impl<T: Drop> From<AllocFailed<T>> for TraceFault {
    ghost from_gives = { λ _ e. e ≡ OutOfMemory };

    fn from(_e: AllocFailed<T>) -> TraceFault {
        TraceFault::OutOfMemory
    }
}

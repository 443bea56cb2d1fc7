//! What the bench answers to a step.

use chip_regs::Cause;
use desk_law::{Refused, Stage};

/// What the chip's stop asks of the reaper.
#[derive(Clone, Copy, Debug, PartialEq, Eq)]
pub enum Stop {
    /// Nothing: the chip runs.
    Run,
    /// The data pointer is to be repaired after a phase mismatch.
    Mismatch,
    /// Tickets are to be swept, and the chip restarted.
    Clear,
    /// The bus is to be reset.
    MustReset,
}

/// What became of a line.
#[derive(Clone, Copy, Debug, PartialEq, Eq)]
pub enum Decided {
    /// Nothing yet.
    Open,
    /// It has this ticket.
    Accepted(u32),
    /// It was refused, and has no ticket.
    Refused(Refused),
}

/// What a caller sees whose step isn't enabled.
#[derive(Clone, Copy, Debug, PartialEq, Eq)]
pub struct Seen {
    /// The stage of the step's ticket, where the step names one that was built.
    pub stage: Option<Stage>,
    /// The caller's next line, 0 where it is no submitter.
    pub next_line: u32,
    /// The next act.
    pub next_act: u32,
    /// The signals that are due of the caller.
    pub due: u32,
    /// The lines that are refused or have a freed ticket.
    pub settled: u32,
    /// The least ticket that blocks the caller's next Build.
    pub blocking: Option<u32>,
    /// The stop stage.
    pub stop: Stop,
    /// The least ticket that is to be swept.
    pub sweep: Option<u32>,
    /// Whether TakeDone has a ticket to take.
    pub done: bool,
    /// Whether the bench is drained.
    pub drained: bool,
}

/// The answer to a step.
#[derive(Clone, Copy, Debug, PartialEq, Eq)]
pub enum Reply {
    /// Build made this ticket.
    Built(u32),
    /// Build refused the line.
    Refused(Refused),
    /// The step was made.
    Made,
    /// TakeDone took this ticket.
    Taken(u32),
    /// An abort marked its ticket.
    Marked,
    /// An abort came too late.
    TooLate,
    /// An abort's line was refused.
    NeverAccepted,
    /// A reset was started.
    Started,
    /// FRONT isn't idle; the block that it holds.
    BusyFront(u32),
    /// The bus can't be reset while a stop with this cause waits.
    BusyStop(Cause),
    /// The chip had nothing to do.
    Idle,
    /// The step isn't enabled.
    NotNow(Seen),
    /// The list has as many entries as the rig allows, and the bench isn't drained.
    StepLimit,
    /// Want of memory.
    OutOfMemory,
}

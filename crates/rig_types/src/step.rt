//! Steps and entries.

/// A line of the work: a command of a submitter.
#[derive(Clone, Copy, Debug, PartialEq, Eq)]
pub struct Line {
    /// The submitter, from 0.
    pub submitter: u16,
    /// The command among those of the submitter, from 0.
    pub number: u32,
}

/// A step of the bench. A number after Link, Queue, Sweep, Unlink, Free and Sense is a ticket.
#[derive(Clone, Copy, Debug, PartialEq, Eq)]
pub enum Step {
    /// Makes a ticket of a line.
    Build(Line),
    /// Writes the ticket's block into the tag table.
    Link(u32),
    /// Writes the ticket's block into the start ring.
    Queue(u32),
    /// Sets SIGP.
    Signal,
    /// Lets the chip run one instruction, with the word by which a unit chooses.
    Chip(u32),
    /// Mends the data pointer after a phase mismatch.
    Fix,
    /// Ends a ticket that a reset has dropped.
    Sweep(u32),
    /// Lets the chip go on after a stop.
    Restart,
    /// Takes a block out of the done ring.
    TakeDone,
    /// Removes the ticket's block from the tag table.
    Unlink(u32),
    /// Makes the ticket's report and ends it.
    Free(u32),
    /// Makes an act of the work, by its number from 0.
    Act(u32),
    /// Resets the bus after a fault.
    ResetBus,
    /// Turns the ticket's block into a REQUEST SENSE.
    Sense(u32),
}

/// A step with its caller. With S submitters the callers 0 to S - 1 are these, S is the aborter,
/// S + 1 the reaper and S + 2 the chip.
#[derive(Clone, Copy, Debug, PartialEq, Eq)]
pub struct Entry {
    /// Who made the step.
    pub caller: u32,
    /// The step.
    pub step: Step,
}

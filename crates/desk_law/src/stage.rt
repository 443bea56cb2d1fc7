//! The stages of a ticket.

use rig_types::Outcome;

/// How far a ticket has come.
#[derive(Clone, Copy, Debug, PartialEq, Eq)]
pub enum Stage {
    /// It has a block, a tag and chunks.
    Built,
    /// Its tag entry holds its block.
    Linked,
    /// Its block was put into the start ring.
    Queued,
    /// It was refused, and is to be queued again.
    Again,
    /// It ended with CHECK CONDITION, and the sense is to be asked for.
    Check,
    /// Its block is the REQUEST SENSE at FRONT.
    Sensing,
    /// It has an outcome.
    Ended(Outcome),
    /// Its tag entry is free again.
    Unlinked,
    /// It was reported.
    Freed,
}

/// What became of a ticket that was taken from the done ring.
#[derive(Clone, Copy, Debug, PartialEq, Eq)]
pub enum Taken {
    /// It is to be queued again.
    Again(u32),
    /// Its sense is to be asked for.
    Check(u32),
    /// It has an outcome.
    Ended(u32),
}

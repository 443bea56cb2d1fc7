//! Places at which a test can hold a caller up.

/// Where a caller stands when it passes a gate. It doesn't have the bench's turn there.
#[derive(Clone, Copy, Debug, PartialEq, Eq)]
pub enum Place {
    /// A submitter is about to build its next line.
    BeforeBuild,
    /// It has built a ticket.
    BeforeLink,
    /// It has linked the ticket.
    BeforeQueue,
    /// It has queued the ticket.
    BeforeSignal,
    /// The reaper has freed this ticket.
    Freed(u32),
}

/// What callers pass between their steps. No contract rests on it.
pub trait Gate {
    /// Returns, and waits for nobody.
    fn pass(&self, caller: u32, place: Place);
}

/// The gate that lets everybody through at once.
pub struct NoGate;

impl Gate for NoGate {
    fn pass(&self, _caller: u32, _place: Place) {}
}

//! What a seat knows. It stands in proofs alone: no value of it is made.
use std::collections::LinkedList;

/// The view of a seat. That of a joined seat isn't live: it has no caller, no other numbers and no ticket.
pub struct View<O, T> {
    pub live: bool,
    /// The number of the seat's caller.
    pub caller: u32,
    /// The numbers that it can hand to new seats.
    pub spare: LinkedList<u32>,
    /// The callers of the seats that were joined into it.
    pub retired: LinkedList<u32>,
    pub has_ticket: bool,
    /// The ticket where it has one, else 0.
    pub ticket: u64,
    /// It holds the machine.
    pub turn: bool,
    /// The machine's list as far as the seat has seen it. An entry is a caller's number and the step.
    pub seen: LinkedList<(u32, T)>,
    /// The shorter of the lists that two joined seats had seen, until the two are compared.
    pub told: LinkedList<(u32, T)>,
    /// The entries that the seat made, in order.
    pub own: LinkedList<(u32, T)>,
    /// The machine's opening.
    pub opening: Option<O>,
    /// The length of the machine's list when the lock was opened.
    pub base: u64,
    /// The number of callers, whose numbers are those below it.
    pub callers: u32,
}

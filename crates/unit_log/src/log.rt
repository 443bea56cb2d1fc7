//! A unit's log.

ghost use Rattle.std.specs.Prelude.{◌≡◌, ◌+◌, ◌-◌, ◌<◌, ◌≤◌, ◌↔◌, [], ◌∷◌, ◌++◌, length, max, slice_get, IsTrue, OnOk, OnErr};
ghost use Rattle.unit_law.specs.Log.{tally};

use crate::ticket_counts::{TicketCounts, enter, read};
use std::alloc::{AllocError, Global};
use std::marker::Model;
use unit_law::LogEntry;

/// The log of one unit: its entries in their order, and how many it has room for in all.
#[derive(Drop)]
pub struct UnitLog {
    entries: Vec<LogEntry>,
    counts: Vec<TicketCounts>,
    room: usize,
}

impl Model for UnitLog {
    ghost use Rattle.std.specs.Prelude.{vec_capacity};
    ghost use Rattle.unit_log.specs.LogState.{LogState};
    ghost use Rattle.unit_log.specs.Counts.{IsKept};

    ghost Value = { LogState };

    ghost view = { λ u. record { entries = u.entries.items; room = u.room } };

    ghost invariant = { λ u. IsKept u.entries.items u.counts.items u.room (vec_capacity u.entries) (vec_capacity u.counts) };
}

impl UnitLog {
    /// An empty log with room for no entry. It takes no memory.
    pub fn new(alloc: Global) -> UnitLog
        ensures { result ≡ record { entries = []; room = 0 } }
    {
        UnitLog {
            entries: Vec::new(alloc),
            counts: Vec::new(alloc),
            room: 0,
        }
    }

    /// Makes the spare room at least `n` entries. An `Err` leaves the log as it was; it is want of memory,
    /// and never comes where the spare room was as much before.
    pub fn reserve(&mut self, n: u32) -> Result<(), AllocError>
        ensures entries { self.new.entries ≡ self.old.entries }
        ensures ok { OnOk result (length self.new.entries + n ≤ self.new.room) }
        ensures room { self.old.room ≤ self.new.room }

        // No more room is made than was asked for.
        ensures exact { OnOk result (self.new.room ≡ max self.old.room (length self.old.entries + n)) }
        ensures within { length self.new.entries ≤ self.new.room }
        ensures err { OnErr result (self.new ≡ self.old) }
        ensures full { OnErr result (self.old.room < length self.old.entries + n) }
    {
        let n = n as usize;
        self.entries.reserve(n)?;
        let room = self.entries.len() + n;
        self.counts.reserve(room - self.counts.len())?;
        self.room = self.room.max(room);
        Ok(())
    }

    /// Lowers the room to this many entries in all. The memory stays with the log.
    ///
    /// Condition: the entries fit in it, and it is no more than the room was.
    pub fn lower_room(&mut self, room: usize)
        requires fits { length self.old.entries ≤ room }
        requires lower { room ≤ self.old.room }
        ensures { self.new ≡ record { entries = self.old.entries; room = room } }
    {
        self.room = room;
    }

    /// How many entries there is room for in all.
    pub fn room(&self) -> usize
        ensures room { result ≡ self.now.room }
        ensures fits { length self.now.entries ≤ result }
    {
        self.room
    }

    /// How many more entries there is room for.
    pub fn spare(&self) -> usize
        ensures { result ≡ self.now.room - length self.now.entries }
    {
        self.room - self.entries.len()
    }

    /// Adds an entry at the end. It takes no memory.
    ///
    /// Condition: there is room for it.
    pub fn push(&mut self, e: LogEntry)
        requires { length self.old.entries < self.old.room }
        ensures { self.new ≡ record { entries = self.old.entries ++ e ∷ []; room = self.old.room } }
    {
        enter(&mut self.counts, e);
        self.entries.push_reserved(e);
    }

    /// The n-th entry, counted from 0. None past the end.
    pub fn entry(&self, n: u32) -> Option<LogEntry>
        ensures { result ≡ slice_get self.now.entries n }
    {
        self.entries.get(n as usize).copied()
    }

    /// How many Refuse entries the ticket has.
    pub fn refusals(&self, ticket: u32) -> usize
        ensures { result ≡ (tally ticket self.now.entries).refusals }
    {
        read(&self.counts, ticket).refusals
    }

    /// Whether the ticket has an End entry.
    pub fn has_ended(&self, ticket: u32) -> bool
        ensures { IsTrue result ↔ (0 < (tally ticket self.now.entries).ends) }
    {
        read(&self.counts, ticket).ended
    }
}

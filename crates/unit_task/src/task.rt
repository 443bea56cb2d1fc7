//! A task: what it holds, and its beginning.

ghost use Rattle.std.specs.Prelude.{◌≡◌, ◌≤◌, ◌↔◌, true, false, length, IfOk, IsTrue, IsSome};
ghost use Rattle.cdb_codec.specs.declared.commands.Cdb.TheVariants.{RequestSense, TestUnitReady};
ghost use Rattle.cdb_codec.specs.Forms.{FitsForm, need_of};
ghost use Rattle.plain_lun.specs.Unit.{UnitState};
ghost use Rattle.target_law.specs.Session.{asks_sense, began};
ghost use Rattle.target_law.specs.Sound.{IsWaiting};

use cdb_codec::Cdb;
use plain_lun::Answer;
use scsi_words::Direction;
use std::alloc::{AllocError, Global};
use std::marker::Model;

/// The most bytes that a command moves.
pub(crate) const BUFFER_BYTES: usize = 65536;
/// The length of a REQUEST SENSE by which a sense task asks.
pub(crate) const SENSE_BYTES: u8 = 18;

/// A task of a logical unit, with a buffer of 65,536 bytes.
#[derive(Drop)]
pub struct Task {
    tag: u8,
    ticket: u32,
    pub(crate) cdb: Cdb,
    pub(crate) position: u32,
    pub(crate) saved: u32,
    pub(crate) high: u32,
    pub(crate) budget: u8,
    pub(crate) kept: Option<Answer>,
    pub(crate) got: u32,
    pub(crate) fresh: bool,
    pub(crate) just_moved: bool,
    pub(crate) senses: bool,
    pub(crate) buffer: Vec<u8>,
}

impl Model for Task {
    ghost use Rattle.std.specs.Prelude.{take};
    ghost use Rattle.target_law.specs.Session.{Task};
    ghost use Rattle.unit_task.specs.Held.{kept_of, IsHeld};

    ghost Value = { Task };

    ghost view = { λ k. record {
      tag = k.tag;
      ticket = k.ticket;
      cdb = k.cdb;
      position = k.position;
      saved = k.saved;
      high = k.high;
      budget = k.budget;
      kept = kept_of k.kept k.buffer.items;
      received = take k.got k.buffer.items;
      fresh = k.fresh;
      just_moved = k.just_moved;
      senses = k.senses;
    } };

    ghost invariant = { λ k. IsHeld k.cdb k.kept k.got k.senses k.buffer.items };
}

impl Task {
    /// A place for a task: a fresh TEST UNIT READY of tag 0 and ticket 0, until `begin` replaces it.
    pub fn idle(alloc: Global) -> Result<Task, AllocError>
        ensures { IfOk result (λ k. k ≡ began 0 0 TestUnitReady 0 false) }
    {
        Ok(Task {
            tag: 0,
            ticket: 0,
            cdb: Cdb::TestUnitReady,
            position: 0,
            saved: 0,
            high: 0,
            budget: 0,
            kept: None,
            got: 0,
            fresh: true,
            just_moved: false,
            senses: false,
            buffer: vec![in alloc; 0; BUFFER_BYTES]?,
        })
    }

    /// Begins a fresh task in this place. `disconnects` is its budget, and `ended` says that its ticket has an End
    /// in the unit's log: a REQUEST SENSE of length 18 is then a sense task, whose budget is 0.
    pub fn begin(&mut self, tag: u8, ticket: u32, cdb: Cdb, disconnects: u8, ended: bool)
        ensures task { self.new ≡ began tag ticket cdb disconnects ended }
        ensures waits { FitsForm cdb → (need_of cdb).bytes ≤ 65536 → (u : UnitState) → IsWaiting u self.new }
    {
        let senses = asks_sense(&cdb, ended);
        self.tag = tag;
        self.ticket = ticket;
        self.cdb = cdb;
        self.position = 0;
        self.saved = 0;
        self.high = 0;
        self.budget = if senses { 0 } else { disconnects };
        self.kept = None;
        self.got = 0;
        self.fresh = true;
        self.just_moved = false;
        self.senses = senses;
    }

    /// Its tag.
    pub fn tag(&self) -> u8
        ensures { result ≡ self.now.tag }
    {
        self.tag
    }

    /// Its ticket.
    pub fn ticket(&self) -> u32
        ensures { result ≡ self.now.ticket }
    {
        self.ticket
    }

    /// The greatest position that its data reached.
    pub fn high(&self) -> u32
        ensures { result ≡ self.now.high }
    {
        self.high
    }

    /// How many moves are left of those that it may spend.
    pub fn budget(&self) -> u8
        ensures { result ≡ self.now.budget }
    {
        self.budget
    }

    /// It has made no move yet.
    pub fn is_fresh(&self) -> bool
        ensures { result ≡ self.now.fresh }
    {
        self.fresh
    }

    /// Its last move in this connection was a data phase.
    pub fn has_just_moved(&self) -> bool
        ensures { result ≡ self.now.just_moved }
    {
        self.just_moved
    }

    /// It asks for the sense of its own ticket's command, which had ended.
    pub fn senses(&self) -> bool
        ensures { result ≡ self.now.senses }
    {
        self.senses
    }

    /// Its command was performed, and the answer kept.
    pub fn has_answer(&self) -> bool
        ensures { IsTrue result ↔ IsSome self.now.kept }
    {
        self.kept.is_some()
    }

    /// Which way its data go.
    pub fn direction(&self) -> Direction
        ensures { result ≡ (need_of self.now.cdb).direction }
    {
        match self.cdb {
            Cdb::Read { .. } | Cdb::Inquiry { .. } | Cdb::RequestSense { .. } | Cdb::ReadCapacity =>
                Direction::In,
            Cdb::Write { .. } => Direction::Out,
            Cdb::TestUnitReady | Cdb::BadField | Cdb::Other => Direction::None,
        }
    }
}

/// A command of a ticket asks for sense as a sense task where the ticket has ended.
fn asks_sense(cdb: &Cdb, ended: bool) -> bool
    ensures test { result ≡ asks_sense cdb.now ended }
    ensures length { result ≡ true → cdb.now ≡ RequestSense 18 }
{
    match *cdb {
        Cdb::RequestSense { len } => len == SENSE_BYTES && ended,
        _ => false,
    }
}

//! Tickets.

ghost use Rattle.std.specs.Prelude.{◌≡◌, List};
ghost use Rattle.desk_law.specs.declared.ticket.Piece.{Piece};

use crate::stage::Stage;
use dma_buddy::Chunk;
use rig_types::{Line, Outcome};
use scsi_words::Direction;
use std::marker::Model;

/// A segment of a ticket's buffer.
#[derive(Clone, Copy)]
pub struct Piece {
    /// The chunk that holds it from its base on.
    pub chunk: Chunk,
    /// Its length in bytes, at most the chunk's size.
    pub len: u32,
}

/// The segments of a ticket's buffer, in their order.
#[derive(Drop)]
pub struct Pieces {
    held: Vec<Piece>,
}

impl Model for Pieces {
    ghost Value = { List Piece };

    ghost view = { λ pieces. pieces.held.items };
}

impl Pieces {
    /// The list of a vector.
    pub fn of(held: Vec<Piece>) -> Self
        ensures { result ≡ held.items }
    {
        Pieces { held }
    }

    /// The pieces that it holds.
    pub fn as_slice(&self) -> &[Piece]
        ensures { result.now ≡ self.now }
    {
        self.held.as_slice()
    }
}

/// What the desk keeps of a ticket.
#[derive(Drop)]
pub struct Ticket {
    /// Its line of the work.
    pub line: Line,
    /// Its unit's number in the rig.
    pub unit: u8,
    /// Its tag.
    pub tag: u8,
    /// The address of its command block.
    pub block: u32,
    /// Which way its data go.
    pub direction: Direction,
    /// Its buffer.
    pub pieces: Pieces,
    /// How far it has come.
    pub stage: Stage,
    /// Its outcome, once it has ended.
    pub outcome: Option<Outcome>,
    /// How often it was queued since its Build.
    pub tries: u8,
    /// It is or was in stage Check.
    pub checked: bool,
    /// TakeDone ended it from stage Sensing.
    pub sensed: bool,
}

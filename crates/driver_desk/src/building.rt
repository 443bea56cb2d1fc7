//! The ticket of an accepted request.

ghost use Rattle.std.specs.Prelude.{◌≡◌, ◌+◌, ◌≤◌, ◌<◌, length, slice_index_or, map, zip, All, IfOk};
ghost use Rattle.host_map.specs.Places.{IsCommandBlock};
ghost use Rattle.unit_law.specs.Request.{plain};
ghost use Rattle.desk_law.specs.declared.ticket.Piece.{Piece};
ghost use Rattle.desk_law.specs.Blocks.{with_block, with_buffer};
ghost use Rattle.desk_law.specs.Building.{piece};
ghost use Rattle.driver_desk.specs.Kept.{total};
ghost use Rattle.driver_desk.specs.Held.{less, more};
ghost use Rattle.driver_desk.specs.Conditions.{built_ticket};

use crate::blocks::{write_block, write_buffer};
use crate::reporting::Room;
use bench_words::Words;
use desk_law::{Piece, Pieces, Stage, Ticket};
use dma_buddy::Chunk;
use rig_types::{Line, Request, Unit};
use std::alloc::{AllocError, Global};

/// A ticket that is to be built, with the memory of its report.
#[derive(Drop)]
pub(crate) struct NewTicket {
    /// The ticket.
    pub ticket: Ticket,
    /// The memory of its report.
    pub room: Room,
}

/// The segments of a buffer, each at the start of its chunk.
fn pieces_of(alloc: Global, chunks: &[Chunk], lens: &[u32]) -> Result<Vec<Piece>, AllocError>
    ensures { IfOk result (λ v. v.items ≡ map piece (zip chunks.now lens.now)) }
{
    chunks
        .iter()
        .zip(lens)
        .map(|(chunk, len)| Piece {
            chunk: *chunk,
            len: *len,
        })
        .collect(alloc)
}

/// The memory of a report on so many bytes.
fn room_for(alloc: Global, len: usize) -> Result<Room, AllocError>
    ensures { IfOk result (λ r. (length r.bytes.items ≡ len) × (length r.sense.items ≡ 18)) }
{
    Ok(Room {
        bytes: vec![in alloc; 0; len]?,
        sense: vec![in alloc; 0; 18]?,
    })
}

/// The ticket of an accepted request, with this tag and block and these chunks, and the memory of its report.
pub(crate) fn new_ticket(
    alloc: Global,
    line: Line,
    r: &Request,
    tag: u8,
    block: u32,
    chunks: &[Chunk],
) -> Result<NewTicket, AllocError>
    ensures ticket { IfOk result (λ n. n.ticket ≡ built_ticket line (plain r.now) tag block chunks.now) }
    ensures room { IfOk result (λ n. (length n.room.bytes.items ≡ length r.now.bytes) × (length n.room.sense.items ≡ 18)) }
{
    let pieces = pieces_of(alloc, chunks, r.segments.as_slice())?;
    let room = room_for(alloc, r.bytes.as_slice().len())?;
    let ticket = Ticket {
        line,
        unit: r.unit,
        tag,
        block,
        direction: r.direction,
        pieces: Pieces::of(pieces),
        stage: Stage::Built,
        outcome: None,
        tries: 0,
        checked: false,
        sensed: false,
    };
    Ok(NewTicket { ticket, room })
}

/// One live ticket more of a unit.
pub(crate) fn one_more(counts: &mut Vec<u16>, unit: u8)
    requires there { unit < length counts.old.items }
    requires few { slice_index_or counts.old.items unit 0 < 65535 }
    ensures { counts.new.items ≡ more counts.old.items unit }
{
    counts[unit as usize] += 1;
}

/// One live ticket less of a unit.
pub(crate) fn one_less(counts: &mut Vec<u16>, unit: u8)
    requires there { unit < length counts.old.items }
    requires some { 0 < slice_index_or counts.old.items unit 0 }
    ensures { counts.new.items ≡ less counts.old.items unit }
{
    counts[unit as usize] -= 1;
}

/// Writes the block of a new ticket and the bytes that were submitted.
pub(crate) fn write_ticket(words: &mut Words, unit: &Unit, k: &Ticket, r: &Request)
    requires memory { length words.old ≡ 0x400000 }
    requires block { IsCommandBlock k.now.block }
    requires pieces { length k.now.pieces ≤ 16 }
    requires target { unit.now.target ≤ 6 }
    requires lun { unit.now.lun < 8 }
    requires cdb { length r.now.cdb ≤ 16 }
    requires inside { All (λ (p : Piece). p.chunk.base + p.len ≤ 0x400000) k.now.pieces }
    requires lengths { total k.now.pieces ≡ length r.now.bytes }
    ensures wrote { words.new ≡ with_buffer (with_block words.old unit.now k.now r.now.cdb) k.now.pieces r.now.bytes }
    ensures size { length words.new ≡ length words.old }
{
    write_block(words, unit, k, r.cdb.as_slice());
    write_buffer(words, k.pieces.as_slice(), r.bytes.as_slice());
}

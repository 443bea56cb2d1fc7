//! The report that Free makes.

ghost use Rattle.std.specs.Prelude.{◌≡◌, ◌+◌, ◌-◌, ◌*◌, ◌<◌, ◌≤◌, length, All, IfSome, flat_map};
ghost use Rattle.bench_words.specs.Memory.{word_at, bytes_at};
ghost use Rattle.host_map.specs.Places.{IsCommandBlock};
ghost use Rattle.phase_fix.specs.Moves.{IsEntry};
ghost use Rattle.phase_fix.specs.Remain.{remain, segments_from, segment_of_move};
ghost use Rattle.desk_law.specs.declared.ticket.Piece.{Piece};
ghost use Rattle.desk_law.specs.Blocks.{buffer_length};
ghost use Rattle.desk_law.specs.Reporting.{status_of, report_of};
ghost use Rattle.driver_desk.specs.Kept.{total};

use crate::blocks::status_byte;
use bench_words::Words;
use cmd_block::{Field, read};
use desk_law::{Piece, Ticket};
use phase_fix::{DataMove, Entry, move_at};
use rig_types::{Outcome, Report};
use scsi_words::Bytes;
use sense_job::sense_bytes;

/// The segments of a block.
const SEGMENTS: u8 = 16;
/// How many counts there are: the count of a table entry is in bits 23 to 0 of its first word.
const COUNTS: u32 = 0x100_0000;
/// The status GOOD (SCSI-2, 7.3).
const GOOD: u8 = 0x00;
/// The status CHECK CONDITION.
const CHECK_CONDITION: u8 = 0x02;
/// The status of every outcome but Done.
const NO_STATUS: u8 = 0xff;

/// The memory of a ticket's report, as long as its buffer and as sense data.
#[derive(Drop)]
pub(crate) struct Room {
    /// As long as the buffer.
    pub bytes: Vec<u8>,
    /// 18 bytes.
    pub sense: Vec<u8>,
}

/// How many bytes the segments from this one on have.
#[tactic(auto, using(crate::proofs::DataPointers::one_more, crate::proofs::DataPointers::none_left, crate::proofs::DataPointers::command_place))]
fn segment_bytes(words: &Words, block: u32, first: u8) -> u32
    requires memory { length words.now ≡ 0x400000 }
    requires block { IsCommandBlock block }
    requires first { first ≤ 16 }
    ensures count { result ≡ length (segments_from (word_at words.now) block first) }
    ensures few { result ≤ 0x10000000 }
{
    let mut bytes = 0;
    for j in first..SEGMENTS {
        bytes += read(words, block, Field::SegCount(j)) % COUNTS;
    }
    bytes
}

/// The segment that a move begins with, 16 where it is no segment's move.
fn first_segment(found: Option<DataMove>) -> u8
    requires { IfSome found (λ x. IsEntry x.entry) }
    ensures is { result ≡ segment_of_move found }
    ensures few { result ≤ 16 }
{
    match found {
        Some(moved) => match moved.entry {
            Entry::Segment(j) => j,
            Entry::Context(_) => SEGMENTS,
        },
        None => SEGMENTS,
    }
}

/// How many bytes a data pointer says are still to be moved.
#[tactic(auto, using(crate::proofs::DataPointers::of_context, crate::proofs::DataPointers::command_place))]
fn remaining(words: &Words, block: u32, pointer: u32) -> u32
    requires memory { length words.now ≡ 0x400000 }
    requires block { IsCommandBlock block }
    ensures { result ≡ length (remain (word_at words.now) block pointer) }
{
    match move_at(pointer) {
        Some(moved) => match moved.entry {
            Entry::Segment(j) => segment_bytes(words, block, j),
            Entry::Context(k) => {
                let count = read(words, block, Field::CtxCount(k)) % COUNTS;
                let back = move_at(read(words, block, Field::CtxReturn(k)));
                count + segment_bytes(words, block, first_segment(back))
            }
        },
        None => 0,
    }
}

/// The status of a report.
fn status_of(words: &Words, k: &Ticket, outcome: Outcome) -> u8
    requires memory { length words.now ≡ 0x400000 }
    requires block { IsCommandBlock k.now.block }
    ensures { result ≡ status_of outcome words.now k.now }
{
    match outcome {
        Outcome::Done => {
            if k.checked {
                CHECK_CONDITION
            } else {
                status_byte(words, k)
            }
        }
        _ => NO_STATUS,
    }
}

/// Reads the segments of a buffer, one behind the other, into as many bytes.
#[tactic(auto, using(crate::proofs::Segments::one_length))]
fn read_buffer(words: &Words, pieces: &[Piece], into: &mut [u8])
    requires memory { length words.now ≡ 0x400000 }
    requires inside { All (λ (p : Piece). p.chunk.base + p.len ≤ 0x400000) pieces.now }
    requires lengths { total pieces.now ≡ length into.old }
    ensures { into.new ≡ flat_map (λ (p : Piece). bytes_at words.now p.chunk.base p.len) pieces.now }
{
    let mut from = 0;
    for i in 0..pieces.len() {
        let piece = pieces[i];
        let end = from + piece.len as usize;
        words.copy_out(piece.chunk.base, &mut into[from..end]);
        from = end;
    }
}

/// The report of a ticket, in the memory that is there for it.
pub(crate) fn report_of(words: &Words, number: u32, k: &Ticket, room: Room) -> Report
    requires memory { length words.now ≡ 0x400000 }
    requires block { IsCommandBlock k.now.block }
    requires inside { All (λ (p : Piece). p.chunk.base + p.len ≤ 0x400000) k.now.pieces }
    requires bytes { length room.bytes.items ≡ buffer_length k.now }
    requires few { buffer_length k.now ≤ 65536 }
    requires sense { length room.sense.items ≡ 18 }
    ensures { result ≡ report_of words.now number k.now }
{
    let mut bytes = room.bytes;
    let mut sense = room.sense;
    let outcome = k.outcome.unwrap_or(Outcome::Done);
    let status = status_of(words, k, outcome);
    let residual = if status == GOOD {
        remaining(words, k.block, read(words, k.block, Field::Lastp))
    } else {
        bytes.len() as u32
    };
    read_buffer(words, k.pieces.as_slice(), bytes.as_mut_slice());
    if k.sensed {
        sense_bytes(words, k.block, sense.as_mut_slice());
    } else {
        sense.clear();
    }
    Report {
        ticket: number,
        unit: k.unit,
        outcome,
        status,
        residual,
        tries: k.tries,
        bytes: Bytes::of(bytes),
        sense: Bytes::of(sense),
    }
}

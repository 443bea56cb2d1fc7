//! What the desk reads and writes in the block of a ticket.

ghost use Rattle.std.specs.Prelude.{◌≡◌, ◌+◌, ◌-◌, ◌<◌, ◌≤◌, ◌==◌, ◌%◌, length, nat_le, All, sum_by};
ghost use Rattle.sense_job.specs.Turning.{with_fields};
ghost use Rattle.host_map.specs.Places.{IsCommandBlock};
ghost use Rattle.cmd_block.specs.Block.{field_of};
ghost use Rattle.desk_law.specs.Blocks.{beginning, begins_at, segment_fields, block_fields, with_block, with_buffer};
ghost use Rattle.desk_law.specs.declared.ticket.Piece.{Piece};
ghost use Rattle.desk_law.specs.Calls.{begun_anew, ended};
ghost use Rattle.desk_law.specs.Taking.{state_of, status_byte, has_status, is_marked, outcome_by, taken_by};
ghost use Rattle.desk_law.specs.Desk.{is_sensing};
ghost use Rattle.driver_desk.specs.Conditions.{answer_of};
ghost use Rattle.desk_law.specs.declared.stage.Stage.TheVariants.{Again};

use bench_words::Words;
use cmd_block::{CDB, CUT, ENDED, Field, LIVE, MESSAGE, NO_TARGET, read, write};
use desk_law::{Piece, Stage, Taken, Ticket};
use driver_script::{Name, label};
use rig_types::{Outcome, Unit};
use scsi_words::{Direction, Message, message_byte};

/// STATUS as long as no status came.
const NO_STATUS: u8 = 0xff;

/// Where the data pointers of so many segments begin, as a script address: segments fill the last of the 16 places.
fn beginning(direction: Direction, segments: u32) -> u32
    requires { segments ≤ 16 }
    ensures { result ≡ beginning direction segments }
{
    match direction {
        Direction::In => label(Name::Datain) + 8 * (16 - segments),
        Direction::Out => label(Name::Dataout) + 8 * (16 - segments),
        Direction::None => label(Name::Over),
    }
}

/// Makes the block of a ticket that is queued again live: no status, and the data pointers at their beginning.
pub(crate) fn begin_anew(words: &mut Words, k: &Ticket)
    requires memory { length words.old ≡ 0x400000 }
    requires block { IsCommandBlock k.now.block }
    requires pieces { length k.now.pieces ≤ 16 }
    ensures wrote { words.new ≡ begun_anew Again k.now words.old }
    ensures size { length words.new ≡ length words.old }
{
    let first = beginning(k.direction, k.pieces.as_slice().len() as u32);
    write(words, k.block, Field::State, LIVE);
    write(words, k.block, Field::Status, u32::from(NO_STATUS));
    write(words, k.block, Field::Lastp, first);
    write(words, k.block, Field::Savep, first);
}

/// The low byte of STATUS.
pub(crate) fn status_byte(words: &Words, k: &Ticket) -> u8
    requires memory { length words.now ≡ 0x400000 }
    requires block { IsCommandBlock k.now.block }
    ensures { result ≡ status_byte words.now k.now }
{
    (read(words, k.block, Field::Status) % 256) as u8
}

/// STATE.
pub(crate) fn state_of(words: &Words, k: &Ticket) -> u32
    requires memory { length words.now ≡ 0x400000 }
    requires block { IsCommandBlock k.now.block }
    ensures { result ≡ state_of words.now k.now }
{
    read(words, k.block, Field::State)
}

/// Whether the target ended the command with this status.
pub(crate) fn has_status(words: &Words, k: &Ticket, code: u8) -> bool
    requires memory { length words.now ≡ 0x400000 }
    requires block { IsCommandBlock k.now.block }
    ensures { result ≡ has_status words.now k.now code }
{
    state_of(words, k) == ENDED && status_byte(words, k) == code
}

/// Whether an abort has marked the block.
pub(crate) fn is_marked(words: &Words, k: &Ticket) -> bool
    requires memory { length words.now ≡ 0x400000 }
    requires block { IsCommandBlock k.now.block }
    ensures { result ≡ is_marked words.now k.now }
{
    read(words, k.block, Field::Restart) == label(Name::Abort)
}

/// The outcome by STATE and status. A unit that breaks the rules may end without a status.
pub(crate) fn outcome_by(state: u32, status: u8) -> Outcome
    ensures { result ≡ outcome_by state status }
{
    if state == CUT {
        Outcome::Cut
    } else if state == NO_TARGET {
        Outcome::NoTarget
    } else if status == NO_STATUS {
        Outcome::Broken
    } else {
        Outcome::Done
    }
}

/// Settles ticket `t` that is taken from the done ring, and tells how. A REQUEST SENSE is over, however it ended.
pub(crate) fn settle_ticket(
    k: &mut Ticket,
    words: &Words,
    t: u32,
    again: bool,
    check: bool,
) -> Taken
    requires memory { length words.now ≡ 0x400000 }
    requires block { IsCommandBlock k.old.block }
    ensures ticket { k.new ≡ taken_by (is_sensing k.old.stage) again check words.now k.old }
    ensures answer { result ≡ answer_of k.new.stage t }
{
    if matches!(k.stage, Stage::Sensing) {
        end(k, Outcome::Done);
        k.sensed = true;
        Taken::Ended(t)
    } else if again {
        k.stage = Stage::Again;
        Taken::Again(t)
    } else if check {
        k.stage = Stage::Check;
        k.checked = true;
        Taken::Check(t)
    } else {
        let outcome = outcome_by(state_of(words, k), status_byte(words, k));
        end(k, outcome);
        Taken::Ended(t)
    }
}

/// Gives a ticket its outcome.
pub(crate) fn end(k: &mut Ticket, outcome: Outcome)
    ensures { k.new ≡ ended k.old outcome }
{
    k.stage = Stage::Ended(outcome);
    k.outcome = Some(outcome);
}

/// The bytes of a block.
const BLOCK: [u8; 512] = [0; 512];

/// Writes the fields of a new block that stand before its segments.
fn write_head(words: &mut Words, unit: &Unit, k: &Ticket, cdb_length: u32)
    requires memory { length words.old ≡ 0x400000 }
    requires block { IsCommandBlock k.now.block }
    requires pieces { length k.now.pieces ≤ 16 }
    requires target { unit.now.target ≤ 6 }
    ensures wrote { with_fields words.new k.now.block (segment_fields (16 - length k.now.pieces) k.now.pieces)
        ≡ with_fields words.old k.now.block (block_fields unit.now k.now cdb_length) }
    ensures size { length words.new ≡ length words.old }
{
    let block = k.block;
    let first = beginning(k.direction, k.pieces.as_slice().len() as u32);
    write(words, block, Field::Start, label(Name::Select));
    write(words, block, Field::Restart, label(Name::Restore));
    write(words, block, Field::Lastp, first);
    write(words, block, Field::Savep, first);
    write(words, block, Field::State, LIVE);
    write(words, block, Field::Status, u32::from(NO_STATUS));
    write(words, block, Field::Sel, 0x1_0000 * u32::from(unit.target));
    write(words, block, Field::Gate, label(Name::Badtask));
    write(words, block, Field::MsgCount, 3);
    write(words, block, Field::MsgAt, block + MESSAGE);
    write(words, block, Field::CmdCount, cdb_length);
    write(words, block, Field::CmdAt, block + CDB);
    write(words, block, Field::StatCount, 1);
    write(words, block, Field::StatAt, block + 0x14);
}

/// Writes the entries of a block's segments: they fill the last of the 16 places.
#[tactic(auto, using(crate::proofs::Segments::one_segment, crate::proofs::Segments::no_segment_left))]
fn write_segments(words: &mut Words, block: u32, pieces: &[Piece])
    requires memory { length words.old ≡ 0x400000 }
    requires block { IsCommandBlock block }
    requires pieces { length pieces.now ≤ 16 }
    ensures wrote { words.new ≡ with_fields words.old block (segment_fields (16 - length pieces.now) pieces.now) }
    ensures size { length words.new ≡ length words.old }
{
    let first = 16 - pieces.len() as u8;
    for i in 0..pieces.len() {
        let piece = pieces[i];
        let place = first + i as u8;
        write(words, block, Field::SegCount(place), piece.len);
        write(words, block, Field::SegAt(place), piece.chunk.base);
    }
}

/// Writes the block of a ticket of this unit, whole.
pub(crate) fn write_block(words: &mut Words, unit: &Unit, k: &Ticket, cdb: &[u8])
    requires memory { length words.old ≡ 0x400000 }
    requires block { IsCommandBlock k.now.block }
    requires pieces { length k.now.pieces ≤ 16 }
    requires target { unit.now.target ≤ 6 }
    requires lun { unit.now.lun < 8 }
    requires cdb { length cdb.now ≤ 16 }
    ensures wrote { words.new ≡ with_block words.old unit.now k.now cdb.now }
    ensures size { length words.new ≡ length words.old }
{
    let identify = Message::Identify {
        may_leave: true,
        lun: unit.lun,
    };
    let message = [
        message_byte(&identify),
        message_byte(&Message::SimpleTag),
        k.tag,
    ];
    words.copy_in(k.block, &BLOCK);
    write_head(words, unit, k, cdb.len() as u32);
    write_segments(words, k.block, k.pieces.as_slice());
    words.copy_in(k.block + MESSAGE, &message);
    words.copy_in(k.block + CDB, cdb);
}

/// Writes bytes into the segments of a buffer, one behind the other. Each segment lies in memory, and together they are
/// as long as the bytes.
#[tactic(auto, using(crate::proofs::Segments::one_piece, crate::proofs::Segments::no_piece_left, crate::proofs::Segments::one_length))]
pub(crate) fn write_buffer(words: &mut Words, pieces: &[Piece], bytes: &[u8])
    requires memory { length words.old ≡ 0x400000 }
    requires inside { All (λ (p : Piece). p.chunk.base + p.len ≤ 0x400000) pieces.now }
    requires lengths { sum_by (λ (p : Piece). p.len) pieces.now ≡ length bytes.now }
    ensures wrote { words.new ≡ with_buffer words.old pieces.now bytes.now }
    ensures size { length words.new ≡ length words.old }
{
    let mut from = 0;
    for i in 0..pieces.len() {
        let piece = pieces[i];
        let end = from + piece.len as usize;
        words.copy_in(piece.chunk.base, &bytes[from..end]);
        from = end;
    }
}

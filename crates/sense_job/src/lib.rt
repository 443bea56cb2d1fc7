//! Autosense: after CHECK CONDITION the command's own block becomes a REQUEST SENSE, whose 18 bytes go to the block's
//! sense area.
//!
//! Each call wants memory of 4 MiB and one of the 256 command blocks. None takes memory.
#![tactic(auto)]

ghost use Rattle.std.specs.Prelude.{◌≡◌, ◌+◌, length};
ghost use Rattle.bench_words.specs.Memory.{word_at, bytes_at};
ghost use Rattle.bench_words.specs.Views.{WroteWithin};
ghost use Rattle.cmd_block.specs.declared.TheConstants.{CDB, SENSE as SENSE_AREA};
ghost use Rattle.cmd_block.specs.Block.{offset, field_of};
ghost use Rattle.host_map.specs.Places.{IsCommandBlock};
ghost use Rattle.phase_fix.specs.Remain.{remain};
ghost use Rattle.sense_job.specs.Turning.{turned, with_fields, sense_area, request_sense, Turned};

use bench_words::Words;
use cmd_block::{CDB, Field, LIVE, write};
use driver_script::{Name, label};

/// The bytes of fixed sense data (SCSI-2, 8.2.14.2).
const SENSE_BYTES: u32 = 18;
/// The place of the last segment in a block.
const LAST_SEGMENT: u8 = 15;
/// REQUEST SENSE of 18 bytes (SCSI-2, 8.2.14).
const REQUEST_SENSE: [u8; 6] = [0x03, 0, 0, 0, 0x12, 0];

/// Turns `block` into a REQUEST SENSE: START is SENSE, STATE 0, STATUS 0xFF, and the command descriptor block
/// 0x03, 0, 0, 0, 0x12, 0. Segment 15 is the sense area, and both data pointers denote its 18 bytes. Other words stay.
pub fn turn(words: &mut Words, block: u32)
    requires memory { length words.old ≡ 0x400000 }
    requires block { IsCommandBlock block }
    ensures wrote { words.new ≡ turned words.old block }
    ensures words { Turned (word_at words.old) (word_at words.new) block }
    ensures within { WroteWithin (word_at words.old) (word_at words.new)
        (block + offset Field.Start) (block + CDB + 6) }
    ensures size { length words.new ≡ length words.old }
    ensures command { bytes_at words.new (block + CDB) 6 ≡ request_sense }
    ensures last { remain (word_at words.new) block (field_of words.new block Field.Lastp) ≡ sense_area block }
    ensures saved { remain (word_at words.new) block (field_of words.new block Field.Savep) ≡ sense_area block }
{
    let last_move = label(Name::Datain) + 8 * u32::from(LAST_SEGMENT);
    write(words, block, Field::Start, label(Name::Sense));
    write(words, block, Field::State, LIVE);
    write(words, block, Field::Status, 0xff);
    write(words, block, Field::Lastp, last_move);
    write(words, block, Field::Savep, last_move);
    write(words, block, Field::SegCount(LAST_SEGMENT), SENSE_BYTES);
    write(
        words,
        block,
        Field::SegAt(LAST_SEGMENT),
        block + cmd_block::SENSE,
    );
    write(words, block, Field::CmdCount, 6);
    write(words, block, Field::CmdAt, block + CDB);
    words.copy_in(block + CDB, &REQUEST_SENSE);
}

/// Reads the sense area of `block` into 18 bytes.
pub fn sense_bytes(words: &Words, block: u32, into: &mut [u8])
    requires memory { length words.now ≡ 0x400000 }
    requires block { IsCommandBlock block }
    requires size { length into.old ≡ 18 }
    ensures { into.new ≡ bytes_at words.now (block + SENSE_AREA) 18 }
{
    words.copy_out(block + cmd_block::SENSE, into);
}

#[cfg(test)]
mod tests;

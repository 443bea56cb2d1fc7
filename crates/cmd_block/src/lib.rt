//! The fields of a command block: what the driver and the script tell each other about one command.
#![tactic(auto)]

ghost use Rattle.std.specs.Prelude.{◌≡◌, ◌+◌, length};
ghost use Rattle.bench_words.specs.Memory.{word_at, put_word};
ghost use Rattle.bench_words.specs.Views.{Wrote};
ghost use Rattle.host_map.specs.Places.{IsBlockPlace};
ghost use Rattle.cmd_block.specs.Block.{IsField, offset, field_of};

mod laws;
pub mod offsets;

use bench_words::Words;
pub use laws::{fields_lie_apart, is_layout};

/// A word of a command block. A segment's number `j` is below 16, a context's below 2.
#[derive(Clone, Copy, Debug, PartialEq, Eq)]
pub enum Field {
    /// Where the script goes on when the block is taken from FRONT or the start ring: SELECT, CANCEL or SENSE.
    Start,
    /// Where the script goes on at a reselection, by OPEN: RESTORE or ABORT.
    Restart,
    /// The active data pointer, as the address of a script instruction.
    Lastp,
    /// The saved data pointer, in the same form.
    Savep,
    /// 0 live, 1 ended by the target, 2 cut, 3 no target, 4 swept.
    State,
    /// The status in the low byte; FF at first.
    Status,
    /// The target in bits 23 to 16.
    Sel,
    /// Where the script goes at a reselection: OPEN while one is due, else BADTASK.
    Gate,
    /// The table entry of the message bytes: their count.
    MsgCount,
    /// And their address.
    MsgAt,
    /// The table entry of the command descriptor block: its length.
    CmdCount,
    /// And its address.
    CmdAt,
    /// The table entry of the status byte: its count, 1.
    StatCount,
    /// And its address.
    StatAt,
    /// The table entry of a data segment: its count.
    SegCount(u8),
    /// And its address.
    SegAt(u8),
    /// A mismatch context, the rest of a data move that was broken off: its count.
    CtxCount(u8),
    /// Its address.
    CtxAt(u8),
    /// And the script address where the data goes on behind it.
    CtxReturn(u8),
}

/// The offset of the message bytes in a block.
pub const MESSAGE: u32 = 0xe0;
/// The offset of the command descriptor block, up to 12 bytes.
pub const CDB: u32 = 0xf0;
/// The offset of the sense area, 18 bytes.
pub const SENSE: u32 = 0x100;

/// STATE of a command that is live.
pub const LIVE: u32 = 0;
/// STATE of a command that the target ended.
pub const ENDED: u32 = 1;
/// STATE of a command that was cut by an abort.
pub const CUT: u32 = 2;
/// STATE of a command whose target didn't answer.
pub const NO_TARGET: u32 = 3;
/// STATE of a command that a reset swept.
pub const SWEPT: u32 = 4;

impl Field {
    /// The offset of the field in its block, in bytes.
    pub fn offset(self) -> u32
        requires { IsField self }
        ensures { result ≡ offset self }
    {
        match self {
            Field::Start => 0x00,
            Field::Restart => 0x04,
            Field::Lastp => 0x08,
            Field::Savep => 0x0c,
            Field::State => 0x10,
            Field::Status => 0x14,
            Field::Sel => 0x18,
            Field::Gate => 0x1c,
            Field::MsgCount => 0x20,
            Field::MsgAt => 0x24,
            Field::CmdCount => 0x28,
            Field::CmdAt => 0x2c,
            Field::StatCount => 0x30,
            Field::StatAt => 0x34,
            Field::SegCount(j) => 0x40 + 8 * j as u32,
            Field::SegAt(j) => 0x44 + 8 * j as u32,
            Field::CtxCount(j) => 0xc0 + 0x10 * j as u32,
            Field::CtxAt(j) => 0xc4 + 0x10 * j as u32,
            Field::CtxReturn(j) => 0xc8 + 0x10 * j as u32,
        }
    }
}

/// A field of the block at `block`, which is one of the 260 block places. Memory has 4 MiB.
#[tactic(auto, using(crate::proofs::FieldLaws::offset_fits))]
pub fn read(words: &Words, block: u32, field: Field) -> u32
    requires memory { length words.now ≡ 0x400000 }
    requires place { IsBlockPlace block }
    requires field { IsField field }
    ensures { result ≡ field_of words.now block field }
{
    words.get(block + field.offset())
}

/// Writes a field of the block at `block`, which is one of the 260 block places. Memory has 4 MiB. All else stays.
#[tactic(auto, using(crate::proofs::FieldLaws::offset_fits))]
pub fn write(words: &mut Words, block: u32, field: Field, word: u32)
    requires memory { length words.old ≡ 0x400000 }
    requires place { IsBlockPlace block }
    requires field { IsField field }
    ensures wrote { words.new ≡ put_word words.old (block + offset field) word }
    ensures words { Wrote (word_at words.old) (word_at words.new) (block + offset field) word }
    ensures size { length words.new ≡ length words.old }
{
    words.set(block + field.offset(), word);
}

#[cfg(test)]
mod tests;

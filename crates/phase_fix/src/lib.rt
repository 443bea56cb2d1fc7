//! The repair of a data move that the target broke off: what is left of it becomes a mismatch context of its block, so
//! that the active data pointer says again what is still to be moved.
//!
//! No call takes memory.
#![tactic(auto)]

ghost use Rattle.std.specs.Prelude.{◌≡◌, ◌+◌, ◌-◌, ◌<◌, ◌≤◌, ◌↔◌, length, drop, IsTrue, IsSome, IsNone, IfNone};
ghost use Rattle.std.specs.Option.{ForSome};
ghost use Rattle.bench_words.specs.Memory.{word_at};
ghost use Rattle.bench_words.specs.Views.{WroteWithin};
ghost use Rattle.host_map.specs.Places.{IsBlockPlace};
ghost use Rattle.cmd_block.specs.Block.{offset, field_of};
ghost use Rattle.phase_fix.specs.Moves.{IsEntry, move_at};
ghost use Rattle.phase_fix.specs.Remain.{remain, count_of, IsNoContext, ReturnsToSegments};
ghost use Rattle.phase_fix.specs.Repair.{IsRepairable, IsFixable, free_context, return_of, with_context, repaired, IsRepaired};

mod laws;
mod moves;
#[cfg(test)]
mod tests;

use bench_words::Words;
use cmd_block::{Field, read, write};
use driver_script::{Name, label};
use host_map::is_block_place;
pub use laws::moves_of_script;
pub use moves::{DataMove, DataPhase, Entry, move_at};

/// The bytes of an instruction of the script.
const INSTRUCTION: u32 = 8;
/// How many counts there are: the count of a table entry is in bits 23 to 0 of its first word.
const COUNTS: u32 = 0x100_0000;

/// How a repair ended.
#[derive(Clone, Copy, Debug, PartialEq, Eq)]
pub enum FixEnd {
    /// The data pointer is right again.
    Fixed,
    /// The chip didn't stop at a data move; with DSP.
    NotData(u32),
}

/// Whether `fix` has something to repair: the chip stopped at a data move, and all that `fix` wants then holds. So
/// `block` is one of the 260 block places, the instruction before `dsp` is a data move, its entry has at least `dbc`
/// bytes and ends below 2^32, and neither context of the block returns to a context. Memory has 4 MiB.
pub fn can_fix(words: &Words, block: u32, dsp: u32, dbc: u32) -> bool
    requires { length words.now ≡ 0x400000 }
    ensures { IsTrue result ↔ IsFixable (word_at words.now) block dsp dbc }
{
    if !is_block_place(block) || dsp < INSTRUCTION {
        return false;
    }
    match move_at(dsp - INSTRUCTION) {
        Some(stopped) => is_repairable(words, block, dbc, stopped.entry),
        None => false,
    }
}

/// Repairs the block of a command whose data move stopped with a phase mismatch. The stopped move is the instruction
/// before `dsp`, and `dbc` bytes of it are left. Where it moved nothing, LASTP names it again; else what is left becomes
/// the mismatch context that SAVEP doesn't name, and LASTP names that one's move.
///
/// Afterwards LASTP denotes the bytes that the stopped move didn't move and all that followed them, and SAVEP what it
/// did before. NotData comes exactly where the stopped instruction is none of the script's data moves, and nothing is
/// written then.
///
/// Memory has 4 MiB, `block` is one of the 260 block places, and `dsp` is at least 8. Where the instruction is a data
/// move, its entry has at least `dbc` bytes and ends below 2^32, and neither context of the block returns to a context:
/// `can_fix` decides it.
pub fn fix(words: &mut Words, block: u32, dsp: u32, dbc: u32) -> FixEnd
    requires memory { length words.old ≡ 0x400000 }
    requires place { IsBlockPlace block }
    requires behind { 8 ≤ dsp }
    requires entry { ForSome (move_at (dsp - 8)) (λ x. IsRepairable (word_at words.old) block dbc x.entry) }
    ensures fixed { (result ≡ FixEnd.Fixed) ↔ IsSome (move_at (dsp - 8)) }
    ensures not_data { (result ≡ FixEnd.NotData dsp) ↔ IsNone (move_at (dsp - 8)) }
    ensures unchanged { IfNone (move_at (dsp - 8)) (words.new ≡ words.old) }
    ensures wrote { ForSome (move_at (dsp - 8)) (λ x. words.new ≡ repaired words.old block dsp dbc x) }
    ensures words { ForSome (move_at (dsp - 8)) (λ x. IsRepaired (word_at words.old) (word_at words.new) block dsp dbc x) }
    ensures within { WroteWithin (word_at words.old) (word_at words.new) (block + offset Field.Lastp)
        (block + offset (Field.CtxReturn 1) + 4) }
    ensures size { length words.new ≡ length words.old }

    // What the two data pointers denote.
    ensures last { ForSome (move_at (dsp - 8)) (λ x. remain (word_at words.new) block (field_of words.new block Field.Lastp)
        ≡ drop (count_of (word_at words.old) block x.entry - dbc) (remain (word_at words.old) block (dsp - 8))) }
    ensures saved { remain (word_at words.new) block (field_of words.new block Field.Savep)
        ≡ remain (word_at words.old) block (field_of words.old block Field.Savep) }
    ensures returns { IsSome (move_at (dsp - 8)) → ReturnsToSegments (word_at words.new) block }
{
    let Some(stopped) = move_at(dsp - INSTRUCTION) else {
        return FixEnd::NotData(dsp);
    };
    repair(words, block, dsp, dbc, stopped);
    FixEnd::Fixed
}

// Writes what is left of a stopped move into its block.
fn repair(words: &mut Words, block: u32, dsp: u32, dbc: u32, stopped: DataMove)
    requires memory { length words.old ≡ 0x400000 }
    requires place { IsBlockPlace block }
    requires behind { 8 ≤ dsp }
    requires is { IsEntry stopped.entry }
    requires entry { IsRepairable (word_at words.old) block dbc stopped.entry }
    ensures wrote { words.new ≡ repaired words.old block dsp dbc stopped }
    ensures words { IsRepaired (word_at words.old) (word_at words.new) block dsp dbc stopped }
    ensures size { length words.new ≡ length words.old }
{
    let count = count_of(words, block, stopped.entry);
    let nothing_moved = dbc == count;
    if nothing_moved {
        write(words, block, Field::Lastp, dsp - INSTRUCTION);
        return;
    }
    let address = read(words, block, stopped.entry.address()) + (count - dbc);
    let goes_on = return_of(words, block, dsp, stopped.entry);
    let context = free_context(read(words, block, Field::Savep));
    write_context(words, block, context, dbc, address, goes_on);
    let pointer = stopped.phase.context_move(context);
    write(words, block, Field::Lastp, pointer);
}

// Writes a mismatch context of a block.
fn write_context(words: &mut Words, block: u32, context: u8, count: u32, address: u32, goes_on: u32)
    requires memory { length words.old ≡ 0x400000 }
    requires place { IsBlockPlace block }
    requires is { context < 2 }
    ensures wrote { words.new ≡ with_context words.old block context count address goes_on }
    ensures size { length words.new ≡ length words.old }
{
    write(words, block, Field::CtxCount(context), count);
    write(words, block, Field::CtxAt(context), address);
    write(words, block, Field::CtxReturn(context), goes_on);
}

// The bytes of an entry: the chip takes bits 23 to 0 of its first word.
fn count_of(words: &Words, block: u32, entry: Entry) -> u32
    requires memory { length words.now ≡ 0x400000 }
    requires place { IsBlockPlace block }
    requires is { IsEntry entry }
    ensures { result ≡ count_of (word_at words.now) block entry }
{
    read(words, block, entry.count()) % COUNTS
}

// Whether an entry's move that stopped with so many bytes left can be repaired.
fn is_repairable(words: &Words, block: u32, left: u32, entry: Entry) -> bool
    requires memory { length words.now ≡ 0x400000 }
    requires place { IsBlockPlace block }
    requires is { IsEntry entry }
    ensures { IsTrue result ↔ IsRepairable (word_at words.now) block left entry }
{
    let count = count_of(words, block, entry);
    let address = read(words, block, entry.address());
    left <= count && address <= u32::MAX - count && returns_to_segments(words, block)
}

// Whether neither context of a block returns to a context.
fn returns_to_segments(words: &Words, block: u32) -> bool
    requires memory { length words.now ≡ 0x400000 }
    requires place { IsBlockPlace block }
    ensures { IsTrue result ↔ ReturnsToSegments (word_at words.now) block }
{
    is_no_context(read(words, block, Field::CtxReturn(0)))
        && is_no_context(read(words, block, Field::CtxReturn(1)))
}

// Whether an address is no context's move.
fn is_no_context(address: u32) -> bool
    ensures { IsTrue result ↔ IsNoContext address }
{
    address != label(Name::Pmin0)
        && address != label(Name::Pmin1)
        && address != label(Name::Pmout0)
        && address != label(Name::Pmout1)
}

// Where the data go on behind an entry whose move stopped.
fn return_of(words: &Words, block: u32, dsp: u32, entry: Entry) -> u32
    requires memory { length words.now ≡ 0x400000 }
    requires place { IsBlockPlace block }
    requires is { IsEntry entry }
    ensures { result ≡ return_of (word_at words.now) block dsp entry }
{
    match entry {
        Entry::Segment(_) => dsp,
        Entry::Context(context) => read(words, block, Field::CtxReturn(context)),
    }
}

// The context that a saved data pointer doesn't name, 0 where it names none.
fn free_context(savep: u32) -> u8
    ensures is { result < 2 }
    ensures free { result ≡ free_context savep }
{
    if savep == label(Name::Pmin0) || savep == label(Name::Pmout0) {
        1
    } else {
        0
    }
}

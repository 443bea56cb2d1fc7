//! Block moves.

ghost use Rattle.std.specs.Prelude.{◌≡◌, ◌≢◌, ◌+◌, ◌≤◌, length};
ghost use Rattle.chip_step.specs.Chip.{state};
ghost use Rattle.chip_step.specs.Blocks.{Asks, ReleasesAtn, Carries, Moves, Finishes, AsksAndMoves, BlockMoves, MovesFrom, after_bytes, loaded};

use crate::addresses::place;
use crate::carrying::{bytes_in, bytes_out};
use crate::outcome::{StepEnd, stop};
use crate::scsi_bus::Bus;
use bench_words::Words;
use chip_regs::{Cause, Regs};
use scsi_words::{Phase, phase_codes};

/// Clears an ACK that is still asserted, and asks for the phase.
pub fn ask<B: Bus>(bus: &mut B, word: u32) -> Option<Phase>
    ensures { Asks B.moves word result bus.old bus.new }
{
    bus.clear_ack();
    bus.phase(word)
}

/// Releases ATN, where it is named.
pub fn release_atn<B: Bus>(bus: &mut B, on: bool)
    ensures { ReleasesAtn B.moves on bus.old bus.new }
{
    if on {
        bus.set_atn(false);
    }
}

// The bytes move by the direction of the phase, and what is left is answered.
fn carry<B: Bus>(words: &mut Words, bus: &mut B, at: u32, count: u32, phase: u8) -> u32
    requires { at + count ≤ length words.old }
    ensures moved { (r : _) → r.dbc ≡ count → r.dnad ≡ at
        → Carries B.moves phase (state words.old r bus.old) result words.new bus.new }
    ensures size { length words.new ≡ length words.old }
    ensures most { result ≤ count }
{
    if phase % 2 == 1 {
        bytes_in(words, bus, phase == phase_codes::MSG_IN, at, count)
    } else {
        bytes_out(words, bus, at, count)
    }
}

// A move of bytes in the phase that the target shows.
fn transfer<B: Bus>(words: &mut Words, regs: &mut Regs, bus: &mut B, phase: u8) -> StepEnd
    requires { regs.old.dnad + regs.old.dbc ≤ length words.old }
    ensures does { Moves B.moves phase (state words.old regs.old bus.old) result (state words.new regs.new bus.new) }
    ensures size { length words.new ≡ length words.old }
    ensures not_idle { result ≢ StepEnd.Idle }
{
    let count = regs.dbc;
    let at = regs.dnad;
    let size = words.len();
    prove!(at as u64 + count as u64 <= size as u64);
    let left = carry(words, bus, at, count, phase);
    count_down(words, regs, phase, left);
    finish(regs, bus, phase, left)
}

// The counts after the bytes have moved, and the first byte where SFBR gets it.
fn count_down(words: &Words, regs: &mut Regs, phase: u8, left: u32)
    requires inside { regs.old.dnad + regs.old.dbc ≤ length words.now }
    requires most { left ≤ regs.old.dbc }
    ensures { regs.new ≡ after_bytes phase left words.now regs.old }
{
    let size = words.len();
    prove!(regs.dnad as u64 + regs.dbc as u64 <= size as u64);
    if (phase == phase_codes::MSG_IN || phase == phase_codes::STATUS) && left < regs.dbc {
        regs.sfbr = words.byte(regs.dnad);
    }
    regs.dnad += regs.dbc - left;
    regs.dbc = left;
}

fn finish<B: Bus>(regs: &mut Regs, bus: &mut B, phase: u8, left: u32) -> StepEnd
    ensures does { (memory : _) → Finishes B.moves phase left bus.old regs.old result (state memory regs.new bus.new) }
    ensures not_idle { result ≢ StepEnd.Idle }
{
    if left > 0 {
        return stop(regs, Cause::Ma);
    }
    release_atn(bus, phase == phase_codes::MSG_OUT);
    StepEnd::Ran
}

// A block move whose count is in DBC and whose address is in DNAD.
fn block_move<B: Bus>(
    words: &mut Words,
    regs: &mut Regs,
    bus: &mut B,
    word: u32,
    phase: u8,
) -> StepEnd
    ensures does { BlockMoves B.moves word phase (state words.old regs.old bus.old) result (state words.new regs.new bus.new) }
    ensures size { length words.new ≡ length words.old }
    ensures not_idle { result ≢ StepEnd.Idle }
{
    if regs.dbc == 0 {
        return stop(regs, Cause::Iid);
    }
    if regs.dnad as u64 + regs.dbc as u64 > words.len() as u64 {
        return stop(regs, Cause::Bf);
    }
    ask_and_move(words, regs, bus, word, phase)
}

fn ask_and_move<B: Bus>(
    words: &mut Words,
    regs: &mut Regs,
    bus: &mut B,
    word: u32,
    phase: u8,
) -> StepEnd
    requires { regs.old.dnad + regs.old.dbc ≤ length words.old }
    ensures does { AsksAndMoves B.moves word phase (state words.old regs.old bus.old) result (state words.new regs.new bus.new) }
    ensures size { length words.new ≡ length words.old }
    ensures not_idle { result ≢ StepEnd.Idle }
{
    match ask(bus, word) {
        None => stop(regs, Cause::Udc),
        Some(shown) => {
            if shown.code() == phase {
                transfer(words, regs, bus, phase)
            } else {
                stop(regs, Cause::Ma)
            }
        }
    }
}

/// MOVE of a count to or from an address.
pub fn move_direct<B: Bus>(
    words: &mut Words,
    regs: &mut Regs,
    bus: &mut B,
    word: u32,
    count: u32,
    address: u32,
    phase: u8,
) -> StepEnd
    ensures does { BlockMoves B.moves word phase (loaded count address (state words.old regs.old bus.old)) result
        (state words.new regs.new bus.new) }
    ensures size { length words.new ≡ length words.old }
    ensures not_idle { result ≢ StepEnd.Idle }
{
    regs.dbc = count;
    regs.dnad = address;
    block_move(words, regs, bus, word, phase)
}

/// MOVE FROM a table entry.
pub fn move_from<B: Bus>(
    words: &mut Words,
    regs: &mut Regs,
    bus: &mut B,
    word: u32,
    offset: i32,
    phase: u8,
) -> StepEnd
    ensures does { MovesFrom B.moves word offset phase (state words.old regs.old bus.old) result
        (state words.new regs.new bus.new) }
    ensures size { length words.new ≡ length words.old }
    ensures not_idle { result ≢ StepEnd.Idle }
{
    match place(words, regs.dsa, offset, 8) {
        None => stop(regs, Cause::Bf),
        Some(at) => {
            let count = words.word(at) % 0x100_0000;
            let address = words.word(at + 4);
            move_direct(words, regs, bus, word, count, address, phase)
        }
    }
}

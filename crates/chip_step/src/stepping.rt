//! One step of the chip.

ghost use Rattle.std.specs.Prelude.{◌≡◌, ◌≢◌, ◌+◌, ◌^◌, ◌<◌, ◌⊎◌, true, length, IsTrue};
ghost use Rattle.std.specs.Bool.{OnTrue};
ghost use Rattle.scripts_ops.specs.Table.{row};
ghost use Rattle.chip_regs.specs.Registers.{is_stopped};
ghost use Rattle.chip_step.specs.Chip.{state};
ghost use Rattle.chip_step.specs.Instructions.{Does};
ghost use Rattle.chip_step.specs.Step.{ChipStep, Rests, IsWaiting, can_fetch, has_third, len_of, third_at};

use crate::block::{move_direct, move_from};
use crate::connection::{clear, select, set, wait_disconnect, wait_reselect};
use crate::memory::{load, move_memory, store};
use crate::outcome::{StepEnd, stop};
use crate::register_forms::{from_sfbr, modify, put, to_sfbr};
use crate::scsi_bus::Bus;
use crate::transfers::transfer_to;
use bench_words::Words;
use chip_regs::{Cause, Regs};
use scripts_ops::{Op, decode};

// Whether an instruction that begins with this word has a third one.
fn takes_third(first: u32) -> bool
    ensures { result ≡ has_third first }
{
    first / 0x100_0000 == 0xc0 && first % 0x100_0000 != 0
}

fn len_from(first: u32) -> u32
    ensures len { result ≡ len_of first }
    ensures most { result < 13 }
{
    if takes_third(first) { 12 } else { 8 }
}

// Whether the words of an instruction lie at DSP.
fn can_read(words: &Words, regs: &Regs) -> bool
    ensures can { result ≡ can_fetch words.now regs.now }
    ensures small { OnTrue result (regs.now.dsp + 16 < 2 ^ 32) }
{
    if regs.dsp % 4 != 0 || regs.dsp as u64 + 8 > words.len() as u64 {
        return false;
    }
    regs.dsp as u64 + len_from(words.word(regs.dsp)) as u64 <= words.len() as u64
}

fn third_word(words: &Words, regs: &Regs) -> u32
    requires can { IsTrue (can_fetch words.now regs.now) }
    requires small { regs.now.dsp + 16 < 2 ^ 32 }
    ensures { result ≡ third_at words.now regs.now }
{
    if takes_third(words.word(regs.dsp)) {
        words.word(regs.dsp + 8)
    } else {
        0
    }
}

// What an instruction does. `before` are the registers before the fetch.
fn execute<B: Bus>(
    words: &mut Words,
    regs: &mut Regs,
    bus: &mut B,
    word: u32,
    op: Op,
    before: Regs,
) -> StepEnd
    requires { (row op).fields }
    ensures does { Does B.moves word op (state words.old before bus.old) (state words.old regs.old bus.old) result
        (state words.new regs.new bus.new) }
    ensures size { length words.new ≡ length words.old }
    ensures idle { result ≡ StepEnd.Idle → IsWaiting B.moves word op (state words.old regs.old bus.old) }
{
    match op {
        Op::Move {
            count,
            address,
            phase,
        } => move_direct(words, regs, bus, word, count, address, phase),
        Op::MoveFrom { offset, phase } => move_from(words, regs, bus, word, offset, phase),
        Op::Select { offset, alternate } => select(words, regs, bus, word, offset, alternate),
        Op::WaitDisconnect => wait_disconnect(words, regs, bus, word),
        Op::WaitReselect { alternate } => wait_reselect(words, regs, bus, word, alternate, before),
        Op::Set { ack, atn } => set(words, regs, bus, ack, atn),
        Op::Clear { ack, atn } => clear(words, regs, bus, ack, atn),
        Op::FromSfbr {
            change,
            byte,
            register,
        } => from_sfbr(regs, change, byte, register),
        Op::ToSfbr {
            register,
            change,
            byte,
        } => to_sfbr(regs, register, change, byte),
        Op::Modify {
            register,
            change,
            byte,
        } => modify(regs, register, change, byte),
        Op::Put { byte, register } => put(regs, byte, register),
        Op::Jump { on, address } => {
            let then = Regs {
                dsp: address,
                ..*regs
            };
            transfer_to(words, regs, bus, word, on, StepEnd::Ran, then)
        }
        Op::Call { on, address } => {
            let then = Regs {
                temp: regs.dsp,
                dsp: address,
                ..*regs
            };
            transfer_to(words, regs, bus, word, on, StepEnd::Ran, then)
        }
        Op::Return { on } => {
            let then = Regs {
                dsp: regs.temp,
                ..*regs
            };
            transfer_to(words, regs, bus, word, on, StepEnd::Ran, then)
        }
        Op::Int { on, vector } => {
            let mut then = *regs;
            let how = stop(&mut then, Cause::Sir(vector));
            transfer_to(words, regs, bus, word, on, how, then)
        }
        Op::IntFly { on } => {
            let then = Regs {
                intf: true,
                ..*regs
            };
            transfer_to(words, regs, bus, word, on, StepEnd::Ran, then)
        }
        Op::Nop => StepEnd::Ran,
        Op::MoveMemory {
            count,
            source,
            target,
        } => move_memory(words, regs, bus, count, source, target),
        Op::Load {
            register,
            count,
            place,
        } => load(words, regs, bus, register, count, place),
        Op::Store {
            register,
            count,
            place,
        } => store(words, regs, bus, register, count, place),
    }
}

/// Makes one step of the chip, with the word by which the target chooses: fetches the instruction at DSP, and does
/// what its row says. Total: from any words, any registers and any bus.
///
/// `Idle` comes exactly where the chip is stopped, or stands at WAIT RESELECT without a connection and without SIGP
/// and nobody reselects; then nothing has changed. `Stopped` carries the cause that this step stops for.
pub fn step<B: Bus>(words: &mut Words, regs: &mut Regs, bus: &mut B, word: u32) -> StepEnd
    ensures does { ChipStep B.moves word (state words.old regs.old bus.old) result (state words.new regs.new bus.new) }
    ensures size { length words.new ≡ length words.old }
    ensures stopped { is_stopped regs.old ≡ true → result ≡ StepEnd.Idle }
    ensures idle { result ≡ StepEnd.Idle → Rests B.moves word (state words.old regs.old bus.old)
        × (state words.new regs.new bus.new ≡ state words.old regs.old bus.old) }
{
    if regs.is_stopped() {
        return StepEnd::Idle;
    }
    if !can_read(words, regs) {
        return stop(regs, Cause::Bf);
    }
    let before = *regs;
    let first = words.word(regs.dsp);
    let second = words.word(regs.dsp + 4);
    let third = third_word(words, regs);
    regs.dcmd = (first / 0x100_0000) as u8;
    regs.dbc = first % 0x100_0000;
    regs.dsps = second;
    regs.dsp += len_from(first);
    match decode(first, second, third) {
        None => stop(regs, Cause::Iid),
        Some(op) => execute(words, regs, bus, word, op, before),
    }
}

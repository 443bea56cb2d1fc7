//! SELECT, WAIT DISCONNECT, WAIT RESELECT, SET and CLEAR.

ghost use Rattle.std.specs.Prelude.{◌≡◌, ◌≢◌, ◌<◌};
ghost use Rattle.chip_step.specs.Chip.{state};
ghost use Rattle.chip_step.specs.Connection.{AssertsAtn, ReleasesAck, Sets, Clears, Waits, Selects, SettlesAs, Reselects, IsUncalled, reselected_by};
ghost use Rattle.chip_step.specs.declared.scsi_bus.Settled.{Settled};

use crate::addresses::place;
use crate::block::release_atn;
use crate::outcome::{StepEnd, stop};
use crate::scsi_bus::{Bus, Settled};
use bench_words::Words;
use chip_regs::{Cause, Regs};

/// SET: ATN. To set ACK changes nothing.
pub fn set<B: Bus>(words: &Words, regs: &Regs, bus: &mut B, ack: bool, atn: bool) -> StepEnd
    ensures does { Sets B.moves ack atn (state words.now regs.now bus.old) result (state words.now regs.now bus.new) }
    ensures not_idle { result ≢ StepEnd.Idle }
{
    if atn {
        bus.set_atn(true);
    }
    StepEnd::Ran
}

fn release_ack<B: Bus>(bus: &mut B, on: bool)
    ensures { ReleasesAck B.moves on bus.old bus.new }
{
    if on {
        bus.clear_ack();
    }
}

/// CLEAR: ATN first, then ACK.
pub fn clear<B: Bus>(words: &Words, regs: &Regs, bus: &mut B, ack: bool, atn: bool) -> StepEnd
    ensures does { Clears B.moves ack atn (state words.now regs.now bus.old) result (state words.now regs.now bus.new) }
    ensures not_idle { result ≢ StepEnd.Idle }
{
    release_atn(bus, atn);
    release_ack(bus, ack);
    StepEnd::Ran
}

/// WAIT DISCONNECT.
pub fn wait_disconnect<B: Bus>(words: &Words, regs: &mut Regs, bus: &mut B, word: u32) -> StepEnd
    ensures does { Waits B.moves word (state words.now regs.old bus.old) result (state words.now regs.new bus.new) }
    ensures not_idle { result ≢ StepEnd.Idle }
{
    if bus.leave(word) {
        regs.con = false;
        StepEnd::Ran
    } else {
        regs.dbc = 0;
        stop(regs, Cause::Ma)
    }
}

// A target is connected that has reselected the chip.
fn connect(regs: &mut Regs, target: u8)
    requires { target < 8 }
    ensures { regs.new ≡ reselected_by target regs.old }
{
    regs.con = true;
    regs.ssid = 0x80 + target;
}

/// WAIT RESELECT. `before` are the registers before the fetch, which stand again where nobody reselects.
pub fn wait_reselect<B: Bus>(
    words: &Words,
    regs: &mut Regs,
    bus: &mut B,
    word: u32,
    alternate: u32,
    before: Regs,
) -> StepEnd
    ensures does { Reselects B.moves word alternate (state words.now before bus.old) (state words.now regs.old bus.old) result
        (state words.now regs.new bus.new) }
    ensures idle { result ≡ StepEnd.Idle → IsUncalled B.moves word (state words.now regs.old bus.old) }
{
    if regs.con {
        return stop(regs, Cause::Iid);
    }
    if regs.sigp {
        regs.dsp = alternate;
        return StepEnd::Ran;
    }
    match bus.reselect(word) {
        Some(target) => {
            connect(regs, target);
            StepEnd::Ran
        }
        None => {
            *regs = before;
            StepEnd::Idle
        }
    }
}

// SELECT with the registers that the table word gave.
fn settle<B: Bus>(words: &Words, regs: &mut Regs, bus: &mut B, word: u32, alternate: u32) -> StepEnd
    ensures does { (settled : Settled) × SettlesAs B.moves word settled alternate regs.old (state words.now regs.old bus.old) result
        (state words.now regs.new bus.new) }
    ensures not_idle { result ≢ StepEnd.Idle }
{
    match bus.select(regs.sdid, word) {
        Settled::Selected => {
            regs.con = true;
            bus.set_atn(true);
            StepEnd::Ran
        }
        Settled::Reselected(target) => {
            connect(regs, target);
            regs.dsp = alternate;
            StepEnd::Ran
        }
        Settled::TimedOut => stop(regs, Cause::Sto),
    }
}

/// SELECT.
pub fn select<B: Bus>(
    words: &Words,
    regs: &mut Regs,
    bus: &mut B,
    word: u32,
    offset: i32,
    alternate: u32,
) -> StepEnd
    ensures does { Selects B.moves word offset alternate (state words.now regs.old bus.old) result
        (state words.now regs.new bus.new) }
    ensures not_idle { result ≢ StepEnd.Idle }
{
    if regs.con {
        return stop(regs, Cause::Iid);
    }
    let Some(at) = place(words, regs.dsa, offset, 4) else {
        return stop(regs, Cause::Bf);
    };
    let table = words.word(at);
    regs.scntl3 = (table / 0x100_0000) as u8;
    regs.sdid = (table / 0x1_0000 % 0x100) as u8;
    regs.sxfer = (table / 0x100 % 0x100) as u8;
    settle(words, regs, bus, word, alternate)
}

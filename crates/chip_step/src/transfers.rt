//! Transfers of control.

ghost use Rattle.std.specs.Prelude.{◌≡◌, ◌≢◌};
ghost use Rattle.chip_step.specs.Chip.{state};
ghost use Rattle.chip_step.specs.Transfers.{Decides, Transfers, unless_not, is_phase, is_byte};

use crate::block::ask;
use crate::outcome::{StepEnd, stop};
use crate::scsi_bus::Bus;
use bench_words::Words;
use chip_regs::{Cause, Regs};
use scripts_ops::Condition;
use scsi_words::Phase;

fn turned(not: bool, same: bool) -> bool
    ensures { result ≡ unless_not not same }
{
    if not { !same } else { same }
}

fn shows(code: u8, shown: Option<Phase>) -> bool
    ensures { result ≡ is_phase code shown }
{
    match shown {
        None => false,
        Some(shown) => shown.code() == code,
    }
}

fn matches_byte(mask: u8, value: u8, sfbr: u8) -> bool
    ensures { result ≡ is_byte mask value sfbr }
{
    sfbr & (255 - mask) == value
}

/// Whether the condition holds; `None` on a free bus.
fn decide<B: Bus>(bus: &mut B, word: u32, on: Condition, sfbr: u8) -> Option<bool>
    ensures { Decides B.moves word on sfbr bus.old result bus.new }
{
    match on {
        Condition::Always => Some(true),
        Condition::Byte { not, mask, value } => Some(turned(not, matches_byte(mask, value, sfbr))),
        Condition::Phase {
            when: true,
            not,
            code,
        } => match ask(bus, word) {
            None => None,
            Some(shown) => Some(turned(not, shows(code, Some(shown)))),
        },
        Condition::Phase {
            when: false,
            not,
            code,
        } => Some(turned(not, shows(code, bus.shown()))),
    }
}

/// Ends the step as given, with the registers `then`, where the condition holds.
pub fn transfer_to<B: Bus>(
    words: &Words,
    regs: &mut Regs,
    bus: &mut B,
    word: u32,
    on: Condition,
    how: StepEnd,
    then: Regs,
) -> StepEnd
    requires { how ≢ StepEnd.Idle }
    ensures does { Transfers B.moves word on how then (state words.now regs.old bus.old) result
        (state words.now regs.new bus.new) }
    ensures not_idle { result ≢ StepEnd.Idle }
{
    match decide(bus, word, on, regs.sfbr) {
        None => stop(regs, Cause::Udc),
        Some(true) => {
            *regs = then;
            how
        }
        Some(false) => StepEnd::Ran,
    }
}

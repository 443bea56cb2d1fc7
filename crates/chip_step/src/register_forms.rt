//! The register forms: a byte from SFBR, from a register or from the instruction, to SFBR or to a register.

ghost use Rattle.std.specs.Prelude.{◌≡◌, IsTrue};
ghost use Rattle.scripts_ops.specs.Table.{is_written, is_read};
ghost use Rattle.chip_regs.specs.Registers.{byte_at, written, after_read};
ghost use Rattle.chip_step.specs.Instructions.{changed};

use crate::outcome::StepEnd;
use chip_regs::Regs;
use scripts_ops::Change;

fn change(by: Change, a: u8, b: u8) -> u8
    ensures { result ≡ changed by a b }
{
    match by {
        Change::Or => a | b,
        Change::And => a & b,
        Change::Add => ((a as u16 + b as u16) % 256) as u8,
    }
}

/// MOVE a byte TO a register.
#[tactic(auto, using(crate::proofs::Places::written_place))]
pub fn put(regs: &mut Regs, byte: u8, register: u8) -> StepEnd
    requires { IsTrue (is_written register) }
    ensures written { regs.new ≡ written register byte regs.old }
    ensures end { result ≡ StepEnd.Ran }
{
    regs.write(register, byte);
    StepEnd::Ran
}

/// MOVE SFBR, changed by a byte, TO a register.
pub fn from_sfbr(regs: &mut Regs, by: Change, byte: u8, register: u8) -> StepEnd
    requires { IsTrue (is_written register) }
    ensures end { result ≡ StepEnd.Ran }
    ensures written { regs.new ≡ written register (changed by regs.old.sfbr byte) regs.old }
{
    let b = change(by, regs.sfbr, byte);
    put(regs, b, register)
}

/// MOVE a register, changed by a byte, TO SFBR.
#[tactic(auto, using(crate::proofs::Places::read_place))]
pub fn to_sfbr(regs: &mut Regs, register: u8, by: Change, byte: u8) -> StepEnd
    requires { IsTrue (is_read register) }
    ensures end { result ≡ StepEnd.Ran }
    ensures read { regs.new ≡ record (after_read register regs.old) { sfbr = changed by (byte_at register regs.old) byte } }
{
    let read = regs.read(register);
    regs.sfbr = change(by, read, byte);
    StepEnd::Ran
}

/// MOVE a register, changed by a byte, TO that register.
#[tactic(auto, using(crate::proofs::Places::written_place))]
pub fn modify(regs: &mut Regs, register: u8, by: Change, byte: u8) -> StepEnd
    requires { IsTrue (is_written register) }
    ensures end { result ≡ StepEnd.Ran }
    ensures written { regs.new ≡ written register (changed by (byte_at register regs.old) byte) regs.old }
{
    let b = change(by, regs.byte(register), byte);
    put(regs, b, register)
}

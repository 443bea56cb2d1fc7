//! Whether an instruction's fields are in the ranges of its row of the table.
ghost use Rattle.std.specs.Prelude.{◌≡◌, ℕ, ◌↔◌, ◌≤◌, ◌<◌, IsTrue};
ghost use Rattle.scripts_ops.specs.Table.{row, IsOffset, IsPhase, IsCondition, IsPart, IsAddress, is_wide, is_written, is_read};
ghost use Rattle.scripts_ops.specs.Fields.{is_phase};

use crate::values::{Address, Condition, Op};

/// Whether a phase has this code: one below 8 but 4 and 5.
pub fn is_phase(code: u8) -> bool
    ensures phase { IsTrue result ↔ IsPhase code }
    ensures test { result ≡ is_phase code }
{
    code < 8 && !(code == 4 || code == 5)
}

fn is_offset(offset: i32) -> bool
    ensures { IsTrue result ↔ IsOffset offset }
{
    offset >= -0x80_0000 && offset < 0x80_0000
}

fn is_condition(on: Condition) -> bool
    ensures { IsTrue result ↔ IsCondition on }
{
    match on {
        Condition::Always => true,
        Condition::Phase { code, .. } => is_phase(code),
        Condition::Byte { mask, value, .. } => mask & value == 0,
    }
}

/// Whether a register of four bytes has this place.
pub fn is_wide(r: u8) -> bool
    ensures { result ≡ is_wide r }
{
    matches!(r, 0x10..=0x13 | 0x1c..=0x1f | 0x34..=0x37 | 0x5c..=0x5f)
}

/// Whether a register form writes this place.
pub fn is_written(r: u8) -> bool
    ensures { result ≡ is_written r }
{
    matches!(r, 0x00 | 0x03 | 0x05 | 0x06 | 0x08) || is_wide(r)
}

/// Whether a register form reads this place.
pub fn is_read(r: u8) -> bool
    ensures { result ≡ is_read r }
{
    is_written(r) || r == 0x0a || r == 0x1a
}

fn is_part(r: u8, count: u8) -> bool
    ensures { IsTrue result ↔ IsPart r count }
{
    is_wide(r) && count > 0 && count <= 4 && r % 4 + count <= 4
}

fn is_address(place: Address) -> bool
    ensures { IsTrue result ↔ IsAddress place }
{
    match place {
        Address::At(_) => true,
        Address::FromDsa(offset) => is_offset(offset),
    }
}

/// Whether the fields of an instruction are in the ranges of its row of the table, so that `encode` may be called.
pub fn has_fields(op: &Op) -> bool
    ensures { IsTrue result ↔ (row op.now).fields }
{
    match *op {
        Op::Move { count, phase, .. } => is_phase(phase) && count != 0 && count < 0x100_0000,
        Op::MoveFrom { offset, phase } => is_phase(phase) && is_offset(offset),
        Op::Select { offset, .. } => is_offset(offset),
        Op::WaitDisconnect | Op::WaitReselect { .. } | Op::Nop => true,
        Op::Set { ack, atn } => ack || atn,
        Op::Clear { ack, atn } => ack || atn,
        Op::FromSfbr {
            register,
            byte: _byte,
            ..
        } => is_written(register) && register != 8,
        Op::ToSfbr {
            register,
            byte: _byte,
            ..
        } => is_read(register),
        Op::Modify {
            register,
            byte: _byte,
            ..
        } => is_written(register) && register != 8,
        Op::Put {
            register,
            byte: _byte,
        } => is_written(register),
        Op::Jump { on, .. } => is_condition(on),
        Op::Call { on, .. } => is_condition(on),
        Op::Return { on } => is_condition(on),
        Op::Int { on, .. } => is_condition(on),
        Op::IntFly { on } => is_condition(on),
        Op::MoveMemory { count, .. } => count != 0 && count < 0x100_0000,
        Op::Load {
            register,
            count,
            place,
        } => is_part(register, count) && is_address(place),
        Op::Store {
            register,
            count,
            place,
        } => is_part(register, count) && is_address(place),
    }
}

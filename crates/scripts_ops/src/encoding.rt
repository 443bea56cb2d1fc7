//! Instructions to words.
ghost use Rattle.std.specs.Prelude.{◌≡◌, ℕ, ◌+◌, ◌*◌, ◌<◌, ◌≤◌, slice_index};
ghost use Rattle.scripts_ops.specs.Table.{row, Spelled, words_of, word_count, IsOffset, offset_bits, word, condition_code, condition_bits, flags, change_code, register_bits, IsAddress, address_top, address_bits};

use crate::values::{Address, Change, Condition, Op};

/// The words of an instruction: the first `length` of `words`, 2 or 3. The third is 0 where `length` is 2.
#[derive(Clone, Copy, Debug, PartialEq, Eq)]
pub struct Spelling {
    pub words: [u32; 3],
    pub length: u8,
}

fn offset_bits(offset: i32) -> u32
    requires { IsOffset offset }
    ensures bits { result ≡ offset_bits offset }
    ensures most { result < 16777216 }
{
    if offset >= 0 {
        offset as u32
    } else {
        (offset + 0x100_0000) as u32
    }
}

fn condition_word(on: Condition) -> u32
    requires { condition_code on < 8 }
    ensures word { result ≡ word (condition_code on) (condition_bits on) }
    ensures most { result < 0x8000000 }
{
    match on {
        Condition::Always => 0x8_0000,
        Condition::Phase { when, not, code } => {
            let when = if when { 0x1_0000 } else { 0 };
            let not = if not { 0 } else { 0x8_0000 };
            code as u32 * 0x100_0000 + 0x2_0000 + when + not
        }
        Condition::Byte { not, mask, value } => {
            let not = if not { 0 } else { 0x8_0000 };
            0x4_0000 + not + mask as u32 * 0x100 + value as u32
        }
    }
}

fn flag_bits(ack: bool, atn: bool) -> u32
    ensures flags { result ≡ flags ack atn }
    ensures most { result < 0x100 }
{
    let ack = if ack { 0x40 } else { 0 };
    let atn = if atn { 0x08 } else { 0 };
    ack + atn
}

fn change_code(change: Change) -> u32
    ensures code { result ≡ change_code change }
    ensures most { result < 8 }
{
    match change {
        Change::Or => 2,
        Change::And => 4,
        Change::Add => 6,
    }
}

fn address_bits(place: Address) -> u32
    requires { IsAddress place }
    ensures { result ≡ address_bits place }
{
    match place {
        Address::At(a) => a,
        Address::FromDsa(offset) => offset_bits(offset),
    }
}

fn address_top(place: Address) -> u32
    ensures top { result ≡ address_top place }
    ensures most { result < 0xf1 }
{
    match place {
        Address::At(_) => 0xe0,
        Address::FromDsa(_) => 0xf0,
    }
}

fn register_bits(register: u8, byte: u8) -> u32
    ensures { result ≡ register_bits register byte }
{
    register as u32 * 0x1_0000 + byte as u32 * 0x100
}

/// The spelling of an instruction, by its row of the table. Its fields are in the ranges of the row
/// (`has_fields` tests it), as those of each instruction that `decode` gives are. Takes no memory.
pub fn encode(op: &Op) -> Spelling
    requires { (row op.now).fields }
    ensures spelled { Spelled (slice_index result.words 0) (slice_index result.words 1)
        (slice_index result.words 2) op.now }
    ensures words { result.words ≡ words_of op.now }
    ensures length { result.length ≡ word_count op.now }
{
    let (first, second, third) = match *op {
        Op::Move {
            count,
            address,
            phase,
        } => ((0x08 + phase as u32) * 0x100_0000 + count, address, 0),
        Op::MoveFrom { offset, phase } => (
            (0x18 + phase as u32) * 0x100_0000,
            offset_bits(offset),
            0,
        ),
        Op::Select { offset, alternate } => (0x4300_0000 + offset_bits(offset), alternate, 0),
        Op::WaitDisconnect => (0x4800_0000, 0, 0),
        Op::WaitReselect { alternate } => (0x5000_0000, alternate, 0),
        Op::Set { ack, atn } => (0x5800_0000 + flag_bits(ack, atn), 0, 0),
        Op::Clear { ack, atn } => (0x6000_0000 + flag_bits(ack, atn), 0, 0),
        Op::FromSfbr {
            change,
            byte,
            register,
        } => (
            (0x68 + change_code(change)) * 0x100_0000 + register_bits(register, byte),
            0,
            0,
        ),
        Op::ToSfbr {
            register,
            change,
            byte,
        } => (
            (0x70 + change_code(change)) * 0x100_0000 + register_bits(register, byte),
            0,
            0,
        ),
        Op::Modify {
            register,
            change,
            byte,
        } => (
            (0x78 + change_code(change)) * 0x100_0000 + register_bits(register, byte),
            0,
            0,
        ),
        Op::Put { byte, register } => (0x7800_0000 + register_bits(register, byte), 0, 0),
        Op::Jump { on, address } => (0x8000_0000 + condition_word(on), address, 0),
        Op::Call { on, address } => (0x8800_0000 + condition_word(on), address, 0),
        Op::Return { on } => (0x9000_0000 + condition_word(on), 0, 0),
        Op::Int { on, vector } => (0x9800_0000 + condition_word(on), vector, 0),
        Op::IntFly { on } => (0x9810_0000 + condition_word(on), 0, 0),
        Op::Nop => (0x8000_0000, 0, 0),
        Op::MoveMemory {
            count,
            source,
            target,
        } => (0xc000_0000 + count, source, target),
        Op::Load {
            register,
            count,
            place,
        } => (
            (address_top(place) + 1) * 0x100_0000 + register as u32 * 0x1_0000 + count as u32,
            address_bits(place),
            0,
        ),
        Op::Store {
            register,
            count,
            place,
        } => (
            address_top(place) * 0x100_0000 + register as u32 * 0x1_0000 + count as u32,
            address_bits(place),
            0,
        ),
    };
    let length = if matches!(op, Op::MoveMemory { .. }) {
        3
    } else {
        2
    };
    Spelling {
        words: [first, second, third],
        length,
    }
}

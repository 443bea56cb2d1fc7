//! The text of an instruction.
ghost use Rattle.std.specs.Prelude.{◌≡◌, ℕ, ◌<◌, ◌^◌, ◌++◌, ◌∷◌, IsTrue, IfOk, drop, string_bytes};
ghost use Rattle.scripts_list.specs.Texts as spec;
ghost use Rattle.scripts_list.specs.Filled.{are_ascii};
ghost use Rattle.scripts_ops.specs.Table.{row, offset_bits, IsOffset, IsAddress};

use scripts_forms::{Flags, Item, On, Shape, items, spelling};
use scripts_ops::{Address, Condition, Op};
use std::alloc::{AllocError, Global};
use std::fmt::Write;

/// `AND MASK` is shown only where the mask isn't 0.
fn on_of(on: Condition) -> On
    ensures { result ≡ spec.on_of on }
{
    match on {
        Condition::Always => On::Always,
        Condition::Phase { when, not, code } => On::Phase { when, not, code },
        Condition::Byte { not, mask, .. } => On::Byte {
            not,
            masked: 0 < mask,
        },
    }
}

fn flags_of(ack: bool, atn: bool) -> Flags
    ensures { result ≡ spec.flags_of ack atn }
{
    match (ack, atn) {
        (true, true) => Flags::Both,
        (true, false) => Flags::Ack,
        (false, _) => Flags::Atn,
    }
}

fn is_from_dsa(place: Address) -> bool
    ensures { result ≡ spec.is_from_dsa place }
{
    matches!(place, Address::FromDsa(_))
}

/// The form that shows an instruction.
fn shape_of(op: &Op) -> Shape
    ensures { result ≡ spec.shape_of op.now }
{
    match *op {
        Op::Move { phase, .. } => Shape::Move { phase },
        Op::MoveFrom { phase, .. } => Shape::MoveFrom { phase },
        Op::Select { .. } => Shape::Select,
        Op::WaitDisconnect => Shape::WaitDisconnect,
        Op::WaitReselect { .. } => Shape::WaitReselect,
        Op::Set { ack, atn } => Shape::Set {
            flags: flags_of(ack, atn),
        },
        Op::Clear { ack, atn } => Shape::Clear {
            flags: flags_of(ack, atn),
        },
        Op::FromSfbr {
            change,
            register,
            ..
        } => Shape::Modify {
            from: 8,
            change,
            to: register,
        },
        Op::ToSfbr {
            register,
            change,
            ..
        } => Shape::Modify {
            from: register,
            change,
            to: 8,
        },
        Op::Modify {
            register,
            change,
            ..
        } => Shape::Modify {
            from: register,
            change,
            to: register,
        },
        Op::Put { register, .. } => Shape::Put { to: register },
        Op::Jump { on, .. } => Shape::Jump { on: on_of(on) },
        Op::Call { on, .. } => Shape::Call { on: on_of(on) },
        Op::Return { on } => Shape::Return { on: on_of(on) },
        Op::Int { on, .. } => Shape::Int { on: on_of(on) },
        Op::IntFly { on } => Shape::IntFly { on: on_of(on) },
        Op::Nop => Shape::Nop,
        Op::MoveMemory { .. } => Shape::MoveMemory,
        Op::Load {
            register,
            place,
            ..
        } => Shape::Load {
            register,
            from_dsa: is_from_dsa(place),
        },
        Op::Store {
            register,
            place,
            ..
        } => Shape::Store {
            register,
            from_dsa: is_from_dsa(place),
        },
    }
}

/// A signed offset as its 24 bits.
fn bits_of(offset: i32) -> u32
    requires { IsOffset offset }
    ensures { result ≡ offset_bits offset }
{
    if offset >= 0 {
        offset as u32
    } else {
        (offset + 0x100_0000) as u32
    }
}

fn push_condition(values: &mut Vec<u32>, on: Condition) -> Result<(), AllocError>
    ensures { IfOk result (λ _. values.new.items ≡ values.old.items ++ spec.condition_values on) }
{
    if let Condition::Byte { mask, value, .. } = on {
        values.push(value as u32)?;
        if 0 < mask {
            values.push(mask as u32)?;
        }
    }
    Ok(())
}

fn place_value(place: Address) -> u32
    requires { IsAddress place }
    ensures { result ≡ spec.place_value place }
{
    match place {
        Address::At(a) => a,
        Address::FromDsa(offset) => bits_of(offset),
    }
}

fn transfer_values(alloc: Global, front: &[u32], on: Condition) -> Result<Vec<u32>, AllocError>
    ensures { IfOk result (λ values. values.items ≡ front.now ++ spec.condition_values on) }
{
    let mut values = front.to_vec(alloc)?;
    push_condition(&mut values, on)?;
    Ok(values)
}

/// The numbers that an instruction shows, in order.
fn values_of(alloc: Global, op: &Op) -> Result<Vec<u32>, AllocError>
    requires { (row op.now).fields }
    ensures { IfOk result (λ values. values.items ≡ spec.values_of op.now) }
{
    match *op {
        Op::Move { count, address, .. } => Vec::from_slice(alloc, &[count, address]),
        Op::MoveFrom { offset, .. } => Vec::from_slice(alloc, &[bits_of(offset)]),
        Op::Select { offset, alternate } => Vec::from_slice(alloc, &[bits_of(offset), alternate]),
        Op::WaitReselect { alternate } => Vec::from_slice(alloc, &[alternate]),
        Op::WaitDisconnect | Op::Set { .. } | Op::Clear { .. } | Op::Nop => Ok(Vec::new(alloc)),
        Op::FromSfbr { byte, .. } => Vec::from_slice(alloc, &[byte as u32]),
        Op::ToSfbr { byte, .. } => Vec::from_slice(alloc, &[byte as u32]),
        Op::Modify { byte, .. } => Vec::from_slice(alloc, &[byte as u32]),
        Op::Put { byte, .. } => Vec::from_slice(alloc, &[byte as u32]),
        Op::Jump { on, address } => transfer_values(alloc, &[address], on),
        Op::Call { on, address } => transfer_values(alloc, &[address], on),
        Op::Return { on } => transfer_values(alloc, &[], on),
        Op::Int { on, vector } => transfer_values(alloc, &[vector], on),
        Op::IntFly { on } => transfer_values(alloc, &[], on),
        Op::MoveMemory {
            count,
            source,
            target,
        } => Vec::from_slice(alloc, &[count, source, target]),
        Op::Load { count, place, .. } => Vec::from_slice(
            alloc,
            &[count as u32, place_value(place)],
        ),
        Op::Store { count, place, .. } => Vec::from_slice(
            alloc,
            &[count as u32, place_value(place)],
        ),
    }
}

/// Adds a number: `0x` and lower-case digits.
pub fn push_number(out: &mut String, n: u32) -> Result<(), AllocError>
    ensures { IfOk result (λ _. string_bytes out.new ≡ string_bytes out.old ++ spec.number_text n) }
{
    write!(out, "0x{n:x}")
}

#[tactic(auto, using(crate::proofs::Ascii::ascii_char))]
fn push_mark(out: &mut String, mark: u8) -> Result<(), AllocError>
    requires { mark < 128 }
    ensures { IfOk result (λ _. string_bytes out.new ≡ string_bytes out.old ++ spec.mark_text mark) }
{
    if mark != b',' {
        out.push_str(" ")?;
    }
    out.push(char::from(mark))
}

/// Adds items with their values, each behind a blank.
#[tactic(auto, using(crate::proofs::Ascii::rest_ascii))]
fn push_items(out: &mut String, mut items: &[Item], mut values: &[u32]) -> Result<(), AllocError>
    requires { IsTrue (are_ascii items.now) }
    ensures { IfOk result (λ _. string_bytes out.new ≡ string_bytes out.old ++ spec.printed items.entry.now values.entry.now) }
{
    while let [item, more @ ..] = items {
        match *item {
            Item::Fixed(word) => {
                out.push_str(" ")?;
                out.push_str(spelling(word))?;
            }
            Item::Mark(mark) => push_mark(out, mark)?,
            Item::Value(_) => {
                let [value, rest @ ..] = values else {
                    return Ok(());
                };
                out.push_str(" ")?;
                push_number(out, *value)?;
                values = rest;
            }
        }
        items = more;
    }
    Ok(())
}

/// Adds the text of an instruction behind a blank.
#[tactic(auto, unfolding(crate::specs::Texts::text_of), using(crate::proofs::Ascii::items_ascii, crate::proofs::Ascii::leading_blank))]
pub fn push_text(out: &mut String, alloc: Global, op: &Op) -> Result<(), AllocError>
    requires { (row op.now).fields }
    ensures { IfOk result (λ _. string_bytes out.new ≡ string_bytes out.old ++ 32 ∷ spec.text_of op.now) }
{
    let items = items(alloc, shape_of(op))?;
    let values = values_of(alloc, op)?;
    push_items(out, items.as_slice(), values.as_slice())
}

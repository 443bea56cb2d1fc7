//! The forms of the instructions, each as a list of items.
ghost use Rattle.std.specs.Prelude.{◌≡◌, ◌++◌, IfOk, ◌∷◌};
ghost use Rattle.scripts_forms.specs.Shapes as spec;

use crate::words::{Key, Word};
use scripts_ops::Change;
use std::alloc::{AllocError, Global};

/// The condition of a transfer without its values: none, a phase that is waited for or compared, or a byte that is
/// compared with a value, under a mask or without one. `code` is a phase code.
#[derive(Clone, Copy)]
pub enum On {
    Always,
    Phase { when: bool, not: bool, code: u8 },
    Byte { not: bool, masked: bool },
}

/// The flags of SET and CLEAR.
#[derive(Clone, Copy)]
pub enum Flags {
    Ack,
    Atn,
    Both,
}

/// The form of an instruction: everything but its values. A phase is its code, a register its place. `from_dsa` says
/// that the place in memory is an offset from DSA.
#[derive(Clone, Copy)]
pub enum Shape {
    Move { phase: u8 },
    MoveFrom { phase: u8 },
    MoveMemory,
    Modify { from: u8, change: Change, to: u8 },
    Put { to: u8 },
    Select,
    WaitDisconnect,
    WaitReselect,
    Set { flags: Flags },
    Clear { flags: Flags },
    Jump { on: On },
    Call { on: On },
    Return { on: On },
    Int { on: On },
    IntFly { on: On },
    Nop,
    Load { register: u8, from_dsa: bool },
    Store { register: u8, from_dsa: bool },
}

/// What a form consists of: a word, a mark, or a value that is at most so much.
#[derive(Clone, Copy)]
pub enum Item {
    Fixed(Word),
    Mark(u8),
    Value(u32),
}

const fn key(key: Key) -> Item
    ensures { result ≡ spec.key key }
{
    Item::Fixed(Word::Key(key))
}

const COMMA: Item = Item::Mark(b',');

const BYTE: Item = Item::Value(0xff);

const OFFSET: Item = Item::Value(0xff_ffff);

const ADDRESS: Item = Item::Value(0xffff_ffff);

fn condition(alloc: Global, on: On) -> Result<Vec<Item>, AllocError>
    ensures { IfOk result (λ items. items.items ≡ spec.condition on) }
{
    match on {
        On::Always => Ok(Vec::new(alloc)),
        On::Phase { when, not, code } => {
            let mut items = vec![in alloc; COMMA, key(if when { Key::When } else { Key::If })]?;
            if not {
                items.push(key(Key::Not))?;
            }
            items.push(Item::Fixed(Word::Phase(code)))?;
            Ok(items)
        }
        On::Byte { not, masked } => {
            let mut items = vec![in alloc; COMMA, key(Key::If)]?;
            if not {
                items.push(key(Key::Not))?;
            }
            items.push(BYTE)?;
            if masked {
                items.extend_from_slice(&[key(Key::And), key(Key::Mask), BYTE])?;
            }
            Ok(items)
        }
    }
}

fn change_mark(change: Change) -> u8
    ensures { result ≡ spec.change_mark change }
{
    match change {
        Change::Or => b'|',
        Change::And => b'&',
        Change::Add => b'+',
    }
}

/// A register as LOAD and STORE write it.
fn wide_word(register: u8) -> Word
    ensures { result ≡ spec.wide_word register }
{
    match register {
        0x10 | 0x1c | 0x34 | 0x5c => Word::Whole(register),
        _ => Word::Register(register),
    }
}

fn flagged(alloc: Global, word: Key, flags: Flags) -> Result<Vec<Item>, AllocError>
    ensures { IfOk result (λ items. items.items ≡ spec.key word ∷ spec.flag_items flags) }
{
    match flags {
        Flags::Ack => Vec::from_slice(alloc, &[key(word), key(Key::Ack)]),
        Flags::Atn => Vec::from_slice(alloc, &[key(word), key(Key::Atn)]),
        Flags::Both => Vec::from_slice(
            alloc,
            &[key(word), key(Key::Ack), key(Key::And), key(Key::Atn)],
        ),
    }
}

fn transfer(alloc: Global, front: &[Item], on: On) -> Result<Vec<Item>, AllocError>
    ensures { IfOk result (λ items. items.items ≡ front.now ++ spec.condition on) }
{
    let mut items = front.to_vec(alloc)?;
    items.extend_from_slice(condition(alloc, on)?.as_slice())?;
    Ok(items)
}

fn pointer(alloc: Global, word: Key, register: u8, from_dsa: bool) -> Result<Vec<Item>, AllocError>
    ensures { IfOk result (λ items. items.items ≡ spec.pointer word register from_dsa) }
{
    let register = Item::Fixed(wide_word(register));
    if from_dsa {
        Vec::from_slice(
            alloc,
            &[
                key(word),
                register,
                COMMA,
                Item::Value(7),
                COMMA,
                key(Key::From),
                OFFSET,
            ],
        )
    } else {
        Vec::from_slice(
            alloc,
            &[key(word), register, COMMA, Item::Value(7), COMMA, ADDRESS],
        )
    }
}

/// The items of a form, in order: at most 9.
pub fn items(alloc: Global, shape: Shape) -> Result<Vec<Item>, AllocError>
    ensures { IfOk result (λ items. items.items ≡ spec.items shape) }
{
    match shape {
        Shape::Move { phase } => Vec::from_slice(
            alloc,
            &[
                key(Key::Move),
                OFFSET,
                COMMA,
                ADDRESS,
                COMMA,
                key(Key::When),
                Item::Fixed(Word::Phase(phase)),
            ],
        ),
        Shape::MoveFrom { phase } => Vec::from_slice(
            alloc,
            &[
                key(Key::Move),
                key(Key::From),
                OFFSET,
                COMMA,
                key(Key::When),
                Item::Fixed(Word::Phase(phase)),
            ],
        ),
        Shape::MoveMemory => Vec::from_slice(
            alloc,
            &[
                key(Key::Move),
                key(Key::Memory),
                OFFSET,
                COMMA,
                ADDRESS,
                COMMA,
                ADDRESS,
            ],
        ),
        Shape::Modify { from, change, to } => Vec::from_slice(
            alloc,
            &[
                key(Key::Move),
                Item::Fixed(Word::Register(from)),
                Item::Mark(change_mark(change)),
                BYTE,
                key(Key::To),
                Item::Fixed(Word::Register(to)),
            ],
        ),
        Shape::Put { to } => Vec::from_slice(
            alloc,
            &[
                key(Key::Move),
                BYTE,
                key(Key::To),
                Item::Fixed(Word::Register(to)),
            ],
        ),
        Shape::Select => Vec::from_slice(
            alloc,
            &[
                key(Key::Select),
                key(Key::Atn),
                key(Key::From),
                OFFSET,
                COMMA,
                ADDRESS,
            ],
        ),
        Shape::WaitDisconnect => Vec::from_slice(alloc, &[key(Key::Wait), key(Key::Disconnect)]),
        Shape::WaitReselect => Vec::from_slice(
            alloc,
            &[key(Key::Wait), key(Key::Reselect), ADDRESS],
        ),
        Shape::Set { flags } => flagged(alloc, Key::Set, flags),
        Shape::Clear { flags } => flagged(alloc, Key::Clear, flags),
        Shape::Jump { on } => transfer(alloc, &[key(Key::Jump), ADDRESS], on),
        Shape::Call { on } => transfer(alloc, &[key(Key::Call), ADDRESS], on),
        Shape::Return { on } => transfer(alloc, &[key(Key::Return)], on),
        Shape::Int { on } => transfer(alloc, &[key(Key::Int), ADDRESS], on),
        Shape::IntFly { on } => transfer(alloc, &[key(Key::IntFly)], on),
        Shape::Nop => Vec::from_slice(alloc, &[key(Key::Nop)]),
        Shape::Load { register, from_dsa } => pointer(alloc, Key::Load, register, from_dsa),
        Shape::Store { register, from_dsa } => pointer(alloc, Key::Store, register, from_dsa),
    }
}

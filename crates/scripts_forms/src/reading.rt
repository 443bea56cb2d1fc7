//! Which form the tokens of an instruction have.
ghost use Rattle.std.specs.Prelude.{◌≡◌, ℕ, ◌+◌, ◌<◌, ◌≤◌, ◌↔◌, length, slice_get, Option, Some, None, IsTrue, IfOk, IfSome};
ghost use Rattle.scripts_forms.specs.Guess as spec;
ghost use Rattle.scripts_forms.specs.Reading.{HasForm, Matches, Takes, is_value as counts_as_value};
ghost use Rattle.scripts_forms.specs.Seen.{seen, all_seen};
ghost use Rattle.scripts_forms.specs.Shapes as shape;
ghost use Rattle.scripts_forms.specs.declared.shapes.Shape.{Shape};

use crate::shapes::{Flags, Item, On, Shape, items};
use crate::tokens::{Token, meant_by};
use crate::words::{Key, Word};
use scripts_ops::Change;
use std::alloc::{AllocError, Global};

fn key_at(tokens: &[Token<'_>], i: usize) -> Option<Key>
    ensures { result ≡ spec.key_of (slice_get (all_seen tokens.now) i) }
{
    if i >= tokens.len() {
        return None;
    }
    match tokens[i] {
        Token::Reserved(Word::Key(key)) => Some(key),
        _ => None,
    }
}

fn phase_at(tokens: &[Token<'_>], i: usize) -> Option<u8>
    ensures { result ≡ spec.phase_of (slice_get (all_seen tokens.now) i) }
{
    if i >= tokens.len() {
        return None;
    }
    match tokens[i] {
        Token::Reserved(Word::Phase(code)) => Some(code),
        _ => None,
    }
}

fn register_at(tokens: &[Token<'_>], i: usize) -> Option<u8>
    ensures { result ≡ spec.register_of (slice_get (all_seen tokens.now) i) }
{
    if i >= tokens.len() {
        return None;
    }
    match tokens[i] {
        Token::Reserved(Word::Register(place)) => Some(place),
        _ => None,
    }
}

fn mark_at(tokens: &[Token<'_>], i: usize) -> u8
    ensures { result ≡ spec.mark_of (slice_get (all_seen tokens.now) i) }
{
    if i >= tokens.len() {
        return 0;
    }
    match tokens[i] {
        Token::Mark(mark) => mark,
        _ => 0,
    }
}

fn known(n: Option<u8>) -> u8
    ensures { result ≡ spec.known n }
{
    n.unwrap_or(0)
}

fn is_not(key: Option<Key>) -> bool
    ensures { result ≡ spec.is_not key }
{
    matches!(key, Some(Key::Not))
}

fn is_when(key: Option<Key>) -> bool
    ensures { result ≡ spec.is_when key }
{
    matches!(key, Some(Key::When))
}

fn is_from(key: Option<Key>) -> bool
    ensures { result ≡ spec.is_from key }
{
    matches!(key, Some(Key::From))
}

fn is_to(key: Option<Key>) -> bool
    ensures { result ≡ spec.is_to key }
{
    matches!(key, Some(Key::To))
}

fn on_from(when: bool, not: bool, code: Option<u8>, masked: bool) -> On
    ensures { result ≡ spec.on_from when not code masked }
{
    match code {
        Some(code) => On::Phase { when, not, code },
        None => On::Byte { not, masked },
    }
}

#[tactic(auto, unfolding(crate::specs::Guess::on_at))]
fn on_at(tokens: &[Token<'_>], i: usize) -> On
    requires { i < 100 }
    ensures { result ≡ spec.on_at (all_seen tokens.now) i }
{
    if tokens.len() <= i {
        return On::Always;
    }
    let not = is_not(key_at(tokens, i + 2));
    let at = if not { i + 3 } else { i + 2 };
    let code = phase_at(tokens, at);
    on_from(
        is_when(key_at(tokens, i + 1)),
        not,
        code,
        at + 1 < tokens.len(),
    )
}

fn change_from(mark: u8) -> Change
    ensures { result ≡ spec.change_from mark }
{
    match mark {
        b'|' => Change::Or,
        b'&' => Change::And,
        _ => Change::Add,
    }
}

fn flags_from(first: Option<Key>, second: Option<Key>) -> Flags
    ensures { result ≡ spec.flags_from first second }
{
    match (first, second) {
        (Some(Key::Atn), _) => Flags::Atn,
        (_, Some(Key::And)) => Flags::Both,
        _ => Flags::Ack,
    }
}

fn wait_from(key: Option<Key>) -> Shape
    ensures { result ≡ spec.wait_from key }
{
    match key {
        Some(Key::Disconnect) => Shape::WaitDisconnect,
        _ => Shape::WaitReselect,
    }
}

fn move_from(register: Option<u8>, tokens: &[Token<'_>]) -> Shape
    ensures { result ≡ spec.move_from register (all_seen tokens.now) }
{
    match register {
        Some(from) => Shape::Modify {
            from,
            change: change_from(mark_at(tokens, 2)),
            to: known(register_at(tokens, 5)),
        },
        None if is_to(key_at(tokens, 2)) => Shape::Put {
            to: known(register_at(tokens, 3)),
        },
        None => Shape::Move {
            phase: known(phase_at(tokens, 6)),
        },
    }
}

fn moved(key: Option<Key>, tokens: &[Token<'_>]) -> Shape
    ensures { result ≡ spec.moved key (all_seen tokens.now) }
{
    match key {
        Some(Key::From) => Shape::MoveFrom {
            phase: known(phase_at(tokens, 5)),
        },
        Some(Key::Memory) => Shape::MoveMemory,
        _ => move_from(register_at(tokens, 1), tokens),
    }
}

fn guess_by(key: Option<Key>, tokens: &[Token<'_>]) -> Option<Shape>
    ensures { result ≡ spec.guessed_by key (all_seen tokens.now) }
{
    let (first, second) = (key_at(tokens, 1), key_at(tokens, 2));
    let shape = match key? {
        Key::Move => moved(first, tokens),
        Key::Select => Shape::Select,
        Key::Wait => wait_from(first),
        Key::Set => Shape::Set {
            flags: flags_from(first, second),
        },
        Key::Clear => Shape::Clear {
            flags: flags_from(first, second),
        },
        Key::Jump => Shape::Jump {
            on: on_at(tokens, 2),
        },
        Key::Call => Shape::Call {
            on: on_at(tokens, 2),
        },
        Key::Return => Shape::Return {
            on: on_at(tokens, 1),
        },
        Key::Int => Shape::Int {
            on: on_at(tokens, 2),
        },
        Key::IntFly => Shape::IntFly {
            on: on_at(tokens, 1),
        },
        Key::Nop => Shape::Nop,
        Key::Load => Shape::Load {
            register: known(register_at(tokens, 1)),
            from_dsa: is_from(key_at(tokens, 5)),
        },
        Key::Store => Shape::Store {
            register: known(register_at(tokens, 1)),
            from_dsa: is_from(key_at(tokens, 5)),
        },
        _ => return None,
    };
    Some(shape)
}

#[tactic(auto, unfolding(crate::specs::Guess::guessed))]
fn guess(tokens: &[Token<'_>]) -> Option<Shape>
    ensures { result ≡ spec.guessed (all_seen tokens.now) }
{
    guess_by(key_at(tokens, 0), tokens)
}

/// Whether a token is a value: a number or a name. Takes no memory.
pub fn is_value(token: Token<'_>) -> bool
    ensures { result ≡ counts_as_value (seen token.entry) }
{
    matches!(token, Token::Number(_) | Token::Name(_))
}

fn same_word(a: Word, b: Word) -> bool
    ensures { IsTrue result ↔ (a ≡ b) }
{
    a == b
}

fn takes(item: Item, token: Token<'_>) -> bool
    ensures { IsTrue result ↔ Takes item (seen token.entry) }
{
    match (item, token) {
        (Item::Fixed(word), Token::Reserved(other)) => same_word(other, meant_by(word)),
        (Item::Mark(mark), Token::Mark(other)) => other == mark,
        (Item::Value(_), Token::Number(_)) => true,
        (Item::Value(_), Token::Name(_)) => true,
        _ => false,
    }
}

fn is_match(mut items: &[Item], mut tokens: &[Token<'_>]) -> bool
    ensures { IsTrue result ↔ Matches items.entry.now (all_seen tokens.entry.now) }
{
    while let [item, more @ ..] = items {
        let [token, rest @ ..] = tokens else {
            return false;
        };
        if !takes(*item, *token) {
            return false;
        }
        items = more;
        tokens = rest;
    }
    tokens.is_empty()
}

/// The form that the tokens have as an instruction; None where they have none.
#[tactic(auto, using(crate::proofs::OneForm::guessed_of_form))]
pub fn shape_of(alloc: Global, tokens: &[Token<'_>]) -> Result<Option<Shape>, AllocError>
    ensures found { IfOk result (λ found. IfSome found (λ shape. HasForm shape (all_seen tokens.now))) }
    ensures only { IfOk result (λ found. (shape : Shape) → HasForm shape (all_seen tokens.now) → found ≡ Some shape) }
{
    match guess(tokens) {
        None => Ok(None),
        Some(shape) => {
            let items = items(alloc, shape)?;
            if is_match(items.as_slice(), tokens) {
                Ok(Some(shape))
            } else {
                Ok(None)
            }
        }
    }
}

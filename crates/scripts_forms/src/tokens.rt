//! A line to its tokens.
ghost use Rattle.std.specs.Prelude.{◌≡◌, ℕ, ◌+◌, ◌<◌, ◌≤◌, length, take, drop, min, nat_eq, Bool, Option, option_map, true, IsTrue, slice_index, IfOk, IfSome, IfNone, List, ◌++◌, ◌∷◌};
ghost use Rattle.std.specs.List.{before_first, list_all, prefix_len};
ghost use Rattle.std.specs.Char.{is_ascii_alphanumeric};
ghost use Rattle.scripts_forms.specs.Tokens as spec;
ghost use Rattle.scripts_forms.specs.Words.{meant, word_of};
ghost use Rattle.scripts_forms.specs.Seen.{seen, all_seen};

use crate::words::{Word, word_of};
use std::alloc::{AllocError, Global};

/// A token of a line. A mark is one of `:`, `,`, `|`, `&`, `+` and `=`. A number of more than 32 bits counts as 2^32.
/// A name has at most 31 letters, digits and `_`, and is no reserved word. `Bad` is what no token has.
#[derive(Clone, Copy)]
pub enum Token<'a> {
    Reserved(Word),
    Mark(u8),
    Number(u64),
    Name(&'a str),
    Bad,
}

/// What each number of more than 32 bits counts as.
const BEYOND: u64 = 0x1_0000_0000;

/// The word that a word means: the name of a register of four bytes means its byte 0.
pub fn meant_by(word: Word) -> Word
    ensures { result ≡ meant word }
{
    match word {
        Word::Whole(place) => Word::Register(place),
        _ => word,
    }
}

fn in_run(b: u8) -> bool
    ensures { result ≡ spec.in_run b }
{
    b.is_ascii_alphanumeric() || b == b'_'
}

fn is_blank(b: u8) -> bool
    ensures { result ≡ spec.is_blank b }
{
    b == b' ' || b == b'\t'
}

fn is_mark(b: u8) -> bool
    ensures { result ≡ spec.is_mark b }
{
    matches!(b, b':' | b',' | b'|' | b'&' | b'+' | b'=')
}

/// How many bytes at the front belong to one run.
fn run_len(bytes: &[u8]) -> usize
    ensures value { result ≡ prefix_len spec.in_run bytes.now }
    ensures within { result ≤ length bytes.now }
    ensures some { (0 < length bytes.now) → spec.in_run (slice_index bytes.now 0) ≡ true → 0 < result }
{
    let mut len = 0;
    while len < bytes.len() && in_run(bytes[len]) {
        len += 1;
    }
    len
}

/// The text before the comment.
fn code_of(line: &str) -> &str
    ensures { result.now ≡ before_first (λ b. nat_eq b 59) line.now }
{
    match line.split_once(';') {
        Some((code, _)) => code,
        None => line,
    }
}

#[tactic(auto, using(crate::proofs::Pieces::numeral_is))]
fn numeral(radix: u32, digits: &[u8]) -> Option<u64>
    requires low { 2 ≤ radix }
    requires high { radix ≤ 16 }
    ensures { result ≡ spec.numeral radix digits.now }
{
    if digits.is_empty() {
        return None;
    }
    numeral_after(radix, digits)
}

fn numeral_after(radix: u32, mut digits: &[u8]) -> Option<u64>
    requires low { 2 ≤ radix }
    requires high { radix ≤ 16 }
    ensures { result ≡ spec.numeral_after radix 0 digits.entry.now }
{
    let mut value: u64 = 0;
    while let [b, rest @ ..] = digits {
        let digit = char::from(*b).to_digit(radix)?;
        value = (value * radix as u64 + digit as u64).min(BEYOND);
        digits = rest;
    }
    Some(value)
}

fn number_of(run: &[u8]) -> Option<u64>
    ensures { result ≡ spec.number_of run.now }
{
    if run.starts_with(b"0x") {
        numeral(16, &run[2..])
    } else {
        numeral(10, run)
    }
}

/// A run that begins with no digit. It is ASCII, so it is text.
#[tactic(auto, using(crate::proofs::Runs::run_is_text))]
fn word_token(run: &[u8]) -> Token<'_>
    requires { IsTrue (list_all spec.in_run run.now) }
    ensures { seen result ≡ spec.word_token (word_of run.now) run.now }
{
    let Ok(name) = str::from_utf8(run) else {
        return Token::Bad;
    };
    match word_of(name) {
        Some(word) => Token::Reserved(meant_by(word)),
        None if name.len() <= 31 => Token::Name(name),
        None => Token::Bad,
    }
}

#[tactic(auto, unfolding(crate::specs::Tokens::run_token))]
fn run_token(run: &[u8]) -> Token<'_>
    requires { IsTrue (list_all spec.in_run run.now) }
    ensures { seen result ≡ spec.run_token run.now }
{
    match run {
        [] => Token::Bad,
        [b'0'..=b'9', ..] => match number_of(run) {
            Some(n) => Token::Number(n),
            None => Token::Bad,
        },
        _ => word_token(run),
    }
}

fn mark_token(b: u8) -> Token<'static>
    ensures { seen result ≡ spec.mark_token b }
{
    if is_mark(b) {
        Token::Mark(b)
    } else {
        Token::Bad
    }
}

/// The first token of a text that isn't empty, if it doesn't begin with a blank, and what is behind it.
#[tactic(auto, using(crate::proofs::Pieces::first_run, crate::proofs::Pieces::first_blank, crate::proofs::Pieces::first_mark, crate::proofs::Runs::prefix_is_run))]
fn first_token(text: &[u8]) -> (Option<Token<'_>>, &[u8])
    requires { 0 < length text.now }
    ensures some { IfSome result.0 (λ token. spec.tokens_in text.now ≡ seen token ∷ spec.tokens_in result.1.now) }
    ensures none { IfNone result.0 (spec.tokens_in text.now ≡ spec.tokens_in result.1.now) }
    ensures shorter { length result.1.now < length text.now }
{
    let b = text[0];
    if in_run(b) {
        let (run, rest) = text.split_at(run_len(text));
        (Some(run_token(run)), rest)
    } else if is_blank(b) {
        (None, &text[1..])
    } else {
        (Some(mark_token(b)), &text[1..])
    }
}

/// The tokens of a text without a comment.
#[tactic(auto, using(crate::proofs::Pieces::tokens_in_none))]
fn tokens_in(alloc: Global, mut text: &[u8]) -> Result<Vec<Token<'_>>, AllocError>
    ensures { IfOk result (λ tokens. all_seen tokens.items ≡ spec.tokens_in text.entry.now) }
{
    let mut tokens = Vec::new(alloc);
    while !text.is_empty() {
        let (token, rest) = first_token(text);
        if let Some(token) = token {
            tokens.push(token)?;
        }
        text = rest;
    }
    Ok(tokens)
}

/// The tokens of a line, its comment left out. `line` has no line feed.
pub fn tokens_of(alloc: Global, line: &str) -> Result<Vec<Token<'_>>, AllocError>
    ensures { IfOk result (λ tokens. all_seen tokens.items ≡ spec.tokens_of line.now) }
{
    tokens_in(alloc, code_of(line).as_bytes())
}

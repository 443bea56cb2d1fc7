//! The second pass: values, faults and words.
ghost use Rattle.std.specs.Prelude.{◌≡◌, ℕ, ◌+◌, ◌*◌, ◌<◌, ◌≤◌, ◌++◌, ◌^◌, List, [], ◌∷◌, length, IfOk, IfErr, IsNone, vec_len, map, Option, true, false, IsTrue, Ok, Err};
ghost use Rattle.scripts_forms.specs.Seen.{seen, all_seen};
ghost use Rattle.scripts_asm.specs.Assembled as spec;
ghost use Rattle.scripts_asm.specs.Ops.{Fits};
ghost use Rattle.scripts_asm.specs.Seen.{seen_body, seen_line, all_lines};
ghost use Rattle.scripts_asm.specs.SeenNames.{giving_in};
ghost use Rattle.scripts_asm.specs.Judging.{GivesJudged, HasLine};
ghost use Rattle.scripts_asm.specs.Image.{seen_labels};
ghost use Rattle.scripts_ops.specs.Table.{row};

use crate::assembling::{Image, Label, Labels};
use crate::faults::Kind;
use crate::lines::{Body, Line};
use crate::making::{allowed, op_of};
use crate::names::{Giving, NameTable, count_given, size_of};
use scripts_forms::{Item, Token, items};
use scripts_ops::{Op, encode};
use scsi_words::{Counts, Text};
use std::alloc::{AllocError, Global};

fn value_of(names: &NameTable<'_>, token: Token<'_>) -> Option<u64>
    ensures { result ≡ spec.value_of (giving_in names.now) (seen token.entry) }
{
    match token {
        Token::Number(n) => Some(n),
        Token::Name(name) => names.find(name).map(|first| first.value),
        _ => None,
    }
}

fn fits_in(most: u32, n: Option<u64>) -> Option<u32>
    ensures { result ≡ spec.fits_in most n }
{
    match n {
        Some(n) if n <= most as u64 => Some(n as u32),
        _ => None,
    }
}

fn numbers(
    alloc: Global,
    names: &NameTable<'_>,
    mut items: &[Item],
    mut values: &[Token<'_>],
) -> Result<Vec<Option<u32>>, AllocError>
    ensures { IfOk result (λ numbers. numbers.items ≡ spec.numbers (giving_in names.now) items.entry.now (all_seen values.entry.now)) }
{
    let mut numbers = Vec::new(alloc);
    while let [item, more @ ..] = items {
        if let Item::Value(most) = *item {
            let [value, rest @ ..] = values else {
                return Ok(numbers);
            };
            numbers.push(fits_in(most, value_of(names, *value)))?;
            values = rest;
        }
        items = more;
    }
    Ok(numbers)
}

/// The numbers of the values that are known and fit their fields.
fn numbers_of(
    alloc: Global,
    names: &NameTable<'_>,
    body: &Body<'_>,
) -> Result<Vec<Option<u32>>, AllocError>
    ensures { IfOk result (λ numbers. numbers.items ≡ spec.numbers_of (giving_in names.now) (seen_body body.now)) }
{
    match body {
        Body::Instruction { shape, values } => {
            let items = items(alloc, *shape)?;
            numbers(alloc, names, items.as_slice(), values.as_slice())
        }
        _ => Ok(Vec::new(alloc)),
    }
}

fn is_unknown(names: &NameTable<'_>, mut values: &[Token<'_>]) -> bool
    ensures { result ≡ spec.is_unknown (giving_in names.now) (all_seen values.entry.now) }
{
    while let [value, rest @ ..] = values {
        if value_of(names, *value).is_none() {
            return true;
        }
        values = rest;
    }
    false
}

fn all_known(mut numbers: &[Option<u32>]) -> bool
    ensures { result ≡ spec.all_known numbers.entry.now }
{
    while let [number, rest @ ..] = numbers {
        if number.is_none() {
            return false;
        }
        numbers = rest;
    }
    true
}

fn is_again(place: u64, first: Option<Giving>) -> bool
    ensures { result ≡ spec.is_again place first }
{
    match first {
        Some(first) => first.place < place,
        None => false,
    }
}

/// Whether a line gives a name that was given before.
fn is_twice(names: &NameTable<'_>, place: u64, line: &Line<'_>) -> bool
    requires { place + 2 < 2 ^ 64 }
    ensures { result ≡ spec.is_twice (giving_in names.now) place (spec.names_given (seen_line line.now)) }
{
    let mut place = place;
    let mut twice = false;
    if let Some(name) = line.label {
        twice = is_again(place, names.find(name));
        place += 1;
    }
    if let Body::Absolute { name, .. } = &line.body {
        twice = twice || is_again(place, names.find(*name));
    }
    twice
}

fn has_bad_form(body: &Body<'_>, numbers: &[Option<u32>]) -> bool
    ensures { result ≡ spec.has_bad_form (seen_body body.now) numbers.now }
{
    match body {
        Body::BadForm => true,
        Body::Instruction { shape, .. } => !allowed(*shape, numbers),
        _ => false,
    }
}

fn has_unknown(names: &NameTable<'_>, body: &Body<'_>) -> bool
    ensures { result ≡ spec.has_unknown (giving_in names.now) (seen_body body.now) }
{
    match body {
        Body::Instruction { values, .. } => is_unknown(names, values.as_slice()),
        _ => false,
    }
}

fn has_wide(body: &Body<'_>, numbers: &[Option<u32>]) -> bool
    ensures { result ≡ spec.has_wide (seen_body body.now) numbers.now }
{
    match body {
        Body::Absolute { value, .. } => *value >= 0x1_0000_0000,
        Body::Instruction { .. } => !all_known(numbers),
        _ => false,
    }
}

fn is_bad_token(body: &Body<'_>) -> bool
    ensures { result ≡ spec.is_bad_token (seen_body body.now) }
{
    matches!(body, Body::BadToken)
}

fn is_instruction(body: &Body<'_>) -> bool
    ensures { result ≡ spec.is_instruction (seen_body body.now) }
{
    matches!(body, Body::Instruction { .. })
}

/// The fault of a line that counts, behind `count` instructions. `place` is that of its first name.
fn fault_of(
    names: &NameTable<'_>,
    place: u64,
    count: u32,
    line: &Line<'_>,
    numbers: &[Option<u32>],
) -> Option<Kind>
    requires place { place + 2 < 2 ^ 64 }
    requires count { count ≤ 1024 }
    ensures fault { result ≡ spec.fault_by (giving_in names.now) place count (seen_line line.now) numbers.now }
    ensures few { IsNone result → count + spec.one_if (spec.is_instruction (seen_body line.now.body)) ≤ 1024 }
{
    if is_bad_token(&line.body) {
        return Some(Kind::BadToken);
    }
    if has_bad_form(&line.body, numbers) {
        return Some(Kind::BadForm);
    }
    if is_twice(names, place, line) {
        return Some(Kind::TwiceLabel);
    }
    if has_unknown(names, &line.body) {
        return Some(Kind::UnknownLabel);
    }
    if has_wide(&line.body, numbers) {
        return Some(Kind::TooWide);
    }
    if is_instruction(&line.body) && count >= 1024 {
        return Some(Kind::TooLong);
    }
    None
}

fn push_words(words: &mut Vec<u32>, op: &Op) -> Result<(), AllocError>
    requires { (row op.now).fields }
    ensures { IfOk result (λ _. words.new.items ≡ words.old.items ++ spec.words_of_op op.now) }
{
    let spelling = encode(op);
    words.push(spelling.words[0])?;
    words.push(spelling.words[1])?;
    if spelling.length == 3 {
        words.push(spelling.words[2])?;
    }
    Ok(())
}

/// Adds the words of a line without a fault.
fn push_line(
    words: &mut Vec<u32>,
    body: &Body<'_>,
    numbers: &[Option<u32>],
) -> Result<(), AllocError>
    requires fits { Fits (seen_body body.now) numbers.now }
    requires form { spec.has_bad_form (seen_body body.now) numbers.now ≡ false }
    requires wide { spec.has_wide (seen_body body.now) numbers.now ≡ false }
    ensures { IfOk result (λ _. words.new.items ≡ words.old.items ++ spec.words_of (seen_body body.now) numbers.now) }
{
    if let Body::Instruction { shape, .. } = body {
        let op = op_of(*shape, numbers);
        push_words(words, &op)?;
    }
    Ok(())
}

/// Adds the label of a line.
fn push_label(
    alloc: Global,
    labels: &mut Vec<Label>,
    address: u32,
    line: &Line<'_>,
) -> Result<(), AllocError>
    ensures { IfOk result (λ _. seen_labels labels.new.items ≡ seen_labels labels.old.items ++ spec.label_given (seen_line line.now).label address) }
{
    if let Some(name) = line.label {
        let name = Text::of(String::from_str(alloc, name)?);
        labels.push(Label { name, address })?;
    }
    Ok(())
}

/// A fault of a line, or want of memory.
#[derive(Drop)]
pub enum Stop {
    Fault { line: u32, kind: Kind },
    OutOfMemory,
}

impl From<AllocError> for Stop {
    ghost use Rattle.scripts_asm.specs.declared.judging.Stop.TheVariants.{OutOfMemory};

    ghost from_gives = { λ _ e. e ≡ OutOfMemory };

    fn from(_: AllocError) -> Self {
        Stop::OutOfMemory
    }
}

/// The image of the lines, or their first fault.
pub fn judge<'a>(
    alloc: Global,
    names: &NameTable<'a>,
    mut lines: &[Line<'a>],
) -> Result<Image, Stop>
    requires { length lines.now < 2 ^ 32 }
    ensures judged { GivesJudged result (spec.judged (giving_in names.now) 0 0 1 (all_lines lines.entry.now)) (all_lines lines.entry.now) }
    ensures line { IfErr result HasLine }
{
    let mut words = Vec::new(alloc);
    let mut labels = Vec::new(alloc);
    let mut place: u64 = 0;
    let mut address: u64 = 0;
    let mut count: u32 = 0;
    let mut line_number: u64 = 1;
    while let [line, rest @ ..] = lines {
        let known = numbers_of(alloc, names, &line.body)?;
        let numbers = known.as_slice();
        if let Some(kind) = fault_of(names, place, count, line, numbers) {
            return Err(Stop::Fault {
                line: line_number as u32,
                kind,
            });
        }
        push_line(&mut words, &line.body, numbers)?;
        push_label(alloc, &mut labels, address as u32, line)?;
        place += count_given(line);
        address += size_of(&line.body);
        if is_instruction(&line.body) {
            count += 1;
        }
        line_number += 1;
        lines = rest;
    }
    Ok(Image {
        words: Counts::of(words),
        labels: Labels::of(labels),
    })
}

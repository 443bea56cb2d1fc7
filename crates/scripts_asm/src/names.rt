//! The first pass: the names that the lines give.
ghost use Rattle.std.specs.Prelude.{◌≡◌, ℕ, List, ◌+◌, ◌*◌, ◌^◌, ◌<◌, ◌≤◌, [], ◌∷◌, length, IfOk, Option, None};
ghost use Rattle.std.specs.Option.{option_or};
ghost use Rattle.scripts_asm.specs.Assembled as spec;
ghost use Rattle.scripts_asm.specs.Seen.{seen_body, seen_line, all_lines};
ghost use Rattle.scripts_asm.specs.SeenNames.{giving_in};

use crate::lines::{Body, Line};
use scripts_forms::Shape;
use std::alloc::{AllocError, Global};
use std::collections::BTreeMap;

/// The first giving of a name: its place among all givings of the text, from 0, and what the name stands for.
#[derive(Clone, Copy)]
pub struct Giving {
    pub place: u64,
    pub value: u64,
}

/// The names of a text, each with its first giving.
#[derive(Drop)]
pub struct NameTable<'a> {
    first: BTreeMap<&'a str, Giving>,
}

impl<'a> NameTable<'a> {
    fn new(alloc: Global) -> Self
        ensures { (q : List ℕ) → giving_in result q ≡ None }
    {
        NameTable {
            first: BTreeMap::new(alloc),
        }
    }

    /// The first giving of a name.
    pub fn find(&self, name: &str) -> Option<Giving>
        ensures { result ≡ giving_in self.now name.now }
    {
        self.first.get(name).copied()
    }

    /// Gives a name its value, unless it has one.
    fn give(&mut self, name: &'a str, place: u64, value: u64) -> Result<(), AllocError>
        ensures { IfOk result (λ _. (q : List ℕ) → giving_in self.new q ≡ option_or (giving_in self.old q) (spec.first_giving place ((name.now, value) ∷ []) q)) }
    {
        if self.first.contains_key(name) {
            return Ok(());
        }
        self.first.insert(name, Giving { place, value })?;
        Ok(())
    }
}

/// How many bytes a line takes.
pub fn size_of(body: &Body<'_>) -> u64
    ensures size { result ≡ spec.size_of (seen_body body.now) }
    ensures most { result ≤ 12 }
    ensures near { result ≤ 12 * spec.one_if (spec.is_instruction (seen_body body.now)) }
{
    match body {
        Body::Instruction {
            shape: Shape::MoveMemory,
            ..
        } => 12,
        Body::Instruction { .. } => 8,
        _ => 0,
    }
}

/// How many names a line gives.
pub fn count_given(line: &Line<'_>) -> u64
    ensures count { result ≡ length (spec.names_given (seen_line line.now)) }
    ensures most { result ≤ 2 }
{
    let label = if line.label.is_some() { 1 } else { 0 };
    let absolute = if matches!(line.body, Body::Absolute { .. }) {
        1
    } else {
        0
    };
    label + absolute
}

/// Adds the names that a line at an address gives; their places begin at `place`.
fn give_names<'a>(
    names: &mut NameTable<'a>,
    place: u64,
    address: u64,
    line: &Line<'a>,
) -> Result<(), AllocError>
    requires { place + 2 < 2 ^ 64 }
    ensures { IfOk result (λ _. (q : List ℕ) → giving_in names.new q ≡ option_or (giving_in names.old q) (spec.first_giving place (spec.given address (seen_line line.now)) q)) }
{
    let mut place = place;
    if let Some(name) = line.label {
        names.give(name, place, address)?;
        place += 1;
    }
    if let Body::Absolute { name, value } = &line.body {
        names.give(*name, place, *value)?;
    }
    Ok(())
}

/// The names that the lines give.
pub fn names_of<'a>(alloc: Global, mut lines: &[Line<'a>]) -> Result<NameTable<'a>, AllocError>
    requires { length lines.now < 2 ^ 32 }
    ensures { IfOk result (λ names. (q : List ℕ) → giving_in names q ≡ spec.first_giving 0 (spec.names_from 0 (all_lines lines.entry.now)) q) }
{
    let mut names = NameTable::new(alloc);
    let mut place: u64 = 0;
    let mut address: u64 = 0;
    while let [line, rest @ ..] = lines {
        give_names(&mut names, place, address, line)?;
        place += count_given(line);
        address += size_of(&line.body);
        lines = rest;
    }
    Ok(names)
}

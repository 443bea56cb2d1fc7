//! What the tables ask of a unit, and whether it is so.

use crate::Initiator;
use rig_types::{Pattern, Unit};
use scsi_words::Phase;
use std::alloc::{AllocError, Global};
use std::process::Abort;
use std::test::Fail;
use target_law::{Move, Nexus};
use unit_law::LogEntry;

/// A part of a table.
#[derive(Clone, Copy)]
pub enum Action {
    /// The target is selected, and given a command under a tag with its live ticket; a task begins with the last byte.
    Begins(u8, &'static [u8], Option<u32>),
    /// The same; no task begins, and the bus is free then.
    BeginsNone(u8, &'static [u8], Option<u32>),
    /// The move that some word names is made.
    Makes(Move),
    /// No word names the move.
    Lacks(Move),
    /// A word for the move that a word names: it names the same.
    NamesAgain(u32),
    /// A data phase of so many bytes, which count on from the first byte of a block.
    Counts(u32, u8),
    /// A data phase of so many bytes, which has these bytes at these places.
    Holds(u32, &'static [(u32, u8)]),
    /// A data phase of these bytes.
    Gives(&'static [u8]),
    /// So many bytes from the target.
    Moves(u32),
    /// The target takes so many of these bytes.
    Takes(u32, u8),
    /// The target takes no byte.
    TakesNone,
    /// After this move the task has this status, and ends with COMMAND COMPLETE.
    Finishes(Move, u8),
    /// These message bytes, each of them acknowledged; the bus is free then where it says so.
    Tells(&'static [u8], bool),
    /// The candidate of a number reselects, with a tag.
    Reselects(u32, u8),
    /// The nexus of the connection.
    Names(Nexus),
    /// The target is selected.
    Selects,
    /// ATN is asserted, and this message is sent.
    Asks(u8),
    /// This message is sent.
    Sends(u8),
    /// The phase that the target shows.
    Shows(Phase),
    /// A word by which the target shows a phase and moves so many bytes, those from the target being the word's last.
    Chooses(u32, Phase, u32),
    /// A word by which the target moves.
    Acts(u32),
    /// The bus is free.
    IsFree,
    /// So many candidates for a reselection there are.
    CanReselect(u32),
    /// The bus is reset.
    Resets,
    /// The entries of the unit's log.
    Logs(&'static [LogEntry]),
}

/// A unit whose block n holds the bytes n, n + 1 and so on.
const UNIT: Unit = Unit {
    target: 0,
    lun: 3,
    blocks: 64,
    pattern: Pattern::Count,
    depth: 3,
    disconnects: 2,
    refusals: 0,
    absent: false,
    rogue: false,
};

/// The same unit, which may refuse two commands.
const REFUSING: Unit = Unit {
    refusals: 2,
    ..UNIT
};

/// The same unit, which breaks the rules.
const ROGUE: Unit = Unit {
    rogue: true,
    ..UNIT
};

/// What a unit does otherwise than others.
#[derive(Clone, Copy)]
pub enum Kind {
    Plain,
    Refusing,
    Rogue,
}

/// A unit, how many entries its log has room for, and what is done with it.
pub struct Row<'a> {
    pub name: &'a str,
    pub kind: Kind,
    pub room: u32,
    pub actions: &'a [Action],
}

fn opened(alloc: Global, kind: Kind, room: u32) -> Result<Initiator, AllocError> {
    match kind {
        Kind::Plain => Initiator::open(alloc, &UNIT, room),
        Kind::Refusing => Initiator::open(alloc, &REFUSING, room),
        Kind::Rogue => Initiator::open(alloc, &ROGUE, room),
    }
}

/// The number of the first action of a row that isn't as it is to be.
fn failure_of(alloc: Global, row: &Row<'_>) -> Result<Option<usize>, AllocError> {
    let mut unit = opened(alloc, row.kind, row.room)?;
    Ok(first_failure(&mut unit, row.actions))
}

/// Asserts that each action of a row is as it is to be.
pub fn check(rt: &impl Abort, alloc: Global, row: &Row<'_>) -> Result<(), Fail> {
    let failure = failure_of(alloc, row)?;
    assert!(rt; failure.is_none(), "{}: {failure:?}", row.name);
    Ok(())
}

/// The number of the first action that isn't as it is to be.
fn first_failure(unit: &mut Initiator, actions: &[Action]) -> Option<usize> {
    for n in 0..actions.len() {
        if !performs(unit, actions[n]) {
            return Some(n);
        }
    }
    None
}

/// Performs an action. Whether it is as it is to be.
fn performs(unit: &mut Initiator, action: Action) -> bool {
    match action {
        Action::Begins(tag, cdb, ticket) => begins(unit, tag, cdb, ticket),
        Action::BeginsNone(tag, cdb, ticket) => {
            !begins(unit, tag, cdb, ticket) && !unit.connected()
        }
        Action::Makes(m) => makes(unit, m),
        Action::Counts(count, first) => counts(unit, count, first),
        Action::Holds(count, places) => holds(unit, count, places),
        Action::Gives(bytes) => gives(unit, bytes),
        Action::Moves(count) => moves(unit, count),
        Action::Takes(count, b) => takes(unit, count, b),
        Action::TakesNone => !unit.byte_out(0, None),
        Action::Finishes(m, status) => finishes(unit, m, status),
        Action::Tells(bytes, free) => tells(unit, bytes) && unit.connected() != free,
        Action::Reselects(n, tag) => unit.reselect(n, tag),
        Action::Selects => unit.select(),
        Action::Asks(message) => unit.ask() && sends(unit, message),
        Action::Sends(message) => sends(unit, message),
        Action::Chooses(word, phase, count) => chooses(unit, word, phase, count),
        Action::Acts(word) => unit.act(word),
        Action::Resets => {
            unit.reset();
            true
        }
        _ => is_so(unit, action),
    }
}

/// Whether it is as an action says that changes nothing.
fn is_so(unit: &mut Initiator, action: Action) -> bool {
    match action {
        Action::Lacks(m) => word_of(unit, m).is_none(),
        Action::NamesAgain(word) => names_again(unit, word),
        Action::Names(nexus) => unit.nexus() == Some(nexus),
        Action::Shows(phase) => unit.shown() == Some(phase),
        Action::IsFree => !unit.connected(),
        Action::CanReselect(candidates) => unit.candidates() == candidates,
        Action::Logs(entries) => logs(unit, entries),
        _ => false,
    }
}

fn begins(unit: &mut Initiator, tag: u8, cdb: &[u8], ticket: Option<u32>) -> bool {
    unit.select();
    for b in [0xc3, 0x20, tag] {
        unit.byte_out(b, None);
    }
    unit.end_message();
    for b in cdb {
        unit.byte_out(*b, ticket);
    }
    unit.connected() && unit.shown().is_none()
}

/// A word that names this move.
fn word_of(unit: &Initiator, m: Move) -> Option<u32> {
    let low = match m {
        Move::Go { bytes } => bytes.saturating_sub(1),
        _ => 0,
    };
    for index in 0..7u32 {
        let word = index << 24 | low & 0x00ff_ffff;
        if unit.choose(word) == Some(m) {
            return Some(word);
        }
    }
    None
}

fn makes(unit: &mut Initiator, m: Move) -> bool {
    match word_of(unit, m) {
        Some(word) => unit.act(word),
        None => false,
    }
}

fn names_again(unit: &Initiator, word: u32) -> bool {
    match unit.word_again(word) {
        Some(again) => unit.choose(again) == unit.choose(word),
        None => false,
    }
}

fn counts(unit: &mut Initiator, count: u32, first: u8) -> bool {
    if !makes(unit, Move::Go { bytes: count }) {
        return false;
    }
    let mut want = first;
    for _ in 0..count {
        if unit.byte_in() != Some(want) {
            return false;
        }
        want = want.wrapping_add(1);
    }
    unit.shown().is_none()
}

/// Whether this byte may stand at this place.
fn fits(places: &[(u32, u8)], n: u32, b: u8) -> bool {
    for (place, byte) in places {
        if *place == n && *byte != b {
            return false;
        }
    }
    true
}

fn holds(unit: &mut Initiator, count: u32, places: &[(u32, u8)]) -> bool {
    if !makes(unit, Move::Go { bytes: count }) {
        return false;
    }
    for n in 0..count {
        match unit.byte_in() {
            Some(b) if fits(places, n, b) => {}
            _ => return false,
        }
    }
    unit.shown().is_none()
}

fn gives(unit: &mut Initiator, bytes: &[u8]) -> bool {
    let count = bytes.len();
    if count > 255
        || !makes(
            unit,
            Move::Go {
                bytes: count as u32,
            },
        )
    {
        return false;
    }
    for b in bytes {
        if unit.byte_in() != Some(*b) {
            return false;
        }
    }
    unit.shown().is_none()
}

fn moves(unit: &mut Initiator, count: u32) -> bool {
    for _ in 0..count {
        if unit.byte_in().is_none() {
            return false;
        }
    }
    true
}

fn takes(unit: &mut Initiator, count: u32, b: u8) -> bool {
    for _ in 0..count {
        if !unit.byte_out(b, None) {
            return false;
        }
    }
    true
}

fn finishes(unit: &mut Initiator, m: Move, status: u8) -> bool {
    makes(unit, m)
        && unit.byte_in() == Some(status)
        && unit.message_in() == Some(0)
        && !unit.connected()
}

fn tells(unit: &mut Initiator, bytes: &[u8]) -> bool {
    for b in bytes {
        if unit.message_in() != Some(*b) {
            return false;
        }
    }
    true
}

fn sends(unit: &mut Initiator, message: u8) -> bool {
    unit.byte_out(message, None) && unit.end_message()
}

fn chooses(unit: &mut Initiator, word: u32, phase: Phase, count: u32) -> bool {
    unit.act(word)
        && unit.shown() == Some(phase)
        && moved(unit, (word & 0xff) as u8) == Some(count)
        && !unit.ask()
}

/// How many bytes a phase moves; None where one from the target isn't this one.
fn moved(unit: &mut Initiator, byte: u8) -> Option<u32> {
    for count in 0..300u32 {
        if unit.shown().is_none() {
            return Some(count);
        }
        if !moves_one(unit, byte) {
            return None;
        }
    }
    None
}

/// Moves a byte, this one where it comes from the target.
fn moves_one(unit: &mut Initiator, byte: u8) -> bool {
    if unit.shown() == Some(Phase::MsgIn) {
        return unit.message_in() == Some(byte);
    }
    match unit.byte_in() {
        Some(b) => b == byte,
        None => unit.byte_out(0x28, None),
    }
}

fn logs(unit: &Initiator, entries: &[LogEntry]) -> bool {
    let mut n = 0u32;
    for entry in entries {
        if unit.log_entry(n) != Some(*entry) {
            return false;
        }
        n = n.wrapping_add(1);
    }
    unit.log_entry(n).is_none()
}

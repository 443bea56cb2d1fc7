//! What the tables ask of a bench, and whether it is so.

use bench_core::Bench;
use chip_regs::Cause;
use rig_reader::read_rig;
use rig_types::{Line, Outcome, ReadFault, Report, Step};
use std::alloc::Global;
use unit_law::LogEntry;
use work_reader::read_work;
use world_law::{Owner, Reply, Stop};

/// How many steps of the chip one action makes at most.
const MOST: u32 = 3_000;

/// A part of a table. Words are those by which the units choose, addresses are those of host memory.
#[derive(Clone, Copy)]
pub enum Action {
    /// A caller makes a step: this is the answer, and the step is entered.
    Makes(u32, Step, Reply),
    /// A step of a caller has this answer and isn't entered.
    Passes(u32, Step, Reply),
    /// Submitter 0 builds the line of this number as this ticket, and links, queues and signals it.
    Submits(u32, u32),
    /// The same of so many lines, from the first on, each as the ticket of its number.
    SubmitsAll(u32),
    /// The reaper takes this ticket out of the done ring, unlinks it and frees it.
    Collects(u32),
    /// The reaper unlinks this ticket and frees it.
    Frees(u32),
    /// The chip makes steps with a word until it fetches at an address.
    RunsTo(u32, u32),
    /// The chip makes steps with a word until it stops, for this cause.
    StopsBy(Cause, u32),
    /// The chip makes steps with a word until it has nothing to do.
    Rests(u32),
    /// The reaper repairs the data pointer and lets the chip go on.
    Mends,
    /// Submitter 0's ticket is refused by the move that a word names, and the reaper queues it again, so often.
    IsRefused(u32, u32, u32),
    /// The chip fetches next at this address.
    Fetches(u32),
    /// The word at an address.
    Holds(u32, u32),
    /// The owner of the word at an address.
    Owns(u32, Owner),
    /// The entry of a unit's log with this number.
    Logs(u8, u32, Option<LogEntry>),
    /// The report with this number: its ticket, outcome, status, residual and tries.
    Reports(usize, u32, Outcome, u8, u32, u8),
    /// In the report with this number so many bytes from the first on count up from this byte.
    Counts(usize, usize, u8),
    /// The bytes of the report with this number begin so.
    Begins(usize, &'static [u8]),
    /// The sense of the report with this number.
    Senses(usize, &'static [u8]),
    /// A block of a unit's disk counts up from this byte.
    Keeps(u8, u32, u8),
    /// So many reports were made, and all is done.
    Drains(usize),
}

/// The number of the first action of a table that isn't as it is to be.
fn first_failure(bench: &mut Bench, actions: &[Action]) -> Option<usize> {
    for n in 0..actions.len() {
        if !performs(bench, actions[n]) {
            return Some(n);
        }
    }
    None
}

/// The first action of two tables, one after the other, that isn't as it is to be in a bench over the texts of a rig and
/// a work: its number, counted on through both tables.
pub fn failure_of(
    alloc: Global,
    texts: (&str, &str),
    actions: &[Action],
    others: &[Action],
) -> Result<Option<usize>, ReadFault> {
    let rig = read_rig(alloc, texts.0.as_bytes())?;
    let work = read_work(alloc, texts.1.as_bytes(), &rig)?;
    let mut bench = Bench::open(alloc, rig, work)?;
    Ok(first_failure_of_both(&mut bench, actions, others))
}

fn first_failure_of_both(
    bench: &mut Bench,
    actions: &[Action],
    others: &[Action],
) -> Option<usize> {
    let failure = first_failure(bench, actions);
    if failure.is_some() {
        return failure;
    }
    let failure = first_failure(bench, others)?;
    Some(actions.len().saturating_add(failure))
}

/// Performs an action. Whether it is as it is to be.
fn performs(bench: &mut Bench, action: Action) -> bool {
    match action {
        Action::Makes(caller, step, reply) => makes(bench, caller, step, reply),
        Action::Passes(caller, step, reply) => passes(bench, caller, step, reply),
        Action::Submits(number, t) => submits(bench, number, t),
        Action::SubmitsAll(count) => submits_all(bench, count),
        Action::Collects(t) => takes(bench, t) && frees(bench, t),
        Action::Frees(t) => frees(bench, t),
        Action::RunsTo(address, word) => runs_to(bench, address, word),
        Action::StopsBy(cause, word) => stops_by(bench, cause, word),
        Action::Rests(word) => rests(bench, word),
        Action::Mends => mends(bench),
        Action::IsRefused(t, word, count) => is_refused(bench, t, word, count),
        _ => is_so(bench, action),
    }
}

/// Whether it is as an action says that makes no step.
fn is_so(bench: &Bench, action: Action) -> bool {
    match action {
        Action::Fetches(address) => bench.next_fetch() == Some(address),
        Action::Holds(address, word) => holds(bench, address, word),
        Action::Owns(address, owner) => bench.owner(address) == owner,
        Action::Logs(unit, n, entry) => logs(bench, unit, n, entry),
        Action::Reports(n, t, outcome, status, residual, tries) => match report_of(bench, n) {
            Some(report) => is_told(report, t, outcome, status, residual, tries),
            None => false,
        },
        Action::Counts(n, count, first) => counts(bench, n, count, first),
        Action::Begins(n, bytes) => begins(bench, n, bytes),
        Action::Senses(n, bytes) => senses(bench, n, bytes),
        Action::Keeps(unit, block, first) => keeps(bench, unit, block, first),
        Action::Drains(count) => bench.drained() && bench.report_count() == count,
        _ => false,
    }
}

fn makes(bench: &mut Bench, caller: u32, step: Step, reply: Reply) -> bool {
    let before = bench.length();
    bench.step(caller, step) == reply && before < bench.length()
}

fn passes(bench: &mut Bench, caller: u32, step: Step, reply: Reply) -> bool {
    let before = bench.length();
    bench.step(caller, step) == reply && before == bench.length()
}

fn submits(bench: &mut Bench, number: u32, t: u32) -> bool {
    let line = Line {
        submitter: 0,
        number,
    };
    makes(bench, 0, Step::Build(line), Reply::Built(t))
        && makes(bench, 0, Step::Link(t), Reply::Made)
        && makes(bench, 0, Step::Queue(t), Reply::Made)
        && makes(bench, 0, Step::Signal, Reply::Made)
}

fn submits_all(bench: &mut Bench, count: u32) -> bool {
    for n in 0..count {
        if !submits(bench, n, n) {
            return false;
        }
    }
    true
}

fn by_reaper(bench: &mut Bench, step: Step, reply: Reply) -> bool {
    let reaper = bench.reaper();
    makes(bench, reaper, step, reply)
}

fn takes(bench: &mut Bench, t: u32) -> bool {
    by_reaper(bench, Step::TakeDone, Reply::Taken(t))
}

fn frees(bench: &mut Bench, t: u32) -> bool {
    by_reaper(bench, Step::Unlink(t), Reply::Made) && by_reaper(bench, Step::Free(t), Reply::Made)
}

fn mends(bench: &mut Bench) -> bool {
    by_reaper(bench, Step::Fix, Reply::Made) && by_reaper(bench, Step::Restart, Reply::Made)
}

fn is_refused(bench: &mut Bench, t: u32, word: u32, count: u32) -> bool {
    for _ in 0..count {
        let again = rests(bench, word)
            && takes(bench, t)
            && by_reaper(bench, Step::Queue(t), Reply::Made)
            && by_reaper(bench, Step::Signal, Reply::Made);
        if !again {
            return false;
        }
    }
    true
}

fn by_chip(bench: &mut Bench, word: u32) -> Reply {
    let chip = bench.chip();
    bench.step(chip, Step::Chip(word))
}

fn runs_to(bench: &mut Bench, address: u32, word: u32) -> bool {
    for _ in 0..MOST {
        if by_chip(bench, word) != Reply::Made {
            return false;
        }
        if bench.next_fetch() == Some(address) {
            return true;
        }
    }
    false
}

fn stops_by(bench: &mut Bench, cause: Cause, word: u32) -> bool {
    for _ in 0..MOST {
        if bench.stop() != Stop::Run {
            return bench.cause() == Some(cause);
        }
        by_chip(bench, word);
    }
    false
}

fn rests(bench: &mut Bench, word: u32) -> bool {
    for _ in 0..MOST {
        match by_chip(bench, word) {
            Reply::Made => {}
            reply => return reply == Reply::Idle,
        }
    }
    false
}

fn holds(bench: &Bench, address: u32, word: u32) -> bool {
    address < 0x40_0000 && address % 4 == 0 && bench.word(address) == word
}

fn logs(bench: &Bench, unit: u8, n: u32, entry: Option<LogEntry>) -> bool {
    (unit as usize) < bench.rig().units.as_slice().len() && bench.log(unit, n) == entry
}

fn is_told(
    report: &Report,
    t: u32,
    outcome: Outcome,
    status: u8,
    residual: u32,
    tries: u8,
) -> bool {
    report.ticket == t
        && report.outcome == outcome
        && report.status == status
        && report.residual == residual
        && report.tries == tries
}

fn report_of(bench: &Bench, n: usize) -> Option<&Report> {
    bench.reports().get(n)
}

fn counts(bench: &Bench, n: usize, count: usize, first: u8) -> bool {
    match report_of(bench, n) {
        Some(report) => count_up(report.bytes.as_slice(), count, first),
        None => false,
    }
}

/// Whether so many of these bytes count up from a byte, modulo 256.
fn count_up(bytes: &[u8], count: usize, first: u8) -> bool {
    if bytes.len() < count {
        return false;
    }
    let mut want = first;
    for i in 0..count {
        if bytes[i] != want {
            return false;
        }
        want = want.wrapping_add(1);
    }
    true
}

fn begins(bench: &Bench, n: usize, bytes: &[u8]) -> bool {
    match report_of(bench, n) {
        Some(report) => report.bytes.as_slice().starts_with(bytes),
        None => false,
    }
}

fn senses(bench: &Bench, n: usize, bytes: &[u8]) -> bool {
    match report_of(bench, n) {
        Some(report) => report.sense.as_slice() == bytes,
        None => false,
    }
}

fn keeps(bench: &Bench, unit: u8, block: u32, first: u8) -> bool {
    let units = bench.rig().units.as_slice();
    if units.len() <= unit as usize || units[unit as usize].blocks <= block {
        return false;
    }
    let mut bytes = [0; 512];
    bench.image(unit, block, &mut bytes);
    count_up(&bytes, 512, first)
}

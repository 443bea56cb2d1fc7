//! What the tables ask of a desk, and whether it is so.

use crate::stand::Stand;
use desk_law::{Refused, Taken};
use driver_desk::BuildFault;
use rig_reader::read_rig;
use rig_types::{Outcome, Rig, Work};
use std::alloc::{AllocError, Global};
use std::process::Abort;
use std::test::Fail;
use work_reader::read_work;

/// A part of a table. Commands are those of submitter 0, by their number.
#[derive(Clone, Copy)]
pub enum Action {
    /// A command is built as this ticket.
    Builds(u32, u32),
    /// A command is built so often, as the tickets from 0 on.
    BuildsAll(u32, u32),
    /// A command is refused for this reason.
    Refuses(u32, Refused),
    /// A ticket that was built is linked.
    Links(u32),
    /// A ticket that was linked is queued.
    Queues(u32),
    /// A ticket that was refused is queued again, as the reaper does.
    QueuesAgain(u32),
    /// A ticket ends by this STATE and STATUS, and its block goes so many done slots behind the one that is taken next.
    Ends(u32, u32, u32, u32),
    /// The ticket in the next done slot is taken with this answer.
    Takes(Taken),
    /// A ticket that ended is unlinked and freed with this report: outcome, status, tries and residual.
    Frees(u32, (Outcome, u8, u8, u32)),
    /// The word at an address.
    Holds(u32, u32),
    /// The tag of a unit is that of this ticket.
    Names(u8, u8, u32),
}

/// A rig, the work of one submitter, and what is done with a desk over them.
pub struct Row<'a> {
    pub name: &'a str,
    pub rig: &'a str,
    pub work: &'a str,
    pub actions: &'a [Action],
}

/// The number of the first action of a row that isn't as it is to be.
fn failure_of(rt: &impl Abort, alloc: Global, row: &Row<'_>) -> Result<Option<usize>, Fail> {
    let rig = read_rig(alloc, row.rig.as_bytes())?;
    let work = read_work(alloc, row.work.as_bytes(), &rig)?;
    Ok(failure_over(rt, alloc, &rig, &work, row.actions)?)
}

/// The same of actions with a fresh desk.
fn failure_over(
    rt: &impl Abort,
    alloc: Global,
    rig: &Rig,
    work: &Work,
    actions: &[Action],
) -> Result<Option<usize>, AllocError> {
    let mut stand = Stand::open(rt, alloc, rig, work)?;
    Ok(first_failure(&mut stand, work, actions))
}

/// Asserts that each action of these rows is as it is to be.
pub fn check(rt: &impl Abort, alloc: Global, rows: &[Row<'_>]) -> Result<(), Fail> {
    for row in rows {
        let failure = failure_of(rt, alloc, row)?;
        assert!(rt; failure.is_none(), "{}: {failure:?}", row.name);
    }
    Ok(())
}

/// The number of the first action that isn't as it is to be.
fn first_failure(stand: &mut Stand, work: &Work, actions: &[Action]) -> Option<usize> {
    for n in 0..actions.len() {
        if !performs(stand, work, actions[n]) {
            return Some(n);
        }
    }
    None
}

/// Performs an action. Whether it is as it is to be.
fn performs(stand: &mut Stand, work: &Work, action: Action) -> bool {
    match action {
        Action::Builds(number, t) => builds(stand, work, number, t),
        Action::BuildsAll(number, count) => builds_all(stand, work, number, count),
        Action::Refuses(number, reason) => refuses(stand, work, number, reason),
        Action::Links(t) => stand.link(t),
        Action::Queues(t) => stand.queue(t),
        Action::QueuesAgain(t) => stand.queue_again(t),
        Action::Ends(t, state, status, behind) => ends(stand, t, (state, status), behind),
        Action::Takes(taken) => stand.take_done() == Some(taken),
        Action::Frees(t, report) => frees(stand, t, report),
        Action::Holds(address, word) => stand.word(address) == Some(word),
        Action::Names(unit, tag, t) => stand.ticket_of(unit, tag) == Some(t),
    }
}

fn builds(stand: &mut Stand, work: &Work, number: u32, t: u32) -> bool {
    matches!(stand.build(work, number), Some(Ok(found)) if found == t)
}

fn builds_all(stand: &mut Stand, work: &Work, number: u32, count: u32) -> bool {
    for t in 0..count {
        if !builds(stand, work, number, t) {
            return false;
        }
    }
    true
}

fn refuses(stand: &mut Stand, work: &Work, number: u32, reason: Refused) -> bool {
    matches!(stand.build(work, number), Some(Err(BuildFault::Refused(found))) if found == reason)
}

fn ends(stand: &mut Stand, t: u32, words: (u32, u32), behind: u32) -> bool {
    stand.write_state(t, words.0) && stand.write_status(t, words.1) && stand.put_done(t, behind)
}

fn frees(stand: &mut Stand, t: u32, want: (Outcome, u8, u8, u32)) -> bool {
    match stand.free(t) {
        Some(report) => {
            report.ticket == t
                && (report.outcome, report.status, report.tries, report.residual) == want
        }
        None => false,
    }
}

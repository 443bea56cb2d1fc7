//! Two tasks that reselect in another order than they were queued; a ticket that is refused again and again; a target that
//! isn't there.

use crate::actions::{Action, failure_of};
use crate::rigs::{BUSY, DISPATCH, FIRST, GO, LEAVE, ONE_UNIT, QUEUE_FULL, REAPER, SECOND};
use chip_regs::Cause;
use rig_types::{Outcome, Step};
use std::test::Fail;
use unit_law::LogEntry;
use world_law::Reply;

/// A unit that may refuse a ticket eight times, and a driver that tries as often again.
const REFUSING: &str = r#"version = 1
retries = 8
[[unit]]
target = 0
lun = 0
blocks = 64
pattern = "count"
refusals = 8
"#;

/// The same with one try more, and with two.
const ONE_RETRY: &str = r#"version = 1
retries = 1
[[unit]]
target = 0
lun = 0
blocks = 64
pattern = "count"
refusals = 2
"#;

const TWO_RETRIES: &str = r#"version = 1
retries = 2
[[unit]]
target = 0
lun = 0
blocks = 64
pattern = "count"
refusals = 2
"#;

/// No target answers.
const ABSENT: &str = r#"version = 1
[[unit]]
target = 0
lun = 0
blocks = 64
absent = true
"#;

/// Two READ(10) of one block.
const TWO_READS: &str = r#"version = 1
[[submitter]]
command = [
  { unit = 0, cdb = "28000000000300000100", segments = [512], direction = "in" },
  { unit = 0, cdb = "28000000000400000100", segments = [512], direction = "in" },
]
"#;

/// One READ(10).
const ONE_READ: &str = r#"version = 1
[[submitter]]
command = [
  { unit = 0, cdb = "28000000000300000100", segments = [512], direction = "in" },
]
"#;

/// The second task is taken first, and so is its ticket.
const SECOND_FIRST: [Action; 18] = [
    Action::Submits(0, 0),
    Action::Rests(LEAVE),
    Action::Submits(1, 1),
    Action::Rests(LEAVE),
    Action::RunsTo(DISPATCH, SECOND),
    Action::RunsTo(DISPATCH, GO),
    Action::Rests(GO),
    Action::RunsTo(DISPATCH, FIRST),
    Action::RunsTo(DISPATCH, GO),
    Action::Rests(GO),
    Action::Makes(REAPER, Step::TakeDone, Reply::Taken(1)),
    Action::Makes(REAPER, Step::TakeDone, Reply::Taken(0)),
    Action::Frees(1),
    Action::Frees(0),
    Action::Reports(0, 1, Outcome::Done, 0, 0, 1),
    Action::Counts(0, 512, 4),
    Action::Counts(1, 512, 3),
    Action::Drains(2),
];

/// Eight times BUSY.
const NINE_TRIES: [Action; 10] = [
    Action::Submits(0, 0),
    Action::IsRefused(0, BUSY, 8),
    Action::RunsTo(DISPATCH, GO),
    Action::RunsTo(DISPATCH, GO),
    Action::Rests(GO),
    Action::Collects(0),
    Action::Reports(0, 0, Outcome::Done, 0, 0, 9),
    Action::Logs(0, 8, Some(LogEntry::Look(0))),
    Action::Logs(0, 9, Some(LogEntry::End(0))),
    Action::Drains(1),
];

/// QUEUE FULL twice, and no try is left.
const NO_TRY_LEFT: [Action; 7] = [
    Action::Submits(0, 0),
    Action::IsRefused(0, QUEUE_FULL, 1),
    Action::Rests(QUEUE_FULL),
    Action::Collects(0),
    Action::Reports(0, 0, Outcome::Done, 0x28, 512, 2),
    Action::Logs(0, 2, None),
    Action::Drains(1),
];

/// QUEUE FULL twice, and one is left.
const ONE_TRY_LEFT: [Action; 7] = [
    Action::Submits(0, 0),
    Action::IsRefused(0, QUEUE_FULL, 2),
    Action::RunsTo(DISPATCH, GO),
    Action::Rests(GO),
    Action::Collects(0),
    Action::Reports(0, 0, Outcome::Done, 0, 0, 3),
    Action::Drains(1),
];

/// The selection times out.
const NO_TARGET: [Action; 6] = [
    Action::Submits(0, 0),
    Action::StopsBy(Cause::Sto, 0),
    Action::Makes(REAPER, Step::Restart, Reply::Made),
    Action::Rests(0),
    Action::Collects(0),
    Action::Reports(0, 0, Outcome::NoTarget, 0xff, 512, 1),
];

#[test]
fn tickets_end_as_their_units_answer(rt: HostRuntime) -> Result<(), Fail> {
    let rows: [(&str, &str, &str, &[Action]); 5] = [
        ("second first", ONE_UNIT, TWO_READS, &SECOND_FIRST),
        ("nine tries", REFUSING, ONE_READ, &NINE_TRIES),
        ("no try left", ONE_RETRY, ONE_READ, &NO_TRY_LEFT),
        ("one try left", TWO_RETRIES, ONE_READ, &ONE_TRY_LEFT),
        ("no target", ABSENT, ONE_READ, &NO_TARGET),
    ];
    for (name, rig, work, actions) in rows {
        let failure = failure_of(rt.alloc(), (rig, work), actions, &[])?;
        assert!(rt; failure.is_none(), "{name}: {failure:?}");
    }
    Ok(())
}

//! Acts: aborts before the selection, of a disconnected task and too late; a bus reset after a drop; acts that find FRONT or
//! a stop in their way.

use crate::actions::{Action, failure_of};
use crate::rigs::{ABORTER, DISPATCH, FIRST, GO, LEAVE, ONE_UNIT, REAPER};
use chip_regs::Cause;
use rig_types::{Line, Outcome, Step};
use std::test::Fail;
use unit_law::LogEntry;
use world_law::Reply;

/// Three commands, each with its abort.
const THREE_ABORTS: &str = r#"version = 1
[[submitter]]
[[submitter.command]]
unit = 0
cdb = "2a000000000500000100"
segments = [512]
direction = "out"
fill = 77
[[submitter.command]]
unit = 0
cdb = "2a000000000800000200"
segments = [1024]
direction = "out"
fill = 77
[[submitter.command]]
unit = 0
cdb = "28000000000300000100"
segments = [512]
direction = "in"
[[act]]
kind = "abort"
submitter = 0
command = 0
[[act]]
kind = "abort"
submitter = 0
command = 1
[[act]]
kind = "abort"
submitter = 0
command = 2
"#;

/// One command, its abort, and a bus reset.
const DROPPED: &str = r#"version = 1
[[submitter]]
[[submitter.command]]
unit = 0
cdb = "28000000000300000100"
segments = [512]
direction = "in"
[[act]]
kind = "abort"
submitter = 0
command = 0
[[act]]
kind = "bus"
"#;

/// Two device resets.
const TWO_JOBS: &str = r#"version = 1
[[act]]
kind = "device"
target = 0
[[act]]
kind = "device"
target = 0
"#;

/// One command, and a bus reset.
const ONE_BUS: &str = r#"version = 1
[[submitter]]
[[submitter.command]]
unit = 0
cdb = "28000000000300000100"
segments = [512]
direction = "in"
[[act]]
kind = "bus"
"#;

const LINE_0: Line = Line {
    submitter: 0,
    number: 0,
};

/// A ticket is cut between Link and Queue, a WRITE after 700 bytes, and none once TakeDone has ended it.
const ABORTS: [Action; 31] = [
    Action::Makes(0, Step::Build(LINE_0), Reply::Built(0)),
    Action::Makes(0, Step::Link(0), Reply::Made),
    Action::Makes(ABORTER, Step::Act(0), Reply::Marked),
    Action::Makes(0, Step::Queue(0), Reply::Made),
    Action::Makes(0, Step::Signal, Reply::Made),
    Action::Rests(GO),
    Action::Collects(0),
    Action::Reports(0, 0, Outcome::Cut, 0xff, 512, 1),
    Action::Logs(0, 0, None),
    Action::Keeps(0, 5, 5),
    Action::Submits(1, 1),
    Action::RunsTo(DISPATCH, GO),
    Action::StopsBy(Cause::Ma, 699),
    Action::Mends,
    Action::Rests(0),
    Action::Makes(ABORTER, Step::Act(1), Reply::Marked),
    Action::Rests(FIRST),
    Action::Collects(1),
    Action::Reports(1, 1, Outcome::Cut, 0xff, 1024, 1),
    Action::Logs(0, 0, Some(LogEntry::Drop(1, 700))),
    Action::Logs(0, 1, None),
    Action::Keeps(0, 8, 77),
    Action::Keeps(0, 9, 9),
    Action::Submits(2, 2),
    Action::RunsTo(DISPATCH, GO),
    Action::Rests(GO),
    Action::Makes(REAPER, Step::TakeDone, Reply::Taken(2)),
    Action::Makes(ABORTER, Step::Act(2), Reply::TooLate),
    Action::Frees(2),
    Action::Reports(2, 2, Outcome::Done, 0, 0, 1),
    Action::Drains(3),
];

/// The bus is reset while the chip stands behind the drop of a task: it goes on there, and the ticket is cut once.
const RESUMES: [Action; 13] = [
    Action::Submits(0, 0),
    Action::Rests(LEAVE),
    Action::Makes(ABORTER, Step::Act(0), Reply::Marked),
    Action::RunsTo(0x1f0, FIRST),
    Action::Makes(ABORTER, Step::Act(1), Reply::Started),
    Action::Makes(REAPER, Step::Restart, Reply::Made),
    Action::Fetches(0x1f0),
    Action::Rests(0),
    Action::Collects(0),
    Action::Reports(0, 0, Outcome::Cut, 0xff, 512, 1),
    Action::Logs(0, 0, Some(LogEntry::Drop(0, 0))),
    Action::Logs(0, 1, Some(LogEntry::Clear)),
    Action::Drains(1),
];

/// A device reset finds FRONT busy with one that was signalled. The aborter is caller 0, the reaper caller 1.
const JOBS: [Action; 13] = [
    Action::Makes(0, Step::Act(0), Reply::Started),
    Action::Holds(0x1000, 0x1800),
    Action::Makes(0, Step::Signal, Reply::Made),
    Action::Passes(0, Step::Act(1), Reply::BusyFront(0x1800)),
    Action::StopsBy(Cause::Sir(5), 0),
    Action::Makes(1, Step::Restart, Reply::Made),
    Action::Holds(0x1000, 0x1600),
    Action::Makes(0, Step::Act(1), Reply::Started),
    Action::Makes(0, Step::Signal, Reply::Made),
    Action::StopsBy(Cause::Sir(5), 0),
    Action::Makes(1, Step::Restart, Reply::Made),
    Action::Logs(0, 1, Some(LogEntry::Clear)),
    Action::Drains(0),
];

/// A bus reset finds a Fix waiting, and then a Restart.
const WAITS: [Action; 9] = [
    Action::Submits(0, 0),
    Action::RunsTo(DISPATCH, GO),
    Action::StopsBy(Cause::Ma, 59),
    Action::Passes(ABORTER, Step::Act(0), Reply::BusyStop(Cause::Ma)),
    Action::Makes(REAPER, Step::Fix, Reply::Made),
    Action::Passes(ABORTER, Step::Act(0), Reply::BusyStop(Cause::Ma)),
    Action::Makes(REAPER, Step::Restart, Reply::Made),
    Action::Fetches(DISPATCH),
    Action::Makes(ABORTER, Step::Act(0), Reply::Started),
];

#[test]
fn acts_answer_as_they_find_the_bench(rt: HostRuntime) -> Result<(), Fail> {
    let rows: [(&str, &str, &[Action]); 4] = [
        ("aborts", THREE_ABORTS, &ABORTS),
        ("resumes", DROPPED, &RESUMES),
        ("jobs", TWO_JOBS, &JOBS),
        ("waits", ONE_BUS, &WAITS),
    ];
    for (name, work, actions) in rows {
        let failure = failure_of(rt.alloc(), (ONE_UNIT, work), actions, &[])?;
        assert!(rt; failure.is_none(), "{name}: {failure:?}");
    }
    Ok(())
}

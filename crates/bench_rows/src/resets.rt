//! A bus reset with a task in its data phase, one disconnected and one in the ring; and the sense that the driver asks for.

use crate::actions::{Action, failure_of};
use crate::rigs::{ABORTER, DATA, DISPATCH, GO, LEAVE, ONE_UNIT, REAPER, SENSING};
use desk_law::Stage;
use rig_types::{Outcome, Step};
use std::test::Fail;
use unit_law::LogEntry;
use world_law::{Reply, Seen, Stop};

/// Three READ(10) and a REQUEST SENSE that waits for them, and a bus reset.
const RESET: &str = r#"version = 1
[[submitter]]
command = [
  { unit = 0, cdb = "28000000000300000100", segments = [512], direction = "in" },
  { unit = 0, cdb = "28000000000400000100", segments = [512], direction = "in" },
  { unit = 0, cdb = "28000000000500000100", segments = [512], direction = "in" },
  { unit = 0, cdb = "030000001200", segments = [18], direction = "in", wait = true },
]
[[act]]
kind = "bus"
"#;

/// Two READ(10) past the end of the unit, an abort of the first, and a bus reset.
const PAST_THE_END: &str = r#"version = 1
[[submitter]]
command = [
  { unit = 0, cdb = "28000000004000000100", segments = [512], direction = "in" },
  { unit = 0, cdb = "28000000004000000100", segments = [512], direction = "in" },
]
[[act]]
kind = "abort"
submitter = 0
command = 0
[[act]]
kind = "bus"
"#;

/// The sense after a reset, after an address past the end, and where there is none.
const AFTER_RESET: [u8; 18] = [
    0x70, 0, 6, 0, 0, 0, 0, 0x0a, 0, 0, 0, 0, 0x29, 0, 0, 0, 0, 0,
];

const AFTER_END: [u8; 18] = [
    0x70, 0, 5, 0, 0, 0, 0, 0x0a, 0, 0, 0, 0, 0x21, 0, 0, 0, 0, 0,
];

const NO_SENSE: [u8; 18] = [0x70, 0, 0, 0, 0, 0, 0, 0x0a, 0, 0, 0, 0, 0, 0, 0, 0, 0, 0];

/// What the reaper sees whose Sweep isn't enabled, since the ticket waits in the ring.
const IN_THE_RING: Seen = Seen {
    stage: Some(Stage::Queued),
    next_line: 0,
    next_act: 1,
    due: 0,
    settled: 0,
    blocking: None,
    stop: Stop::Clear,
    sweep: None,
    done: false,
    drained: false,
};

/// Up to the end of the ticket that waited in the ring.
const RESETS: [Action; 22] = [
    Action::Submits(0, 0),
    Action::Rests(LEAVE),
    Action::Submits(1, 1),
    Action::Submits(2, 2),
    Action::RunsTo(DISPATCH, GO),
    Action::RunsTo(DATA, GO),
    Action::Makes(ABORTER, Step::Act(0), Reply::Started),
    Action::Makes(REAPER, Step::Sweep(0), Reply::Made),
    Action::Makes(REAPER, Step::Sweep(1), Reply::Made),
    Action::Passes(REAPER, Step::Sweep(2), Reply::NotNow(IN_THE_RING)),
    Action::Makes(REAPER, Step::Restart, Reply::Made),
    Action::Frees(0),
    Action::Frees(1),
    Action::Rests(0),
    Action::Reports(0, 0, Outcome::Reset, 0xff, 512, 1),
    Action::Reports(1, 1, Outcome::Reset, 0xff, 512, 1),
    Action::Logs(0, 0, Some(LogEntry::Look(1))),
    Action::Logs(0, 1, Some(LogEntry::Drop(0, 0))),
    Action::Logs(0, 2, Some(LogEntry::Drop(1, 0))),
    Action::Logs(0, 3, Some(LogEntry::Clear)),
    Action::Logs(0, 4, Some(LogEntry::End(2))),
    Action::Makes(REAPER, Step::TakeDone, Reply::Taken(2)),
];

/// It ends with CHECK CONDITION, and the next command asks for the sense.
const ASKED_FOR: [Action; 10] = [
    Action::Frees(2),
    Action::Reports(2, 2, Outcome::Done, 2, 512, 1),
    Action::Senses(2, &[]),
    Action::Submits(3, 3),
    Action::RunsTo(DISPATCH, 17),
    Action::Rests(17),
    Action::Collects(3),
    Action::Reports(3, 3, Outcome::Done, 0, 0, 1),
    Action::Begins(3, &AFTER_RESET),
    Action::Drains(4),
];

/// The driver asks for the sense by itself, and none is left for the next command.
const BY_ITSELF: [Action; 13] = [
    Action::Makes(REAPER, Step::Sense(2), Reply::Made),
    Action::Makes(REAPER, Step::Signal, Reply::Made),
    Action::Rests(0),
    Action::Collects(2),
    Action::Reports(2, 2, Outcome::Done, 2, 512, 1),
    Action::Senses(2, &AFTER_RESET),
    Action::Submits(3, 3),
    Action::RunsTo(DISPATCH, 17),
    Action::Rests(17),
    Action::Collects(3),
    Action::Reports(3, 3, Outcome::Done, 0, 0, 1),
    Action::Begins(3, &NO_SENSE),
    Action::Drains(4),
];

/// An abort of a ticket whose sense is asked for comes too late; a bus reset then ends it without its sense.
const SENSES: [Action; 27] = [
    Action::Submits(0, 0),
    Action::Rests(0),
    Action::Makes(REAPER, Step::TakeDone, Reply::Taken(0)),
    Action::Makes(REAPER, Step::Sense(0), Reply::Made),
    Action::Holds(0x1000, 0x1_0000),
    Action::Makes(ABORTER, Step::Act(0), Reply::TooLate),
    Action::Makes(REAPER, Step::Signal, Reply::Made),
    Action::Rests(0),
    Action::Holds(0x1000, 0x1600),
    Action::Collects(0),
    Action::Reports(0, 0, Outcome::Done, 2, 512, 1),
    Action::Senses(0, &AFTER_END),
    Action::Logs(0, 0, Some(LogEntry::End(0))),
    Action::Logs(0, 1, Some(LogEntry::Sense(0))),
    Action::Submits(1, 1),
    Action::Rests(0),
    Action::Makes(REAPER, Step::TakeDone, Reply::Taken(1)),
    Action::Makes(REAPER, Step::Sense(1), Reply::Made),
    Action::Makes(ABORTER, Step::Act(1), Reply::Started),
    Action::Holds(0x1000, 0x1600),
    Action::Makes(REAPER, Step::Sweep(1), Reply::Made),
    Action::Makes(REAPER, Step::Restart, Reply::Made),
    Action::Makes(REAPER, Step::Signal, Reply::Made),
    Action::Frees(1),
    Action::Reports(1, 1, Outcome::Done, 2, 512, 1),
    Action::Senses(1, &[]),
    Action::Drains(2),
];

#[test]
fn a_reset_ends_what_has_passed(rt: HostRuntime) -> Result<(), Fail> {
    let rows: [(&str, &str, &[Action], &[Action]); 3] = [
        (ONE_UNIT, RESET, &RESETS, &ASKED_FOR),
        (SENSING, RESET, &RESETS, &BY_ITSELF),
        (SENSING, PAST_THE_END, &SENSES, &[]),
    ];
    for (rig, work, actions, others) in rows {
        let failure = failure_of(rt.alloc(), (rig, work), actions, others)?;
        assert!(rt; failure.is_none(), "{rig} {work}: {failure:?}");
    }
    Ok(())
}

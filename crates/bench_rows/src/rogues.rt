//! A unit that breaks the rules of the bus: it reselects with a tag that no ticket has, and goes bus free in place of a status.

use crate::actions::{Action, failure_of};
use crate::rigs::{DISPATCH, LEAVE, REAPER, SECOND};
use chip_regs::Cause;
use rig_types::{Outcome, Step};
use std::test::Fail;
use unit_law::LogEntry;
use world_law::Reply;

/// A unit that keeps the rules, and one that doesn't.
const ROGUE: &str = r#"version = 1
[[unit]]
target = 0
lun = 0
blocks = 64
[[unit]]
target = 1
lun = 0
blocks = 64
rogue = true
"#;

/// A READ(10) of the one, and two of the other.
const THREE_READS: &str = r#"version = 1
[[submitter]]
command = [
  { unit = 0, cdb = "28000000000300000100", segments = [512], direction = "in" },
  { unit = 1, cdb = "28000000000300000100", segments = [512], direction = "in" },
  { unit = 1, cdb = "28000000000300000100", segments = [512], direction = "in" },
]
"#;

/// Where the script waits until the bus is free.
const LEAVES: u32 = 0x150;

/// What the unit that breaks the rules shows: COMMAND, the message DISCONNECT, and a free bus.
const COMMAND: u32 = 0x2000_0000;

const DISCONNECT: u32 = 0x6000_0004;

const BUS_FREE: u32 = 0x4000_0000;
/// It is the second candidate, and its tag is 0x80.
const UNUSED_TAG: u32 = SECOND + 0x8000;

const CONTAINED: [Action; 26] = [
    Action::Submits(0, 0),
    Action::Rests(LEAVE),
    Action::Submits(1, 1),
    Action::RunsTo(DISPATCH, COMMAND),
    Action::RunsTo(LEAVES, DISCONNECT),
    Action::Rests(BUS_FREE),
    Action::StopsBy(Cause::Sir(4), UNUSED_TAG),
    Action::Makes(REAPER, Step::ResetBus, Reply::Started),
    Action::Makes(REAPER, Step::Sweep(0), Reply::Made),
    Action::Makes(REAPER, Step::Sweep(1), Reply::Made),
    Action::Makes(REAPER, Step::Restart, Reply::Made),
    Action::Frees(0),
    Action::Frees(1),
    Action::Reports(0, 0, Outcome::Reset, 0xff, 512, 1),
    Action::Reports(1, 1, Outcome::Broken, 0xff, 512, 1),
    Action::Logs(0, 1, Some(LogEntry::Clear)),
    Action::Logs(1, 0, Some(LogEntry::Clear)),
    Action::Submits(2, 2),
    Action::RunsTo(DISPATCH, COMMAND),
    Action::StopsBy(Cause::Udc, BUS_FREE),
    Action::Makes(REAPER, Step::ResetBus, Reply::Started),
    Action::Makes(REAPER, Step::Sweep(2), Reply::Made),
    Action::Makes(REAPER, Step::Restart, Reply::Made),
    Action::Frees(2),
    Action::Reports(2, 2, Outcome::Broken, 0xff, 512, 1),
    Action::Drains(3),
];

#[test]
fn a_unit_that_breaks_the_rules_is_contained(rt: HostRuntime) -> Result<(), Fail> {
    let failure = failure_of(rt.alloc(), (ROGUE, THREE_READS), &CONTAINED, &[])?;
    assert!(rt; failure.is_none(), "{failure:?}");
    Ok(())
}

//! Tickets that are refused, tickets without a target, and the order in which tickets are taken.

use crate::actions::{Action, Row, check};
use cmd_block::{ENDED, NO_TARGET};
use desk_law::Taken;
use rig_types::Outcome;
use std::test::Fail;

/// The status QUEUE FULL.
const QUEUE_FULL: u32 = 0x28;
/// STATUS where no status came.
const NO_STATUS: u32 = 0xff;

const ONE_RETRY: &str = "version = 1\nretries = 1\n[[unit]]\ntarget = 0\nlun = 0\nblocks = 64\n";

const TWO_RETRIES: &str = "version = 1\nretries = 2\n[[unit]]\ntarget = 0\nlun = 0\nblocks = 64\n";
/// A READ(10) of block 3.
const WORK: &str =
    "version = 1\n[[submitter]]\n[[submitter.command]]\nunit = 0\ncdb = \"28000000000300000100\"\nsegments = [512]\ndirection = \"in\"\n";

/// One ticket to its report. No data move.
const TRIES: [Row<'static>; 3] = [
    Row {
        name: "no try left",
        rig: ONE_RETRY,
        work: WORK,
        actions: &[
            Action::Builds(0, 0),
            Action::Links(0),
            Action::Queues(0),
            Action::Ends(0, ENDED, QUEUE_FULL, 0),
            Action::Takes(Taken::Again(0)),
            Action::QueuesAgain(0),
            Action::Ends(0, ENDED, QUEUE_FULL, 0),
            Action::Takes(Taken::Ended(0)),
            Action::Frees(0, (Outcome::Done, 0x28, 2, 512)),
        ],
    },
    Row {
        name: "one try left",
        rig: TWO_RETRIES,
        work: WORK,
        actions: &[
            Action::Builds(0, 0),
            Action::Links(0),
            Action::Queues(0),
            Action::Ends(0, ENDED, QUEUE_FULL, 0),
            Action::Takes(Taken::Again(0)),
            Action::QueuesAgain(0),
            Action::Ends(0, ENDED, QUEUE_FULL, 0),
            Action::Takes(Taken::Again(0)),
            Action::QueuesAgain(0),
            Action::Ends(0, ENDED, 0, 0),
            Action::Takes(Taken::Ended(0)),
            Action::Frees(0, (Outcome::Done, 0, 3, 512)),
        ],
    },
    Row {
        name: "no target",
        rig: ONE_RETRY,
        work: WORK,
        actions: &[
            Action::Builds(0, 0),
            Action::Links(0),
            Action::Queues(0),
            Action::Ends(0, NO_TARGET, NO_STATUS, 0),
            Action::Takes(Taken::Ended(0)),
            Action::Frees(0, (Outcome::NoTarget, 0xff, 1, 512)),
        ],
    },
];

#[test]
fn tries(rt: HostRuntime) -> Result<(), Fail> {
    check(&rt, rt.alloc(), &TRIES)
}

/// The second ticket ends first, and is taken first.
const ORDER: [Row<'static>; 1] = [Row {
    name: "order",
    rig: ONE_RETRY,
    work: WORK,
    actions: &[
        Action::Builds(0, 0),
        Action::Links(0),
        Action::Queues(0),
        Action::Builds(0, 1),
        Action::Links(1),
        Action::Queues(1),
        Action::Ends(1, ENDED, 0, 0),
        Action::Ends(0, ENDED, 0, 1),
        Action::Takes(Taken::Ended(1)),
        Action::Takes(Taken::Ended(0)),
    ],
}];

#[test]
fn order(rt: HostRuntime) -> Result<(), Fail> {
    check(&rt, rt.alloc(), &ORDER)
}

//! What Build refuses.

use crate::actions::{Action, Row, check};
use cmd_block::ENDED;
use desk_law::{Kind, Refused, Taken};
use rig_types::Outcome;
use std::test::Fail;

/// Three units; the first takes two tickets.
const RIG: &str =
    "version = 1\nunit = [{ target = 0, lun = 0, blocks = 64, depth = 2 }, { target = 1, lun = 0, blocks = 64 }, { target = 2, lun = 0, blocks = 64 }]\n";
/// Reads of one block: into 511 bytes, with a short descriptor block, of a tenth unit, and one that is sound.
const WORK: &str =
    "version = 1\n[[submitter]]\ncommand = [{ unit = 0, cdb = \"28000000000000000100\", segments = [511], direction = \"in\" }, { unit = 0, cdb = \"280000000000\", segments = [512], direction = \"in\" }, { unit = 9, cdb = \"28000000000000000100\", segments = [512], direction = \"in\" }, { unit = 0, cdb = \"28000000000000000100\", segments = [512], direction = \"in\" }]\n";

/// Why the first command is refused.
const SHORT: Refused = Refused::BadRequest(Kind::TooShort {
    need: 512,
    has: 511,
});

const REFUSALS: [Row<'static>; 1] = [Row {
    name: "refusals",
    rig: RIG,
    work: WORK,
    actions: &[
        Action::Refuses(0, SHORT),
        Action::Refuses(1, Refused::BadRequest(Kind::CdbLength)),
        Action::Refuses(2, Refused::BadRequest(Kind::NoUnit)),
        Action::Builds(3, 0),
        Action::Builds(3, 1),
        Action::Refuses(3, Refused::LunFull { depth: 2 }),
        Action::Refuses(0, SHORT),
    ],
}];

#[test]
fn refusals(rt: HostRuntime) -> Result<(), Fail> {
    check(&rt, rt.alloc(), &REFUSALS)
}

/// One unit that takes 64 tickets, and reads of 128 blocks and of one.
const LARGE_RIG: &str = "version = 1\n[[unit]]\ntarget = 0\nlun = 0\nblocks = 256\ndepth = 64\n";

const LARGE_WORK: &str =
    "version = 1\n[[submitter]]\ncommand = [{ unit = 0, cdb = \"28000000000000008000\", segments = [65536], direction = \"in\" }, { unit = 0, cdb = \"28000000000000000100\", segments = [512], direction = \"in\" }]\n";

/// A ticket that is freed makes room in a region that is full.
const FULL_REGION: [Row<'static>; 1] = [Row {
    name: "full region",
    rig: LARGE_RIG,
    work: LARGE_WORK,
    actions: &[
        Action::BuildsAll(0, 32),
        Action::Refuses(1, Refused::RegionFull { len: 512 }),
        Action::Links(5),
        Action::Queues(5),
        Action::Ends(5, ENDED, 0, 0),
        Action::Takes(Taken::Ended(5)),
        Action::Frees(5, (Outcome::Done, 0, 1, 65_536)),
        Action::Builds(1, 32),
    ],
}];

#[test]
fn full_region(rt: HostRuntime) -> Result<(), Fail> {
    check(&rt, rt.alloc(), &FULL_REGION)
}

/// One unit that takes 256 tickets, and a command without data.
const DEEP_RIG: &str = "version = 2\n[[unit]]\ntarget = 0\nlun = 0\nblocks = 64\ndepth = 256\n";

const TEST_UNIT_READY: &str =
    "version = 1\n[[submitter]]\ncommand = [{ unit = 0, cdb = \"000000000000\" }]\n";

const FULL_UNIT: [Row<'static>; 1] = [Row {
    name: "256 tickets",
    rig: DEEP_RIG,
    work: TEST_UNIT_READY,
    actions: &[
        Action::BuildsAll(0, 256),
        Action::Names(0, 255, 255),
        Action::Refuses(0, Refused::LunFull { depth: 256 }),
    ],
}];

#[test]
fn a_unit_of_256_tickets(rt: HostRuntime) -> Result<(), Fail> {
    check(&rt, rt.alloc(), &FULL_UNIT)
}

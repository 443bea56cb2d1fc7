//! The block of a first ticket, and tag entries.

use crate::actions::{Action, Row, check};
use std::test::Fail;

/// A unit with blocks, whose tickets are as many as a rig may have.
const RIG: &str = "version = 1\n[[unit]]\ntarget = 0\nlun = 0\nblocks = 64\n";
/// A READ(10) of block 3.
const WORK: &str =
    "version = 1\n[[submitter]]\n[[submitter.command]]\nunit = 0\ncdb = \"28000000000300000100\"\nsegments = [512]\ndirection = \"in\"\n";

/// The block of a first ticket at 0x10000, its message bytes and its descriptor block, and its tag entry after Link.
const FIRST_BLOCK: [Row<'static>; 1] = [Row {
    name: "first block",
    rig: RIG,
    work: WORK,
    actions: &[
        Action::Builds(0, 0),
        Action::Holds(0x1_0000, 0x60),
        Action::Holds(0x1_0004, 0x128),
        Action::Holds(0x1_0008, 0x338),
        Action::Holds(0x1_000c, 0x338),
        Action::Holds(0x1_0010, 0),
        Action::Holds(0x1_0014, 0xff),
        Action::Holds(0x1_0018, 0),
        Action::Holds(0x1_001c, 0x1c0),
        Action::Holds(0x1_0020, 3),
        Action::Holds(0x1_0024, 0x1_00e0),
        Action::Holds(0x1_0028, 10),
        Action::Holds(0x1_002c, 0x1_00f0),
        Action::Holds(0x1_0030, 1),
        Action::Holds(0x1_0034, 0x1_0014),
        Action::Holds(0x1_00b8, 0x200),
        Action::Holds(0x1_00bc, 0x20_0000),
        Action::Holds(0x1_00e0, 0x00_20c0),
        Action::Holds(0x1_00f0, 0x28),
        Action::Holds(0x1_00f4, 0x0300),
        Action::Links(0),
        Action::Holds(0x4000, 0x1_0000),
    ],
}];

#[test]
fn first_block(rt: HostRuntime) -> Result<(), Fail> {
    check(&rt, rt.alloc(), &FIRST_BLOCK)
}

const TEST_UNIT_READY: &str =
    "version = 1\n[[submitter]]\n[[submitter.command]]\nunit = 1\ncdb = \"000000000000\"\n";

/// Two units in each version; a command of unit 1, the tag of its eighth ticket and where its entry lies.
const TAGS: [Row<'static>; 2] = [
    Row {
        name: "version 2",
        rig: "version = 2\nunit = [{ target = 0, lun = 0, blocks = 64 }, { target = 1, lun = 0, blocks = 64 }]\n",
        work: TEST_UNIT_READY,
        actions: &[
            Action::BuildsAll(0, 8),
            Action::Names(1, 7, 7),
            Action::Links(7),
            Action::Holds(0x4704, 0x1_0e00),
        ],
    },
    Row {
        name: "version 1",
        rig: "version = 1\nunit = [{ target = 0, lun = 0, blocks = 64 }, { target = 1, lun = 0, blocks = 64 }]\n",
        work: TEST_UNIT_READY,
        actions: &[
            Action::BuildsAll(0, 8),
            Action::Names(1, 28, 7),
            Action::Links(7),
            Action::Holds(0x441c, 0x1_0e00),
        ],
    },
];

#[test]
fn tags_by_version(rt: HostRuntime) -> Result<(), Fail> {
    check(&rt, rt.alloc(), &TAGS)
}

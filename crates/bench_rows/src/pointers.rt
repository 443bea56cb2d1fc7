//! Data pointers: a command whose data come in pieces, and one that starts again.

use crate::actions::{Action, failure_of};
use crate::rigs::{DISPATCH, FIRST, GO, ONE_UNIT};
use chip_regs::Cause;
use rig_types::Outcome;
use std::test::Fail;
use unit_law::LogEntry;
use world_law::Owner;

/// READ(10) of block 3 into three segments.
const THREE_SEGMENTS: &str = r#"version = 1
[[submitter]]
[[submitter.command]]
unit = 0
cdb = "28000000000300000100"
segments = [100, 300, 112]
direction = "in"
"#;

/// READ(10) of block 3 into one segment.
const ONE_SEGMENT: &str = r#"version = 1
[[submitter]]
[[submitter.command]]
unit = 0
cdb = "28000000000300000100"
segments = [512]
direction = "in"
"#;

/// What a task does that has moved data and wants more: it leaves, saves its pointer, or restores it.
const LEAVE_DATA: u32 = 0;

const SAVE: u32 = 0x0200_0000;

const RESTORE: u32 = 0x0300_0000;
/// A task that has moved all restores its pointer.
const RESTORE_ALL: u32 = 0x0400_0000;

/// Sixty bytes and SAVE DATA POINTER, 240 more and RESTORE POINTERS, then the 452 that are left.
const IN_PIECES: [Action; 45] = [
    Action::Owns(0, Owner::Program),
    Action::Owns(0x8ffc, Owner::Program),
    Action::Owns(0x1ffc, Owner::Control),
    Action::Owns(0x2000, Owner::StartRing),
    Action::Owns(0x3ffc, Owner::DoneRing),
    Action::Owns(0x43fc, Owner::Table(0)),
    Action::Owns(0x4400, Owner::Free),
    Action::Owns(0x1_0000, Owner::Free),
    Action::Submits(0, 0),
    Action::Owns(0x1_01fc, Owner::Block(0)),
    Action::Owns(0x1_0200, Owner::Free),
    Action::Owns(0x20_01fc, Owner::Chunk(0)),
    Action::Owns(0x20_0600, Owner::Free),
    // the three segments, and the pointers
    Action::Holds(0x1_00a8, 100),
    Action::Holds(0x1_00ac, 0x20_0000),
    Action::Holds(0x1_00b0, 300),
    Action::Holds(0x1_00b4, 0x20_0200),
    Action::Holds(0x1_00b8, 112),
    Action::Holds(0x1_00bc, 0x20_0400),
    Action::Holds(0x1_0008, 0x328),
    Action::Holds(0x1_000c, 0x328),
    Action::RunsTo(DISPATCH, GO),
    Action::StopsBy(Cause::Ma, 59),
    Action::Mends,
    // context 0, and the active pointer
    Action::Holds(0x1_00c0, 40),
    Action::Holds(0x1_00c4, 0x20_003c),
    Action::Holds(0x1_00c8, 0x330),
    Action::Holds(0x1_0008, 0x3e0),
    Action::RunsTo(DISPATCH, SAVE),
    Action::Holds(0x1_000c, 0x3e0),
    Action::StopsBy(Cause::Ma, 239),
    Action::Mends,
    // context 1
    Action::Holds(0x1_00d0, 100),
    Action::Holds(0x1_00d4, 0x20_02c8),
    Action::Holds(0x1_00d8, 0x338),
    Action::Holds(0x1_0008, 0x3f8),
    Action::RunsTo(DISPATCH, RESTORE),
    Action::Holds(0x1_0008, 0x3e0),
    Action::RunsTo(DISPATCH, 0),
    Action::Rests(0),
    Action::Collects(0),
    Action::Owns(0x1_01fc, Owner::Free),
    Action::Reports(0, 0, Outcome::Done, 0, 0, 1),
    Action::Counts(0, 512, 3),
    Action::Drains(1),
];

/// The unit disconnects without SAVE after 200 of 512 bytes, sends all from the start, restores once, and sends all again.
const AGAIN: [Action; 15] = [
    Action::Submits(0, 0),
    Action::RunsTo(DISPATCH, GO),
    Action::StopsBy(Cause::Ma, 199),
    Action::Mends,
    Action::Rests(LEAVE_DATA),
    Action::RunsTo(DISPATCH, FIRST),
    Action::RunsTo(DISPATCH, GO),
    Action::RunsTo(DISPATCH, RESTORE_ALL),
    Action::RunsTo(DISPATCH, GO),
    Action::Rests(0),
    Action::Collects(0),
    Action::Reports(0, 0, Outcome::Done, 0, 0, 1),
    Action::Counts(0, 512, 3),
    Action::Logs(0, 1, Some(LogEntry::End(0))),
    Action::Drains(1),
];

#[test]
fn data_come_where_they_belong(rt: HostRuntime) -> Result<(), Fail> {
    let rows: [(&str, &str, &[Action]); 2] = [
        ("in pieces", THREE_SEGMENTS, &IN_PIECES),
        ("again", ONE_SEGMENT, &AGAIN),
    ];
    for (name, work, actions) in rows {
        let failure = failure_of(rt.alloc(), (ONE_UNIT, work), actions, &[])?;
        assert!(rt; failure.is_none(), "{name}: {failure:?}");
    }
    Ok(())
}

//! Tasks that are dropped.

use crate::actions::{Action, Kind, Row, check};
use scsi_words::Phase;
use std::test::Fail;
use target_law::Move;
use unit_law::LogEntry;

/// WRITE(10) and READ(10) of blocks 5 and 6.
const WRITE_5: &[u8] = &[0x2a, 0, 0, 0, 0, 5, 0, 0, 2, 0];

const READ_5: &[u8] = &[0x28, 0, 0, 0, 0, 5, 0, 0, 2, 0];
/// READ(10) of blocks 0, 1 and 2.
const READ_0: &[u8] = &[0x28, 0, 0, 0, 0, 0, 0, 0, 1, 0];

const READ_1: &[u8] = &[0x28, 0, 0, 0, 0, 1, 0, 0, 1, 0];

const READ_2: &[u8] = &[0x28, 0, 0, 0, 0, 2, 0, 0, 1, 0];
/// The message ABORT TAG.
const ABORT_TAG: u8 = 0x0d;
/// The status GOOD or CHECK CONDITION.
const END: Move = Move::Go { bytes: 0 };

const ABORTED_WRITE: Row<'static> = Row {
    name: "an aborted write",
    kind: Kind::Plain,
    room: 8,
    actions: &[
        Action::Begins(1, WRITE_5, Some(4)),
        Action::Makes(Move::Go { bytes: 700 }),
        Action::Shows(Phase::DataOut),
        Action::Takes(700, 0xa5),
        Action::TakesNone,
        Action::Makes(Move::SaveLeave),
        Action::Tells(&[2, 4], true),
        Action::Reselects(0, 0),
        Action::Tells(&[0x83, 0x20, 1], false),
        Action::Asks(ABORT_TAG),
        Action::IsFree,
        Action::CanReselect(0),
        Action::Logs(&[LogEntry::Drop(4, 700)]),
        Action::Begins(1, READ_5, Some(5)),
        Action::Holds(1024, &[(511, 0xa5), (512, 6)]),
        Action::Finishes(END, 0),
    ],
};

#[test]
fn an_aborted_write_stores_whole_blocks(rt: HostRuntime) -> Result<(), Fail> {
    check(&rt, rt.alloc(), &ABORTED_WRITE)
}

const BUS_RESET: Row<'static> = Row {
    name: "a bus reset",
    kind: Kind::Plain,
    room: 16,
    actions: &[
        Action::Begins(1, READ_0, Some(0)),
        Action::Makes(Move::Leave),
        Action::Tells(&[4], true),
        Action::Begins(2, READ_1, Some(1)),
        Action::Makes(Move::Go { bytes: 100 }),
        Action::Moves(60),
        Action::Resets,
        Action::IsFree,
        Action::CanReselect(0),
        Action::Begins(3, READ_2, Some(2)),
        Action::Finishes(END, 2),
        Action::Logs(&[
            LogEntry::Look(1),
            LogEntry::Drop(0, 0),
            LogEntry::Drop(1, 60),
            LogEntry::Clear,
            LogEntry::End(2),
        ]),
    ],
};

#[test]
fn a_bus_reset_drops_and_leaves_attention(rt: HostRuntime) -> Result<(), Fail> {
    check(&rt, rt.alloc(), &BUS_RESET)
}

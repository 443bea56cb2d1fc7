//! Commands of a unit that keeps the rules.

use crate::actions::{Action, Kind, Row, check};
use scsi_words::Status;
use std::test::Fail;
use target_law::{Move, Nexus};
use unit_law::LogEntry;

/// READ(10) of block 0, of block 3, and of one past the last.
const READ_0: &[u8] = &[0x28, 0, 0, 0, 0, 0, 0, 0, 1, 0];

const READ_3: &[u8] = &[0x28, 0, 0, 0, 0, 3, 0, 0, 1, 0];

const READ_64: &[u8] = &[0x28, 0, 0, 0, 0, 64, 0, 0, 1, 0];
/// REQUEST SENSE for 18 bytes.
const SENSE: &[u8] = &[3, 0, 0, 0, 18, 0];
/// The status GOOD or CHECK CONDITION.
const END: Move = Move::Go { bytes: 0 };

const STARTS_AGAIN: Row<'static> = Row {
    name: "a read that starts again",
    kind: Kind::Plain,
    room: 8,
    actions: &[
        Action::Begins(5, READ_3, Some(7)),
        Action::Counts(200, 3),
        Action::Makes(Move::Leave),
        Action::Tells(&[4], true),
        Action::Reselects(0, 0),
        Action::Tells(&[0x83, 0x20, 5], false),
        Action::Names(Nexus { lun: 3, tag: 5 }),
        Action::Counts(512, 3),
        Action::Makes(Move::Restore),
        Action::Tells(&[3], false),
        Action::Counts(512, 3),
        Action::Finishes(END, 0),
        Action::Logs(&[LogEntry::Look(7), LogEntry::End(7)]),
    ],
};

#[test]
fn a_read_starts_again_after_disconnecting(rt: HostRuntime) -> Result<(), Fail> {
    check(&rt, rt.alloc(), &STARTS_AGAIN)
}

const REFUSALS: Row<'static> = Row {
    name: "refusals",
    kind: Kind::Refusing,
    room: 4,
    actions: &[
        Action::BeginsNone(1, READ_0, None),
        Action::Begins(1, READ_0, Some(6)),
        Action::Finishes(Move::Busy, 0x08),
        Action::Begins(1, READ_0, Some(6)),
        Action::Finishes(Move::QueueFull, 0x28),
        Action::Begins(1, READ_0, Some(6)),
        Action::Lacks(Move::Busy),
        Action::Lacks(Move::QueueFull),
        Action::NamesAgain(7 << 24),
        Action::Logs(&[
            LogEntry::Refuse(6, Status::Busy),
            LogEntry::Refuse(6, Status::QueueFull),
        ]),
    ],
};

#[test]
fn a_ticket_is_refused_at_most_twice(rt: HostRuntime) -> Result<(), Fail> {
    check(&rt, rt.alloc(), &REFUSALS)
}

const OWN_SENSE: Row<'static> = Row {
    name: "sense",
    kind: Kind::Plain,
    room: 8,
    actions: &[
        Action::Begins(2, READ_64, Some(0)),
        Action::Finishes(END, 2),
        Action::Begins(2, SENSE, Some(0)),
        Action::Gives(&[
            0x70, 0, 5, 0, 0, 0, 0, 0x0a, 0, 0, 0, 0, 0x21, 0, 0, 0, 0, 0,
        ]),
        Action::Finishes(END, 0),
        Action::Logs(&[LogEntry::End(0), LogEntry::Sense(0)]),
    ],
};

#[test]
fn a_ticket_asks_for_its_sense(rt: HostRuntime) -> Result<(), Fail> {
    check(&rt, rt.alloc(), &OWN_SENSE)
}

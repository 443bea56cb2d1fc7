//! A unit that breaks the rules.

use crate::actions::{Action, Kind, Row, check};
use scsi_words::Phase;
use std::test::Fail;
use unit_law::LogEntry;

const ROGUE: Row<'static> = Row {
    name: "a unit that breaks the rules",
    kind: Kind::Rogue,
    room: 1,
    actions: &[
        Action::Selects,
        Action::Shows(Phase::MsgOut),
        Action::Sends(0xc3),
        Action::Chooses(0x0000_0009, Phase::DataIn, 10),
        Action::Chooses(0x2000_0001, Phase::Command, 10),
        Action::Chooses(0xf000_0056, Phase::MsgIn, 1),
        Action::Acts(0x5000_0000),
        Action::Shows(Phase::MsgOut),
        Action::Sends(0x0d),
        Action::Acts(0x4000_0000),
        Action::IsFree,
        Action::CanReselect(1),
        Action::Reselects(0, 77),
        Action::Tells(&[0x83, 0x20, 77], false),
        Action::Resets,
        Action::IsFree,
        Action::Logs(&[LogEntry::Clear]),
    ],
};

#[test]
fn words_choose_what_a_rogue_shows(rt: HostRuntime) -> Result<(), Fail> {
    check(&rt, rt.alloc(), &ROGUE)
}

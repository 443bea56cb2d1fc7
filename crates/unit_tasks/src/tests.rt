use super::*;
use cdb_codec::Cdb;
use rig_types::{Pattern, Unit};
use std::process::Abort;
use std::test::Fail;
use unit_law::LogEntry;

const UNIT: Unit = Unit {
    target: 0,
    lun: 3,
    blocks: 2,
    pattern: Pattern::Zero,
    depth: 3,
    disconnects: 1,
    refusals: 0,
    absent: false,
    rogue: false,
};

#[test]
fn a_reset_drops_by_rising_tag(rt: HostRuntime) -> Result<(), Fail> {
    let mut unit = QueuedUnit::open(rt.alloc(), &UNIT)?;
    assert!(rt; !unit.can_reset());
    unit.core.log.reserve(4)?;
    let late = unit.begin(9, 0, Cdb::TestUnitReady);
    let early = unit.begin(4, 1, Cdb::TestUnitReady);
    unit.tasks.insert(late);
    unit.tasks.insert(early);
    assert!(rt; unit.tasks.has_tag(4) && unit.tasks.has_tag(9));
    assert!(rt; !unit.tasks.has_tag(5));
    assert_eq!(rt; unit.candidates(), 2);
    let first = unit.tasks.take_out(0);
    assert_eq!(rt; first.tag(), 4);
    unit.tasks.insert(first);
    unit.reset();
    assert_eq!(rt; unit.tasks.len(), 0);
    assert!(rt; unit.core.log.entry(0) == Some(LogEntry::Drop(1, 0)));
    assert!(rt; unit.core.log.entry(1) == Some(LogEntry::Drop(0, 0)));
    assert!(rt; unit.core.log.entry(2) == Some(LogEntry::Clear));
    assert!(rt; unit.core.log.entry(3).is_none());
    Ok(())
}

#[test]
fn a_task_ends_and_one_is_dropped(rt: HostRuntime) -> Result<(), Fail> {
    let mut unit = QueuedUnit::open(rt.alloc(), &UNIT)?;
    unit.core.log.reserve(1)?;
    let done = unit.begin(1, 0, Cdb::TestUnitReady);
    unit.tasks.give_back(done);
    let aborted = unit.begin(1, 1, Cdb::TestUnitReady);
    unit.drop_task(&aborted);
    unit.tasks.give_back(aborted);
    assert!(rt; unit.core.log.entry(0) == Some(LogEntry::Drop(1, 0)));
    assert_eq!(rt; unit.entries_of_reset(), 1);
    assert!(rt; !unit.can_reset());
    Ok(())
}

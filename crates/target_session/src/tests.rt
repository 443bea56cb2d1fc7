use super::*;
use cdb_codec::Cdb;
use scsi_words::Phase;
use std::process::Abort;
use std::test::Fail;
use unit_task::Task;

#[test]
fn a_reselection_names_its_nexus(rt: HostRuntime) -> Result<(), Fail> {
    let mut task = Task::idle(rt.alloc())?;
    task.begin(9, 4, Cdb::TestUnitReady, 2, false);
    let mut connection = Connection::reselect(1, task);
    assert_eq!(rt; connection.lun(), 1);
    assert_eq!(rt; connection.tag(), 9);
    assert!(rt; connection.is_reselected());
    assert!(rt; connection.phase() == Some(Phase::MsgIn));
    for byte in [0x81, 0x20, 9] {
        assert!(rt; connection.byte_in() == Some(byte));
        assert!(rt; connection.byte_in().is_none());
        connection.go_on();
    }
    assert!(rt; connection.phase().is_none());
    Ok(())
}

use super::*;
use cdb_codec::Cdb;
use plain_lun::Lun;
use rig_types::Pattern;
use scsi_words::{Direction, Status};
use std::process::Abort;
use std::test::Fail;

#[test]
fn a_write_goes_back_to_its_saved_position(rt: HostRuntime) -> Result<(), Fail> {
    let mut unit = Lun::new(rt.alloc(), 2, Pattern::Zero)?;
    let mut task = Task::idle(rt.alloc())?;
    let write = Cdb::Write {
        lba: 1,
        blocks: 1,
        six: true,
    };
    task.begin(7, 3, write, 2, false);
    assert_eq!(rt; task.tag(), 7);
    assert_eq!(rt; task.ticket(), 3);
    assert_eq!(rt; task.budget(), 2);
    assert!(rt; task.is_fresh() && !task.senses() && !task.has_answer());
    assert!(rt; task.direction() == Direction::Out);
    assert!(rt; task.status(&unit) == Status::Good);
    assert_eq!(rt; task.remaining(&unit), 512);
    task.move_data();
    assert!(rt; task.has_just_moved());
    task.receive(0xA5);
    assert_eq!(rt; task.high(), 1);
    assert_eq!(rt; task.remaining(&unit), 511);
    task.spend();
    task.leave();
    assert_eq!(rt; task.budget(), 1);
    assert_eq!(rt; task.remaining(&unit), 512);
    task.drop_from(&mut unit);
    assert!(rt; task.status(&unit) == Status::Good);
    Ok(())
}

use super::*;
use scsi_words::Status;
use std::marker::Send;
use std::process::Abort;
use std::test::Fail;
use unit_law::LogEntry;

fn is_send<T: Send>(_value: &T) {}

#[test]
fn counts_each_ticket_by_itself(rt: HostRuntime) -> Result<(), Fail> {
    let mut log = UnitLog::new(rt.alloc());
    assert_eq!(rt; log.spare(), 0);
    log.reserve(6)?;
    assert_eq!(rt; log.spare(), 6);
    log.push(LogEntry::Refuse(7, Status::Busy));
    log.push(LogEntry::Refuse(3, Status::QueueFull));
    log.push(LogEntry::Look(3));
    log.push(LogEntry::Refuse(7, Status::Busy));
    log.push(LogEntry::End(3));
    assert_eq!(rt; log.spare(), 1);
    assert_eq!(rt; log.refusals(7), 2);
    assert_eq!(rt; log.refusals(3), 1);
    assert_eq!(rt; log.refusals(5), 0);
    assert!(rt; log.has_ended(3));
    assert!(rt; !log.has_ended(7));
    assert!(rt; log.entry(4) == Some(LogEntry::End(3)));
    assert!(rt; log.entry(5).is_none());
    log.reserve(9)?;
    assert_eq!(rt; log.room(), 14);
    log.lower_room(6);
    assert_eq!(rt; log.spare(), 1);
    is_send(&log);
    Ok(())
}

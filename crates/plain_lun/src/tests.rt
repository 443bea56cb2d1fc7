use super::*;
use cdb_codec::{Cdb, cdb_length, need, read_cdb};
use rig_types::Pattern;
use scsi_words::Direction;
use scsi_words::Status::{self, Check, Good};
use std::process::Abort;
use std::test::Fail;

/// Performs a command that is spelled in bytes; a write receives bytes 0xA5.
fn run(rt: &impl Abort, unit: &mut Lun, cdb: &[u8], out: &mut [u8]) -> Answer {
    let block = [0xA5; 512];
    assert!(rt; cdb.len() > 0);
    assert_eq!(rt; cdb.len(), cdb_length(cdb[0]) as usize);
    let command = read_cdb(cdb);
    let wants = unit.wants(&command);
    assert!(rt; wants.bytes as usize <= out.len());
    let size = if wants.direction == Direction::Out {
        wants.bytes as usize
    } else {
        0
    };
    assert!(rt; size <= block.len());
    let received = &block[..size];
    if need(&command).direction == Direction::Out {
        assert_eq!(rt; received.len(), wants.bytes as usize);
    }
    let foreseen = unit.status_now(&command);
    let answer = unit.perform(&command, received, out);
    assert_eq!(rt; answer.status, foreseen);
    answer
}

/// The key and the additional code of the sense that the unit would give.
fn sense_of(unit: &Lun) -> (u8, u8) {
    let mut bytes = [0; 18];
    unit.sense_now(&mut bytes);
    (bytes[2], bytes[12])
}

#[test]
fn follows_the_rules_in_order(rt: HostRuntime) -> Result<(), Fail> {
    let mut unit = Lun::new(rt.alloc(), 4, Pattern::Count)?;
    let mut out = [0; 1024];
    // An empty block stands for a reset.
    let cases: [(&[u8], Status, u32, &[u8], (u8, u8)); 33] = [
        (
            &[0x12, 0, 0, 0, 96, 0],
            Good,
            36,
            &[0x00, 0x00, 0x02, 0x02, 0x1F, 0x00, 0x00, 0x02, 0x53],
            (0, 0),
        ),
        (
            &[0x12, 0, 0, 0, 5, 0],
            Good,
            5,
            &[0x00, 0x00, 0x02, 0x02, 0x1F],
            (0, 0),
        ),
        (
            &[0x28, 0, 0, 0, 0, 3, 0, 0, 1, 0],
            Good,
            512,
            &[3, 4, 5],
            (0, 0),
        ),
        (&[0x28, 0, 0, 0, 0, 4, 0, 0, 1, 0], Check, 0, &[], (5, 0x21)),
        (&[0x00, 0, 0, 0, 0, 0], Good, 0, &[], (0, 0)),
        (&[0x28, 0, 0, 0, 0, 3, 0, 0, 2, 0], Check, 0, &[], (5, 0x21)),
        (
            &[0x03, 0, 0, 0, 18, 0],
            Good,
            18,
            &[
                0x70, 0, 5, 0, 0, 0, 0, 0x0A, 0, 0, 0, 0, 0x21, 0, 0, 0, 0, 0,
            ],
            (0, 0),
        ),
        (
            &[0x03, 0, 0, 0, 255, 0],
            Good,
            18,
            &[0x70, 0, 0, 0, 0, 0, 0, 0x0A, 0, 0, 0, 0, 0, 0, 0, 0, 0, 0],
            (0, 0),
        ),
        (&[0x0A, 0, 0, 1, 1, 0], Good, 0, &[], (0, 0)),
        (
            &[0x08, 0, 0, 1, 1, 0],
            Good,
            512,
            &[0xA5, 0xA5, 0xA5],
            (0, 0),
        ),
        (&[0x08, 0, 0, 2, 2, 0], Good, 1024, &[2, 3, 4], (0, 0)),
        (&[0x2A, 0, 0, 0, 0, 4, 0, 0, 1, 0], Check, 0, &[], (5, 0x21)),
        (&[0x12, 0, 0, 0, 36, 0], Good, 36, &[0x00], (0, 0)),
        (&[0x12, 1, 0, 0, 36, 0], Check, 0, &[], (5, 0x24)),
        (&[0x1A, 0, 0, 0, 4, 0], Check, 0, &[], (5, 0x20)),
        (&[0x03, 0, 0, 0, 0, 0], Good, 0, &[], (0, 0)),
        (
            &[0x25, 0, 0, 0, 0, 0, 0, 0, 0, 0],
            Good,
            8,
            &[0, 0, 0, 3, 0, 0, 2, 0],
            (0, 0),
        ),
        (&[0x28, 0, 0, 0, 0, 4, 0, 0, 0, 0], Good, 0, &[], (0, 0)),
        (&[0x28, 0, 0, 0, 0, 5, 0, 0, 0, 0], Check, 0, &[], (5, 0x21)),
        (&[], Good, 0, &[], (6, 0x29)),
        (&[0x12, 0, 0, 0, 36, 0], Good, 36, &[0x00], (6, 0x29)),
        (&[0x28, 0, 0, 0, 0, 0, 0, 0, 1, 0], Check, 0, &[], (6, 0x29)),
        (
            &[0x28, 0, 0, 0, 0, 0, 0, 0, 1, 0],
            Good,
            512,
            &[0, 1, 2],
            (0, 0),
        ),
        (&[], Good, 0, &[], (6, 0x29)),
        (&[0x03, 0, 0, 0, 4, 0], Good, 4, &[0x70, 0, 6, 0], (0, 0)),
        (&[0x00, 0, 0, 0, 0, 0], Good, 0, &[], (0, 0)),
        (&[], Good, 0, &[], (6, 0x29)),
        (&[0x03, 0, 0, 0, 4, 1], Check, 0, &[], (6, 0x29)),
        (&[0x03, 0, 0, 0, 4, 1], Check, 0, &[], (5, 0x24)),
        (&[], Good, 0, &[], (6, 0x29)),
        (&[0x0A, 0, 0, 2, 1, 0], Check, 0, &[], (6, 0x29)),
        (&[0x08, 0, 0, 2, 1, 0], Good, 512, &[2, 3, 4], (0, 0)),
        (&[0x08, 0, 0, 0, 1, 0], Good, 512, &[0, 1, 2], (0, 0)),
    ];
    for (n, (cdb, status, sent, front, sense)) in cases.iter().enumerate() {
        if cdb.len() == 0 {
            unit.clear();
        } else {
            let answer = run(&rt, &mut unit, cdb, &mut out);
            assert_eq!(rt; answer.status, *status, "command {n}");
            assert_eq!(rt; answer.sent, *sent, "command {n}");
            assert!(rt; out.starts_with(front), "command {n}");
        }
        assert_eq!(rt; sense_of(&unit), *sense, "command {n}");
    }
    Ok(())
}

#[test]
fn tells_what_it_is(rt: HostRuntime) -> Result<(), Fail> {
    let mut unit = Lun::new(rt.alloc(), 64, Pattern::Zero)?;
    let mut out = [0; 512];
    run(&rt, &mut unit, &[0x12, 0, 0, 0, 96, 0], &mut out);
    let want = b"\x00\x00\x02\x02\x1F\x00\x00\x02SYMBENCHPLAIN UNIT      0001";
    assert!(rt; out.starts_with(want));
    run(&rt, &mut unit, &[0x25, 0, 0, 0, 0, 0, 0, 0, 0, 0], &mut out);
    assert!(rt; out.starts_with(&[0, 0, 0, 0x3F, 0, 0, 2, 0]));
    Ok(())
}

#[test]
fn keeps_whole_blocks_of_a_dropped_write(rt: HostRuntime) -> Result<(), Fail> {
    let mut unit = Lun::new(rt.alloc(), 3, Pattern::Count)?;
    let write = Cdb::Write {
        lba: 1,
        blocks: 2,
        six: false,
    };
    unit.drop_command(&write, &[0xA5; 700]);
    let mut out = [0; 512];
    run(&rt, &mut unit, &[0x08, 0, 0, 1, 1, 0], &mut out);
    assert_eq!(rt; out, [0xA5; 512]);
    run(&rt, &mut unit, &[0x08, 0, 0, 2, 1, 0], &mut out);
    assert!(rt; out.starts_with(&[2, 3, 4]));
    Ok(())
}

ghost use Rattle.std.specs.Prelude.{◌≡◌};
ghost use Rattle.cdb_codec.specs.Forms.{FitsForm, HasForm};
ghost use Rattle.cdb_codec.specs.declared.commands.Cdb.TheVariants.{Read, Write};

use super::*;
use scsi_words::Direction;
use std::alloc::{AllocError, Global};
use std::test::Fail;

fn read(lba: u32, blocks: u32, six: bool) -> Cdb
    ensures { result ≡ Read lba blocks six }
{
    Cdb::Read { lba, blocks, six }
}

fn write(lba: u32, blocks: u32, six: bool) -> Cdb
    ensures { result ≡ Write lba blocks six }
{
    Cdb::Write { lba, blocks, six }
}

#[test]
fn reads_each_command(rt: HostRuntime) {
    let cases: [(&[u8], Cdb); 16] = [
        (&[0x00, 0xE0, 9, 9, 9, 0], Cdb::TestUnitReady),
        (&[0x00, 0, 0, 0, 0, 1], Cdb::BadField),
        (&[0x03, 0, 0, 0, 18, 0], Cdb::RequestSense { len: 18 }),
        (&[0x08, 0xFF, 0x12, 0x34, 0, 0], read(0x1F_1234, 256, true)),
        (&[0x0A, 0x20, 0, 5, 3, 0], write(5, 3, true)),
        (&[0x12, 0x20, 0, 0, 96, 0], Cdb::Inquiry { len: 96 }),
        (&[0x12, 0x01, 0, 0, 96, 0], Cdb::BadField),
        (&[0x12, 0x00, 0x80, 0, 96, 0], Cdb::BadField),
        (&[0x1A, 0, 0, 0, 4, 0], Cdb::Other),
        (&[0x25, 0, 9, 9, 9, 9, 9, 9, 1, 0], Cdb::ReadCapacity),
        (&[0x25, 1, 0, 0, 0, 0, 0, 0, 0, 0], Cdb::BadField),
        (
            &[0x28, 0x18, 1, 2, 3, 4, 9, 0x12, 0x34, 0],
            read(0x0102_0304, 0x1234, false),
        ),
        (&[0x28, 0, 0, 0, 0, 3, 0, 0, 0, 0], read(3, 0, false)),
        (&[0x2A, 0, 0, 0, 0, 3, 0, 0, 1, 0], write(3, 1, false)),
        (&[0x2A, 1, 0, 0, 0, 3, 0, 0, 1, 0], Cdb::BadField),
        (&[0xA8, 0, 0, 0, 0, 0, 0, 0, 0, 0, 0, 0], Cdb::Other),
    ];
    for (bytes, want) in cases.iter() {
        assert!(rt; bytes.len() > 0);
        assert_eq!(rt; bytes.len(), cdb_length(bytes[0]) as usize);
        assert_eq!(rt; read_cdb(bytes), *want);
    }
}

fn is_written(alloc: Global, command: &Cdb, want: &[u8]) -> Result<bool, AllocError>
    requires form { HasForm command.now }
    requires fits { FitsForm command.now }
{
    let written = write_cdb(alloc, command)?;
    Ok(written.as_slice() == want)
}

#[test]
fn writes_each_command(rt: HostRuntime) -> Result<(), Fail> {
    let alloc = rt.alloc();
    assert!(rt; is_written(alloc, &Cdb::TestUnitReady, &[0; 6])?);
    let sense = Cdb::RequestSense { len: 18 };
    assert!(rt; is_written(alloc, &sense, &[3, 0, 0, 0, 18, 0])?);
    let inquiry = Cdb::Inquiry { len: 96 };
    assert!(rt; is_written(alloc, &inquiry, &[0x12, 0, 0, 0, 96, 0])?);
    let capacity = [0x25, 0, 0, 0, 0, 0, 0, 0, 0, 0];
    assert!(rt; is_written(alloc, &Cdb::ReadCapacity, &capacity)?);
    let short = [0x08, 0x01, 0x02, 0x03, 4, 0];
    assert!(rt; is_written(alloc, &read(0x1_0203, 4, true), &short)?);
    let long = [0x28, 0, 0, 0, 0, 3, 0, 0, 1, 0];
    assert!(rt; is_written(alloc, &read(3, 1, false), &long)?);
    let none = [0x28, 0, 0, 0, 0, 63, 0, 0, 0, 0];
    assert!(rt; is_written(alloc, &read(63, 0, false), &none)?);
    let short = [0x0A, 0x1F, 0xFF, 0xFF, 0, 0];
    assert!(rt; is_written(alloc, &write(0x1F_FFFF, 256, true), &short)?);
    let long = [0x2A, 0, 1, 2, 3, 4, 0, 5, 6, 0];
    assert!(rt; is_written(alloc, &write(0x0102_0304, 0x506, false), &long)?);
    Ok(())
}

#[test]
fn needs_of_commands(rt: HostRuntime) {
    let needs = [
        (Cdb::RequestSense { len: 255 }, Direction::In, 18),
        (Cdb::Inquiry { len: 5 }, Direction::In, 5),
        (Cdb::ReadCapacity, Direction::In, 8),
        (Cdb::BadField, Direction::None, 0),
    ];
    for (command, direction, bytes) in needs {
        assert_eq!(rt; need(&command), Need { direction, bytes });
    }
}

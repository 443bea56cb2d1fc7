//! The block of a READ(10) of one block, with its one segment at 200000, laid field by field.
use super::{Field, read, write};
use bench_words::Words;
use std::process::Abort;
use std::test::Fail;

fn word_at(rt: &impl Abort, words: &Words, address: u32) -> u32 {
    assert!(rt; address % 4 == 0 && address < words.len());
    words.get(address)
}

#[test]
fn laid_field_by_field(rt: HostRuntime) -> Result<(), Fail> {
    let mut words = Words::new(rt.alloc(), 0x10_0000)?;
    write(&mut words, 0x1_0000, Field::Start, 0x60);
    write(&mut words, 0x1_0000, Field::Restart, 0x128);
    write(&mut words, 0x1_0000, Field::Lastp, 0x338);
    write(&mut words, 0x1_0000, Field::Savep, 0x338);
    write(&mut words, 0x1_0000, Field::State, 0);
    write(&mut words, 0x1_0000, Field::Status, 0xff);
    write(&mut words, 0x1_0000, Field::Sel, 0);
    write(&mut words, 0x1_0000, Field::Gate, 0x1c0);
    write(&mut words, 0x1_0000, Field::MsgCount, 3);
    write(&mut words, 0x1_0000, Field::MsgAt, 0x1_00e0);
    write(&mut words, 0x1_0000, Field::CmdCount, 0x0a);
    write(&mut words, 0x1_0000, Field::CmdAt, 0x1_00f0);
    write(&mut words, 0x1_0000, Field::StatCount, 1);
    write(&mut words, 0x1_0000, Field::StatAt, 0x1_0014);
    write(&mut words, 0x1_0000, Field::SegCount(15), 0x200);
    write(&mut words, 0x1_0000, Field::SegAt(15), 0x20_0000);
    write(&mut words, 0x1_0000, Field::CtxReturn(1), 0x340);
    assert_eq!(rt; read(&words, 0x1_0000, Field::SegAt(15)), 0x20_0000);
    let rows = [
        (0x1_0000, 0x60),
        (0x1_0004, 0x128),
        (0x1_0008, 0x338),
        (0x1_000c, 0x338),
        (0x1_0010, 0),
        (0x1_0014, 0xff),
        (0x1_0018, 0),
        (0x1_001c, 0x1c0),
        (0x1_0020, 3),
        (0x1_0024, 0x1_00e0),
        (0x1_0028, 0x0a),
        (0x1_002c, 0x1_00f0),
        (0x1_0030, 1),
        (0x1_0034, 0x1_0014),
        (0x1_00b8, 0x200),
        (0x1_00bc, 0x20_0000),
        (0x1_00d8, 0x340),
        (0x1_0200, 0),
    ];
    for (address, word) in rows {
        assert_eq!(rt; word_at(&rt, &words, address), word, "at {address:x}");
    }
    Ok(())
}

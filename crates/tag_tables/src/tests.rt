//! The places of entries, and that a free tag has NOTASK.
use super::{entry, link, unlink};
use bench_words::Words;
use std::process::Abort;
use std::test::Fail;

fn word_at(rt: &impl Abort, words: &Words, address: u32) -> u32 {
    assert!(rt; address % 4 == 0 && address < words.len());
    words.get(address)
}

#[test]
fn places_of_entries(rt: HostRuntime) -> Result<(), Fail> {
    let mut words = Words::new(rt.alloc(), 0x10_0000)?;
    // The eighth tag of unit 1 is 7 in version 2, and 28 in version 1.
    let rows = [
        (0, 0, 0x4000),
        (0, 1, 0x4100),
        (0, 255, 0x43fc),
        (1, 7, 0x4704),
        (1, 28, 0x441c),
        (15, 255, 0x7ffc),
    ];
    for (unit, tag, address) in rows {
        assert!(rt; unit < 16 && words.len() == 0x40_0000);
        link(&mut words, unit, tag, 0x1_0e00);
        assert_eq!(rt; word_at(&rt, &words, address), 0x1_0e00, "at {address:x}");
        assert_eq!(rt; entry(&words, unit, tag), 0x1_0e00);
        unlink(&mut words, unit, tag);
        assert_eq!(rt; word_at(&rt, &words, address), 0x1400, "at {address:x}");
        assert_eq!(rt; entry(&words, unit, tag), 0x1400);
    }
    Ok(())
}

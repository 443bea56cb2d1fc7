//! The words of a turned block.
use super::{sense_bytes, turn};
use bench_words::Words;
use std::process::Abort;
use std::test::Fail;

fn word_at(rt: &impl Abort, words: &Words, address: u32) -> u32 {
    assert!(rt; address % 4 == 0 && address < words.len());
    words.get(address)
}

#[test]
fn turned_block(rt: HostRuntime) -> Result<(), Fail> {
    let mut words = Words::new(rt.alloc(), 0x10_0000)?;
    turn(&mut words, 0x1_0400);
    let rows = [
        (0x1_0400, 0x440),
        (0x1_0404, 0),
        (0x1_0408, 0x338),
        (0x1_040c, 0x338),
        (0x1_0410, 0),
        (0x1_0414, 0xff),
        (0x1_0428, 6),
        (0x1_042c, 0x1_04f0),
        (0x1_04b8, 18),
        (0x1_04bc, 0x1_0500),
        (0x1_04f0, 0x03),
        (0x1_04f4, 0x12),
    ];
    for (address, word) in rows {
        assert_eq!(rt; word_at(&rt, &words, address), word, "at {address:x}");
    }
    words.copy_in(0x1_0500, &[0x70, 0, 5]);
    words.set_byte(0x1_0511, 0x99);
    let mut sense = [1; 18];
    sense_bytes(&words, 0x1_0400, &mut sense);
    assert_eq!(rt;
        sense,
        [0x70, 0, 5, 0, 0, 0, 0, 0, 0, 0, 0, 0, 0, 0, 0, 0, 0, 0x99]
    );
    Ok(())
}

//! The words that each call writes, and the ends of the tail.
use super::{front_idle, front_job, in_tail, mark, sweep};
use bench_words::Words;
use std::process::Abort;
use std::test::Fail;

fn word_at(rt: &impl Abort, words: &Words, address: u32) -> u32 {
    assert!(rt; address % 4 == 0 && address < words.len());
    words.get(address)
}

#[test]
fn patches(rt: HostRuntime) -> Result<(), Fail> {
    let mut words = Words::new(rt.alloc(), 0x10_0000)?;
    mark(&mut words, 0x1_0200);
    sweep(&mut words, 0x2_fe00);
    front_job(&mut words, 6);
    let rows = [
        (0x1_0200, 0x1f8),
        (0x1_0204, 0x278),
        (0x2_fe10, 4),
        (0x2_fe1c, 0x1c0),
        (0x1818, 0x6_0000),
        (0x1000, 0x1800),
    ];
    for (address, word) in rows {
        assert_eq!(rt; word_at(&rt, &words, address), word, "at {address:x}");
    }
    front_idle(&mut words);
    assert_eq!(rt; word_at(&rt, &words, 0x1000), 0x1600);
    for (dsp, is) in [
        (0x1c8, false),
        (0x1d0, true),
        (0x270, true),
        (0x278, false),
        (0x290, true),
        (0x298, false),
    ] {
        assert_eq!(rt; in_tail(dsp), is, "at {dsp:x}");
    }
    Ok(())
}

//! Slots at the ends of the rings.
use super::{clear_done, peek_done, put_start};
use bench_words::Words;
use std::process::Abort;
use std::test::Fail;

fn word_at(rt: &impl Abort, words: &Words, address: u32) -> u32 {
    assert!(rt; address % 4 == 0 && address < words.len());
    words.get(address)
}

#[test]
fn rings_go_round(rt: HostRuntime) -> Result<(), Fail> {
    let mut words = Words::new(rt.alloc(), 0x10_0000)?;
    assert_eq!(rt; put_start(&mut words, 0x2010, 0x1_0200), 0x2018);
    assert_eq!(rt; word_at(&rt, &words, 0x2010), 0x1_0200);
    assert_eq!(rt; word_at(&rt, &words, 0x2018), 0x1200);
    assert_eq!(rt; put_start(&mut words, 0x2ff8, 0x1_0400), 0x2000);
    assert_eq!(rt; word_at(&rt, &words, 0x2ff8), 0x1_0400);
    assert_eq!(rt; word_at(&rt, &words, 0x2000), 0x1200);
    words.set(0x3ff8, 0x2_fe00);
    assert_eq!(rt; peek_done(&words, 0x3ff8), Some(0x2_fe00));
    assert_eq!(rt; clear_done(&mut words, 0x3ff8), 0x3000);
    assert_eq!(rt; peek_done(&words, 0x3ff8), None);
    Ok(())
}

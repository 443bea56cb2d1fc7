//! A command of three segments, of 100, 300 and 112 bytes, whose moves are broken off again and again.
use super::{FixEnd, can_fix, fix, move_at};
use bench_words::Words;
use std::process::Abort;
use std::test::Fail;

const BLOCK: u32 = 0x1_0000;

/// `fix`, where it may be called.
fn fixed(rt: &impl Abort, words: &mut Words, dsp: u32, dbc: u32) -> FixEnd {
    assert!(rt; words.len() == 0x40_0000 && dsp >= 8);
    let Some(_) = move_at(dsp - 8) else {
        return fix(words, BLOCK, dsp, dbc);
    };
    assert!(rt; can_fix(words, BLOCK, dsp, dbc));
    fix(words, BLOCK, dsp, dbc)
}

fn put(rt: &impl Abort, words: &mut Words, address: u32, word: u32) {
    assert!(rt; address % 4 == 0 && address < words.len());
    words.set(address, word);
}

fn word_at(rt: &impl Abort, words: &Words, address: u32) -> u32 {
    assert!(rt; address % 4 == 0 && address < words.len());
    words.get(address)
}

#[test]
fn contexts(rt: HostRuntime) -> Result<(), Fail> {
    let mut words = Words::new(rt.alloc(), 0x10_0000)?;
    for (address, word) in [
        (0x1_0008, 0x328),
        (0x1_000c, 0x328),
        // The chip takes bits 23 to 0 of this word.
        (0x1_00a8, 0xff00_0064),
        (0x1_00ac, 0x20_0000),
        (0x1_00b0, 300),
        (0x1_00b4, 0x20_0200),
        (0x1_00b8, 112),
        (0x1_00bc, 0x20_0400),
    ] {
        put(&rt, &mut words, address, word);
    }
    // Whether the pointer is saved before; DSP and DBC; the place of the context, its three words, and LASTP.
    let stops = [
        (false, 0x330, 40, 0x1_00c0, [40, 0x20_003c, 0x330], 0x3e0),
        (true, 0x338, 100, 0x1_00d0, [100, 0x20_02c8, 0x338], 0x3f8),
        (false, 0x3e8, 10, 0x1_00d0, [10, 0x20_005a, 0x330], 0x3f8),
        (true, 0x400, 4, 0x1_00c0, [4, 0x20_0060, 0x330], 0x3e0),
        (false, 0x3e8, 1, 0x1_00c0, [1, 0x20_0063, 0x330], 0x3e0),
        (false, 0x340, 0, 0x1_00c0, [0, 0x20_0470, 0x340], 0x3e0),
        (false, 0x3b8, 40, 0x1_00c0, [40, 0x20_003c, 0x3b8], 0x410),
        (true, 0x3c0, 100, 0x1_00d0, [100, 0x20_02c8, 0x3c0], 0x428),
        (true, 0x3c8, 112, 0x1_00d0, [100, 0x20_02c8, 0x3c0], 0x3c0),
    ];
    for (save, dsp, dbc, place, context, lastp) in stops {
        if save {
            let pointer = word_at(&rt, &words, 0x1_0008);
            put(&rt, &mut words, 0x1_000c, pointer);
        }
        assert_eq!(rt;
            fixed(&rt, &mut words, dsp, dbc),
            FixEnd::Fixed,
            "at {dsp:x}"
        );
        assert_eq!(rt; word_at(&rt, &words, 0x1_0008), lastp, "LASTP at {dsp:x}");
        for (i, word) in context.iter().enumerate() {
            assert_eq!(rt;
                word_at(&rt, &words, place + 4 * i as u32),
                *word,
                "at {dsp:x}"
            );
        }
    }
    for dsp in [
        0x8,
        0x98,
        0x2c0,
        0x2c9,
        0x348,
        0x3d0,
        0x3f0,
        0x440,
        0x448,
        0x468,
        u32::MAX,
    ] {
        assert_eq!(rt; fixed(&rt, &mut words, dsp, 0), FixEnd::NotData(dsp));
    }
    assert_eq!(rt; word_at(&rt, &words, 0x1_0008), 0x3c0);
    Ok(())
}

#[test]
fn what_can_be_fixed(rt: HostRuntime) -> Result<(), Fail> {
    let mut words = Words::new(rt.alloc(), 0x10_0000)?;
    for (address, word) in [
        (0x1_00b8, 0x0100_0200),
        (0x1_00bc, 0x20_0000),
        (0x1_02b8, 0x200),
        (0x1_02bc, 0xffff_fe00),
        (0x1_04b8, 0x200),
        (0x1_04d8, 0x428),
        (0x18b8, 0x200),
    ] {
        put(&rt, &mut words, address, word);
    }
    assert!(rt; words.len() == 0x40_0000);
    // The last segment: block, DSP, DBC.
    for (block, dsp, dbc, can) in [
        (0x1_0000, 0x340, 0x200, true),
        (0x1_0000, 0x340, 0x201, false),
        (0x1_0000, 0x3c8, 0, true),
        (0x1_0000, 0x3d0, 0, false),
        (0x1_0000, 0x342, 0, false),
        (0x1_0000, 7, 0, false),
        // Its entry ends at 2^32; a context returns to a context.
        (0x1_0200, 0x340, 0, false),
        (0x1_0400, 0x340, 0, false),
        // JOB's block is a block place; the other two are none.
        (0x1800, 0x340, 0x200, true),
        (0x1_0008, 0x340, 0, false),
        (0x3_0000, 0x340, 0, false),
    ] {
        assert_eq!(rt;
            can_fix(&words, block, dsp, dbc),
            can,
            "{block:x} at {dsp:x}"
        );
    }
    Ok(())
}

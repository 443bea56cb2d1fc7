//! Words of memory at the opening.
use super::lay_opening;
use bench_words::Words;
use rig_types::{Pattern, Unit};
use std::test::Fail;

#[test]
fn words_at_the_opening(rt: HostRuntime) -> Result<(), Fail> {
    let mut words = Words::new(rt.alloc(), 0x10_0000)?;
    let unit = Unit {
        target: 6,
        lun: 0,
        blocks: 64,
        pattern: Pattern::Zero,
        depth: 16,
        disconnects: 2,
        refusals: 0,
        absent: false,
        rogue: false,
    };
    lay_opening(&mut words, 2, &[unit]);
    assert!(rt; words.len() == 0x40_0000);
    let rows = [
        (0x0, 0x721a_0000),
        (0x188, 0x8008_0000),
        (0x4b8, 0),
        (0x1000, 0x1600),
        (0x1004, 0x2000),
        (0x1008, 0x3000),
        (0x100c, 0),
        (0x1010, 0),
        (0x1014, 0x0d),
        (0x1018, 0x2b8),
        (0x101c, 1),
        (0x1020, 2),
        (0x1024, 3),
        (0x1028, 0x1b0),
        (0x102c, 0x1c0),
        (0x1030, 0x1600),
        (0x1200, 0x48),
        (0x1404, 0x1c0),
        (0x141c, 0x1b0),
        (0x1600, 0x20),
        (0x1800, 0x298),
        (0x1820, 1),
        (0x1824, 0x18e0),
        (0x18e0, 0x0c),
        (0x2000, 0x1200),
        (0x2004, 0x2008),
        (0x2ffc, 0x2000),
        (0x3ff8, 0x1200),
        (0x3ffc, 0x3000),
        (0x4000, 0x1400),
        (0x7ffc, 0x1400),
        (0x8000, 0x800c_0006),
        (0x8004, 0x8400),
        (0x8810, 0x4000),
        (0x9000, 0),
        (0x1_0000, 0),
        (0x3f_fffc, 0),
    ];
    for (address, word) in rows {
        assert!(rt; address % 4 == 0 && address < words.len());
        assert_eq!(rt; words.get(address), word, "at {address:x}");
    }
    Ok(())
}

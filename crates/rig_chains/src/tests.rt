//! The words of small rigs, as they are printed for whoever lays the chains by hand.
use super::lay_chains;
use bench_words::Words;
use rig_types::{Pattern, Unit};
use std::process::Abort;
use std::test::Fail;

fn unit(target: u8, lun: u8) -> Unit {
    Unit {
        target,
        lun,
        blocks: 64,
        pattern: Pattern::Zero,
        depth: 16,
        disconnects: 2,
        refusals: 0,
        absent: false,
        rogue: false,
    }
}

fn check_words(rt: &impl Abort, words: &Words, address: u32, expected: &[u32]) {
    assert!(rt; words.len() == 0x40_0000 && address % 4 == 0 && address < 0x9000);
    assert!(rt; expected.len() < 32);
    for (k, word) in expected.iter().enumerate() {
        assert_eq!(rt;
            words.get(address + 4 * k as u32),
            *word,
            "{k} at {address:x}"
        );
    }
}

#[test]
fn two_targets(rt: HostRuntime) -> Result<(), Fail> {
    let mut words = Words::new(rt.alloc(), 0x10_0000)?;
    lay_chains(&mut words, &[unit(0, 0), unit(1, 0)]);
    let targets = [
        0x800c_0000,
        0x8100,
        0x800c_0001,
        0x8180,
        0x9808_0000,
        0x0a,
        0,
        0,
    ];
    check_words(&rt, &words, 0x8000, &targets);
    for (chain, unit) in [(0x8100, 0x8800), (0x8180, 0x8820), (0x8200, 0)] {
        let luns = [
            0x0f00_0001,
            0x1010,
            0x9804_7f80,
            0x08,
            0x7408_0700,
            0,
            0x800c_0000,
            unit,
            0x9808_0000,
            0x09,
            0,
            0,
        ];
        let none = [0; 12];
        check_words(&rt, &words, chain, if unit == 0 { &none } else { &luns });
    }
    let units = [
        [0xe110_0004, 0x8810, 0x8008_0000, 0x160, 0x4000, 0, 0, 0],
        [0xe110_0004, 0x8830, 0x8008_0000, 0x160, 0x4400, 0, 0, 0],
        [0; 8],
    ];
    check_words(&rt, &words, 0x8800, &units[0]);
    check_words(&rt, &words, 0x8820, &units[1]);
    check_words(&rt, &words, 0x8840, &units[2]);
    Ok(())
}

/// Targets and LUNs rise whatever the order of the rig, and a jump goes to the unit's own chain.
#[test]
fn rising_numbers(rt: HostRuntime) -> Result<(), Fail> {
    let mut words = Words::new(rt.alloc(), 0x10_0000)?;
    lay_chains(&mut words, &[unit(2, 3), unit(0, 5), unit(2, 1)]);
    let targets = [0x800c_0000, 0x8100, 0x800c_0002, 0x8200, 0x9808_0000, 0x0a];
    check_words(&rt, &words, 0x8000, &targets);
    check_words(
        &rt,
        &words,
        0x8118,
        &[0x800c_0005, 0x8820, 0x9808_0000, 0x09],
    );
    let luns = [0x800c_0001, 0x8840, 0x800c_0003, 0x8800, 0x9808_0000, 0x09];
    check_words(&rt, &words, 0x8218, &luns);
    check_words(&rt, &words, 0x8850, &[0x4800]);
    Ok(())
}

/// A bus may name eight targets; no unit of a rig has the last one, and a unit that had it would have its chain.
#[test]
fn eight_targets(rt: HostRuntime) -> Result<(), Fail> {
    let mut words = Words::new(rt.alloc(), 0x10_0000)?;
    lay_chains(&mut words, &[unit(6, 0), unit(7, 2)]);
    let targets = [0x800c_0006, 0x8400, 0x800c_0007, 0x8480, 0x9808_0000, 0x0a];
    check_words(&rt, &words, 0x8000, &targets);
    check_words(
        &rt,
        &words,
        0x8498,
        &[0x800c_0002, 0x8820, 0x9808_0000, 0x09],
    );
    check_words(&rt, &words, 0x8500, &[0; 16]);
    Ok(())
}

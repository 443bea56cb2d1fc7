//! Spellings of one instruction of each form, as the programming guide writes them, and words that no row spells.
use super::{Address, Change, Condition, Op, decode};

fn phase(when: bool, not: bool, code: u8) -> Condition {
    Condition::Phase { when, not, code }
}

fn byte(not: bool, mask: u8, value: u8) -> Condition {
    Condition::Byte { not, mask, value }
}

#[test]
fn spelled(rt: HostRuntime) {
    let rows = [
        (
            [0x0f00_0001, 0x1010, 0],
            Op::Move {
                count: 1,
                address: 0x1010,
                phase: 7,
            },
        ),
        (
            [0x1900_0000, 0x40, 0],
            Op::MoveFrom {
                offset: 0x40,
                phase: 1,
            },
        ),
        (
            [0x1900_0000, 0xff_fff8, 0],
            Op::MoveFrom {
                offset: -8,
                phase: 1,
            },
        ),
        (
            [0x4300_0018, 0x50, 0],
            Op::Select {
                offset: 0x18,
                alternate: 0x50,
            },
        ),
        ([0x4800_0000, 0, 0], Op::WaitDisconnect),
        ([0x5000_0000, 0, 0], Op::WaitReselect { alternate: 0 }),
        (
            [0x5800_0008, 0, 0],
            Op::Set {
                ack: false,
                atn: true,
            },
        ),
        (
            [0x6000_0040, 0, 0],
            Op::Clear {
                ack: true,
                atn: false,
            },
        ),
        (
            [0x6a10_0000, 0, 0],
            Op::FromSfbr {
                change: Change::Or,
                byte: 0,
                register: 0x10,
            },
        ),
        (
            [0x721a_0000, 0, 0],
            Op::ToSfbr {
                register: 0x1a,
                change: Change::Or,
                byte: 0,
            },
        ),
        (
            [0x740a_0700, 0, 0],
            Op::ToSfbr {
                register: 0x0a,
                change: Change::And,
                byte: 7,
            },
        ),
        (
            [0x7e35_ff00, 0, 0],
            Op::Modify {
                register: 0x35,
                change: Change::Add,
                byte: 0xff,
            },
        ),
        (
            [0x7803_3300, 0, 0],
            Op::Put {
                byte: 0x33,
                register: 3,
            },
        ),
        (
            [0x8008_0000, 0x8000, 0],
            Op::Jump {
                on: Condition::Always,
                address: 0x8000,
            },
        ),
        (
            [0x870b_0000, 0xd8, 0],
            Op::Jump {
                on: phase(true, false, 7),
                address: 0xd8,
            },
        ),
        (
            [0x830a_0000, 0xc8, 0],
            Op::Jump {
                on: phase(false, false, 3),
                address: 0xc8,
            },
        ),
        (
            [0x8703_0000, 0x100, 0],
            Op::Jump {
                on: phase(true, true, 7),
                address: 0x100,
            },
        ),
        (
            [0x800c_0002, 0x108, 0],
            Op::Jump {
                on: byte(false, 0, 2),
                address: 0x108,
            },
        ),
        (
            [0x8808_0000, 0x20, 0],
            Op::Call {
                on: Condition::Always,
                address: 0x20,
            },
        ),
        (
            [0x9008_0000, 0, 0],
            Op::Return {
                on: Condition::Always,
            },
        ),
        (
            [0x9804_7f80, 8, 0],
            Op::Int {
                on: byte(true, 0x7f, 0x80),
                vector: 8,
            },
        ),
        (
            [0x9818_0000, 0, 0],
            Op::IntFly {
                on: Condition::Always,
            },
        ),
        ([0x8000_0000, 0, 0], Op::Nop),
        (
            [0xc000_0200, 0x1000, 0x2000],
            Op::MoveMemory {
                count: 0x200,
                source: 0x1000,
                target: 0x2000,
            },
        ),
        (
            [0xe110_0004, 0x1000, 0],
            Op::Load {
                register: 0x10,
                count: 4,
                place: Address::At(0x1000),
            },
        ),
        (
            [0xf15c_0004, 4, 0],
            Op::Load {
                register: 0x5c,
                count: 4,
                place: Address::FromDsa(4),
            },
        ),
        (
            [0xe05c_0004, 0x1004, 0],
            Op::Store {
                register: 0x5c,
                count: 4,
                place: Address::At(0x1004),
            },
        ),
        (
            [0xf034_0004, 0x1c, 0],
            Op::Store {
                register: 0x34,
                count: 4,
                place: Address::FromDsa(0x1c),
            },
        ),
    ];
    for (words, op) in rows {
        assert_eq!(rt; decode(words[0], words[1], words[2]), Some(op), "{words:?}");
    }
}

#[test]
fn not_spelled(rt: HostRuntime) {
    let rows = [
        // MOVE FROM with a reserved bit, and with bits above the offset
        [0x1800_0001, 0],
        [0x1800_0000, 0x0100_0000],
        // no byte, no such phase
        [0x0800_0000, 0x1000],
        [0x0c00_0001, 0x1000],
        // MOVE MEMORY of no byte
        [0xc000_0000, 0x1000],
        // SET of no signal, WAIT DISCONNECT with an address
        [0x5800_0000, 0],
        [0x4800_0000, 4],
        // MOVE SFBR TO SFBR, SFBR + 1 TO SSID, and a form without a condition
        [0x6a08_0000, 0],
        [0x6e0a_0100, 0],
        [0x8001_0000, 0x10],
        // a masked bit in the data, a condition of phase and data at once
        [0x800c_0101, 0x10],
        [0x800e_0000, 0x10],
        // LOAD past the register's end, of five bytes, into SFBR
        [0xe111_0004, 0x1000],
        [0xe110_0005, 0x1000],
        [0xe108_0001, 0x1000],
        [0, 0],
        [0xffff_ffff, 0xffff_ffff],
    ];
    for words in rows {
        assert_eq!(rt; decode(words[0], words[1], 0), None, "{words:?}");
    }
}

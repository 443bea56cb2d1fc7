//! Tables of rigs.

use crate::faults::is_fault;
use crate::texts::{REALISTIC_RIG, ROGUE_RIG, SMALL_RIG};
use rig_reader::read_rig;
use rig_types::BadKind::{Clash, Missing, NotToml, OutOfRange, Unknown, WrongType};
use rig_types::{BadKind, Pattern, ReadFault, Rig, Unit};
use std::test::Fail;

/// A unit with the defaults of the keys that have one.
const PLAIN: Unit = Unit {
    target: 0,
    lun: 0,
    blocks: 4096,
    pattern: Pattern::Zero,
    depth: 16,
    disconnects: 2,
    refusals: 0,
    absent: false,
    rogue: false,
};

/// The greatest value of each number, and the other of each choice.
const GREATEST: &str = "version = 1
retries = 8
step_limit = 4194304
autosense = true
[[unit]]
target = 6
lun = 7
blocks = 4096
pattern = \"count\"
depth = 64
disconnects = 8
refusals = 8
absent = true
";

/// A rig, and what it reads as: version, retries, step limit and autosense, and the units.
struct Row<'a> {
    text: &'a str,
    limits: (u8, u8, u32, bool),
    units: &'a [Unit],
}

const RIGS: [Row<'static>; 4] = [
    Row {
        text: SMALL_RIG,
        limits: (1, 3, 1_048_576, false),
        units: &[Unit {
            blocks: 64,
            pattern: Pattern::Count,
            ..PLAIN
        }],
    },
    Row {
        text: REALISTIC_RIG,
        limits: (1, 3, 1_048_576, false),
        units: &[PLAIN, Unit { lun: 1, ..PLAIN }, Unit { target: 1, ..PLAIN }],
    },
    Row {
        text: ROGUE_RIG,
        limits: (2, 1, 1_048_576, true),
        units: &[
            Unit {
                blocks: 128,
                pattern: Pattern::Count,
                depth: 200,
                disconnects: 4,
                refusals: 1,
                ..PLAIN
            },
            Unit {
                target: 3,
                lun: 2,
                blocks: 16,
                depth: 8,
                rogue: true,
                ..PLAIN
            },
            Unit {
                target: 5,
                blocks: 16,
                depth: 1,
                absent: true,
                ..PLAIN
            },
        ],
    },
    Row {
        text: GREATEST,
        limits: (1, 8, 4_194_304, true),
        units: &[Unit {
            target: 6,
            lun: 7,
            pattern: Pattern::Count,
            depth: 64,
            disconnects: 8,
            refusals: 8,
            absent: true,
            ..PLAIN
        }],
    },
];

/// Whether a rig is what a row says.
fn is_row(rig: &Rig, row: &Row<'_>) -> bool {
    (rig.version, rig.retries, rig.step_limit, rig.autosense) == row.limits
        && rig.units.as_slice() == row.units
}

#[test]
fn the_rigs(rt: HostRuntime) -> Result<(), Fail> {
    for row in &RIGS {
        let rig = read_rig(rt.alloc(), row.text.as_bytes())?;
        assert!(rt; is_row(&rig, row), "{}", row.text);
    }
    Ok(())
}

/// A rig, and its first fault.
const FAULTS: [(&str, &str, BadKind); 21] = [
    // the file
    ("version 1\n", "", NotToml),
    ("version = 9223372036854775808\n", "", NotToml),
    ("retries = 9\n", "version", Missing),
    ("version = 1.0\n", "version", WrongType),
    ("version = 3\n", "version", OutOfRange),
    (
        "version = 1\nretries = 9\nstep_limit = 0\n",
        "retries",
        OutOfRange,
    ),
    (
        "version = 1\nstep_limit = 4294967297\n",
        "step_limit",
        OutOfRange,
    ),
    ("version = 1\nautosense = 0\n", "autosense", WrongType),
    ("version = 1\na = 1\n", "unit", Missing),
    (
        "version = 1\nunit = [{ target = 0, lun = 0, blocks = 64 }, 7]\n",
        "unit[1]",
        WrongType,
    ),
    // the keys of a unit, in their order
    (
        "version = 1\n[[unit]]\nlun = 9\n",
        "unit[0].target",
        Missing,
    ),
    (
        "version = 1\n[[unit]]\ntarget = 256\n",
        "unit[0].target",
        OutOfRange,
    ),
    (
        "version = 1\n[[unit]]\ntarget = 0\nlun = 0\nblocks = 64\ndepth = 65\n",
        "unit[0].depth",
        OutOfRange,
    ),
    (
        "version = 2\n[[unit]]\ntarget = 0\nlun = 0\nblocks = 64\ndepth = 257\n",
        "unit[0].depth",
        OutOfRange,
    ),
    (
        "version = 1\n[[unit]]\ntarget = 0\nlun = 0\nblocks = 64\npattern = \"counts\"\n",
        "unit[0].pattern",
        OutOfRange,
    ),
    // clashes come after the keys of the table, and before its unknown keys
    (
        "version = 1\n[[unit]]\ntarget = 0\nlun = 0\nblocks = 64\nz = 1\nabsent = true\nrogue = true\n",
        "unit[0].rogue",
        Clash,
    ),
    (
        "version = 1\n[[unit]]\ntarget = 0\nlun = 0\nblocks = 1\n[[unit]]\ntarget = 0\nlun = 0\nblocks = 1\n",
        "unit[1].lun",
        Clash,
    ),
    (
        "version = 1\n[[unit]]\ntarget = 0\nlun = 0\nblocks = 1\n[[unit]]\ntarget = 0\nlun = 0\nblocks = 4097\n",
        "unit[1].blocks",
        OutOfRange,
    ),
    (
        "version = 1\nb = 1\n[[unit]]\ntarget = 0\nlun = 0\nblocks = 64\nz = 1\nTarget = 1\n",
        "unit[0].Target",
        Unknown,
    ),
    // the depths are together above 256, before the unknown keys of the file
    (
        "version = 2\na = 1\n[[unit]]\ntarget = 0\nlun = 0\nblocks = 1\ndepth = 256\n[[unit]]\ntarget = 1\nlun = 0\nblocks = 1\ndepth = 1\n",
        "unit",
        Clash,
    ),
    (
        "version = 2\na = 1\n[[unit]]\ntarget = 0\nlun = 0\nblocks = 1\ndepth = 255\n[[unit]]\ntarget = 1\nlun = 0\nblocks = 1\ndepth = 1\n",
        "a",
        Unknown,
    ),
];

/// Whether the reader finds this fault first.
fn has_fault(answer: &Result<Rig, ReadFault>, key: &str, kind: BadKind) -> bool {
    match answer {
        Ok(_) => false,
        Err(fault) => is_fault(fault, key, kind),
    }
}

#[test]
fn faults_of_rigs(rt: HostRuntime) -> Result<(), Fail> {
    for (text, key, kind) in &FAULTS {
        let answer = read_rig(rt.alloc(), text.as_bytes());
        assert!(rt; has_fault(&answer, key, *kind), "{text}");
    }
    Ok(())
}

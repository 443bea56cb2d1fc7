//! Tables of works.

use crate::faults::is_fault;
use crate::texts::{REALISTIC_WORK, ROGUE_WORK, SMALL_RIG, SMALL_WORK};
use rig_reader::read_rig;
use rig_types::BadKind::{Clash, Missing, NotToml, OutOfRange, Unknown, WrongType};
use rig_types::{Act, ActKind, BadKind, Line, ReadFault, Rig, WhenFull, Work};
use scsi_words::Direction;
use std::test::Fail;
use work_reader::read_work;

/// Any rig: the reader asks nothing of it.
fn any_rig(rt: &HostRuntime) -> Result<Rig, Fail> {
    Ok(read_rig(rt.alloc(), SMALL_RIG.as_bytes())?)
}

/// What a command of a work is to be.
#[derive(Clone, Copy)]
struct Wanted {
    submitter: usize,
    number: usize,
    unit: u8,
    cdb: &'static [u8],
    segments: &'static [u32],
    bytes: usize,
    first: Option<u8>,
    direction: Direction,
    when_full: WhenFull,
    wait: bool,
}

/// Whether a work has such a command.
fn has(work: &Work, wanted: &Wanted) -> bool {
    let Some(commands) = work.submitters.as_slice().get(wanted.submitter) else {
        return false;
    };
    let Some(command) = commands.as_slice().get(wanted.number) else {
        return false;
    };
    let request = &command.request;
    request.unit == wanted.unit
        && request.cdb.as_slice() == wanted.cdb
        && request.segments.as_slice() == wanted.segments
        && request.bytes.as_slice().len() == wanted.bytes
        && request.bytes.as_slice().first().copied() == wanted.first
        && request.direction == wanted.direction
        && command.when_full == wanted.when_full
        && command.wait == wanted.wait
}

/// The last command of submitter 3 of the realistic work.
const LAST_OF_REALISTIC: Wanted = Wanted {
    submitter: 3,
    number: 9,
    unit: 0,
    cdb: &[0x28, 0, 0, 0, 8, 0x88, 0, 0, 8, 0],
    segments: &[4096],
    bytes: 4096,
    first: Some(0),
    direction: Direction::In,
    when_full: WhenFull::Wait,
    wait: false,
};

/// Commands of the works of examples/.
const COMMANDS: [(&str, Wanted); 6] = [
    (
        SMALL_WORK,
        Wanted {
            cdb: &[0x2a, 0, 0, 0, 0, 5, 0, 0, 1, 0],
            segments: &[512],
            bytes: 512,
            first: Some(9),
            direction: Direction::Out,
            submitter: 0,
            number: 0,
            ..LAST_OF_REALISTIC
        },
    ),
    (
        SMALL_WORK,
        Wanted {
            cdb: &[0x28, 0, 0, 0, 0, 5, 0, 0, 1, 0],
            segments: &[512],
            bytes: 512,
            submitter: 0,
            number: 1,
            wait: true,
            ..LAST_OF_REALISTIC
        },
    ),
    (REALISTIC_WORK, LAST_OF_REALISTIC),
    (
        ROGUE_WORK,
        Wanted {
            submitter: 0,
            number: 1,
            unit: 1,
            cdb: &[0x28, 0, 0, 0, 0, 0, 0, 0, 1, 0],
            segments: &[512],
            bytes: 512,
            when_full: WhenFull::Skip,
            ..LAST_OF_REALISTIC
        },
    ),
    (
        ROGUE_WORK,
        Wanted {
            submitter: 1,
            number: 0,
            unit: 2,
            cdb: &[0, 0, 0, 0, 0, 0],
            segments: &[],
            bytes: 0,
            first: None,
            direction: Direction::None,
            ..LAST_OF_REALISTIC
        },
    ),
    (
        ROGUE_WORK,
        Wanted {
            submitter: 1,
            number: 1,
            cdb: &[0x2a, 0, 0, 0, 0, 10, 0, 0, 1, 0],
            segments: &[512],
            bytes: 512,
            first: Some(255),
            direction: Direction::Out,
            ..LAST_OF_REALISTIC
        },
    ),
];

#[test]
fn commands_of_works(rt: HostRuntime) -> Result<(), Fail> {
    let rig = any_rig(&rt)?;
    for (text, wanted) in &COMMANDS {
        let work = read_work(rt.alloc(), text.as_bytes(), &rig)?;
        assert!(rt; has(&work, wanted), "{text}");
    }
    Ok(())
}

/// The acts of the rogue work.
const ACTS: [Act; 3] = [
    Act {
        kind: ActKind::Abort(Line {
            submitter: 0,
            number: 1,
        }),
        after: 0,
    },
    Act {
        kind: ActKind::Device(0),
        after: 1,
    },
    Act {
        kind: ActKind::Bus,
        after: 2,
    },
];

#[test]
fn acts_of_a_work(rt: HostRuntime) -> Result<(), Fail> {
    let rig = any_rig(&rt)?;
    let work = read_work(rt.alloc(), ROGUE_WORK.as_bytes(), &rig)?;
    assert_eq!(rt; work.submitters.as_slice().len(), 2);
    assert!(rt; work.acts.as_slice() == ACTS.as_slice());
    Ok(())
}

/// A work, and its first fault.
const FAULTS: [(&str, &str, BadKind); 16] = [
    // the file
    ("version 1\n", "", NotToml),
    ("version = 2\n[[submitter]]\n", "version", OutOfRange),
    (
        "version = 1\nsubmitter = 1\nact = 1\n",
        "submitter",
        WrongType,
    ),
    // the keys of a command, in their order
    (
        "version = 1\n[[submitter]]\ncommand = [{ cdb = \"0\" }]\n",
        "submitter[0].command[0].unit",
        Missing,
    ),
    (
        "version = 1\n[[submitter]]\ncommand = [{ unit = 256, cdb = \"0\" }]\n",
        "submitter[0].command[0].unit",
        OutOfRange,
    ),
    (
        "version = 1\n[[submitter]]\ncommand = [{ unit = 0, cdb = \"0\" }]\n",
        "submitter[0].command[0].cdb",
        OutOfRange,
    ),
    (
        "version = 1\n[[submitter]]\ncommand = [{ unit = 0, cdb = \"00 00\" }]\n",
        "submitter[0].command[0].cdb",
        OutOfRange,
    ),
    (
        "version = 1\n[[submitter]]\ncommand = [{ unit = 0, cdb = \"\", segments = [131072, true], fill = 256 }]\n",
        "submitter[0].command[0].segments[1]",
        WrongType,
    ),
    (
        "version = 1\n[[submitter]]\ncommand = [{ unit = 0, cdb = \"\", segments = [131073] }]\n",
        "submitter[0].command[0].segments[0]",
        OutOfRange,
    ),
    (
        "version = 1\n[[submitter]]\ncommand = [{ unit = 0, cdb = \"\", direction = \"In\" }]\n",
        "submitter[0].command[0].direction",
        OutOfRange,
    ),
    (
        "version = 1\nz = 1\n[[submitter]]\ncommand = [{ unit = 0, cdb = \"\", z = 1, y = 1 }]\n",
        "submitter[0].command[0].y",
        Unknown,
    ),
    // the keys of an act: which they are hangs on its kind
    ("version = 1\n[[act]]\nafter = -1\n", "act[0].kind", Missing),
    (
        "version = 1\n[[act]]\nkind = \"device\"\ntarget = 7\n",
        "act[0].target",
        OutOfRange,
    ),
    (
        "version = 1\n[[act]]\nkind = \"bus\"\ntarget = 0\n",
        "act[0].target",
        Unknown,
    ),
    // clashes: there is no such line, and there aren't so many
    (
        "version = 1\n[[submitter]]\n[[act]]\nkind = \"abort\"\nsubmitter = 0\ncommand = 0\n",
        "act[0].command",
        Clash,
    ),
    (
        "version = 1\n[[submitter]]\n[[act]]\nkind = \"bus\"\nafter = 1\nz = 1\n",
        "act[0].after",
        Clash,
    ),
];

/// Whether the reader finds this fault first.
fn has_fault(answer: &Result<Work, ReadFault>, key: &str, kind: BadKind) -> bool {
    match answer {
        Ok(_) => false,
        Err(fault) => is_fault(fault, key, kind),
    }
}

#[test]
fn faults_of_works(rt: HostRuntime) -> Result<(), Fail> {
    let rig = any_rig(&rt)?;
    for (text, key, kind) in &FAULTS {
        let answer = read_work(rt.alloc(), text.as_bytes(), &rig);
        assert!(rt; has_fault(&answer, key, *kind), "{text}");
    }
    Ok(())
}

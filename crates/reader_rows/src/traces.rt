//! A whole trace in both directions.

use rig_types::{Entry, Line, Step};
use std::test::Fail;
use trace_text::{TraceFault, TraceLine, read, write};

/// The beginning of a run of one READ(10), cut off after eight steps.
const TEXT: &str = "sym-trace 1
b 0 0
c bc6ef35f
l 0
c c7502932
q 0
c d1ccf6e9
s 0
c aaf95334
";

/// The first step.
const BUILD: Step = Step::Build(Line {
    submitter: 0,
    number: 0,
});

const ENTRIES: [Entry; 8] = [
    Entry {
        caller: 0,
        step: BUILD,
    },
    Entry {
        caller: 3,
        step: Step::Chip(0xbc6e_f35f),
    },
    Entry {
        caller: 0,
        step: Step::Link(0),
    },
    Entry {
        caller: 3,
        step: Step::Chip(0xc750_2932),
    },
    Entry {
        caller: 0,
        step: Step::Queue(0),
    },
    Entry {
        caller: 3,
        step: Step::Chip(0xd1cc_f6e9),
    },
    Entry {
        caller: 0,
        step: Step::Signal,
    },
    Entry {
        caller: 3,
        step: Step::Chip(0xaaf9_5334),
    },
];

#[test]
fn the_beginning_of_a_run_is_written(rt: HostRuntime) -> Result<(), Fail> {
    let text = write(rt.alloc(), &ENTRIES, 1)?;
    assert!(rt; text.as_slice() == TEXT.as_bytes());
    Ok(())
}

/// What the text reads as: the caller stands in the lines of Build and Signal alone.
const LINES: [TraceLine; 8] = [
    TraceLine {
        step: BUILD,
        caller: Some(0),
    },
    TraceLine {
        step: Step::Chip(0xbc6e_f35f),
        caller: None,
    },
    TraceLine {
        step: Step::Link(0),
        caller: None,
    },
    TraceLine {
        step: Step::Chip(0xc750_2932),
        caller: None,
    },
    TraceLine {
        step: Step::Queue(0),
        caller: None,
    },
    TraceLine {
        step: Step::Chip(0xd1cc_f6e9),
        caller: None,
    },
    TraceLine {
        step: Step::Signal,
        caller: Some(0),
    },
    TraceLine {
        step: Step::Chip(0xaaf9_5334),
        caller: None,
    },
];

#[test]
fn the_beginning_of_a_run_is_read(rt: HostRuntime) -> Result<(), Fail> {
    assert!(rt; TEXT.len() < 0xffff_ffff);
    let found = read(rt.alloc(), TEXT.as_bytes(), 1)?;
    assert!(rt; found.as_slice() == LINES.as_slice());
    Ok(())
}

/// Texts that are cut inside a line, and the line at which each is refused.
const CUTS: [(&str, u32); 4] = [
    (
        "sym-trace 1\nb 0 0\nc bc6ef35f\nl 0\nc c7502932\nq 0\nc d1ccf6e9\ns 0\nc aaf95334",
        9,
    ),
    (
        "sym-trace 1\nb 0 0\nc bc6ef35f\nl 0\nc c7502932\nq 0\nc d1ccf6e9\ns ",
        8,
    ),
    ("sym-trace 1\nb 0 0\nc bc6ef35f\nl", 4),
    ("sym-tr", 1),
];

#[test]
fn cuts_are_refused(rt: HostRuntime) -> Result<(), Fail> {
    for (cut, line) in &CUTS {
        assert!(rt; cut.len() < 0xffff_ffff);
        let answer = read(rt.alloc(), cut.as_bytes(), 1);
        assert!(rt;
            matches!(answer, Err(TraceFault::Line(n)) if n == *line),
            "{cut}"
        );
    }
    Ok(())
}

//! The commands `step`, `replay` and `load`, over files that are valid, wrong, or whose loads and stores fail.

use crate::world::{WHOLE, run, run_over};
use scsi_words::{Bytes, Counts, Text};
use std::alloc::{AllocError, Global};
use std::process::Abort;
use std::test::Fail;
use sym_io::{File, Files, MemoryShelf};
use sym_top::Exit;

/// One unit of 64 blocks; the list may have as many steps as the bound of one READ says.
pub const RIG: &str =
    "version = 1\nstep_limit = 4352\n[[unit]]\ntarget = 0\nlun = 0\nblocks = 64\npattern = \"count\"\n";
/// One READ(10) of block 3.
pub const READ: &str =
    "version = 1\n[[submitter]]\n[[submitter.command]]\nunit = 0\ncdb = \"28000000000300000100\"\nsegments = [512]\ndirection = \"in\"\n";
/// A READ(10) with a segment too short, one with a descriptor block too short, and one of no unit.
const REFUSED: &str =
    "version = 1\n[[submitter]]\n[[submitter.command]]\nunit = 0\ncdb = \"28000000000300000100\"\nsegments = [511]\ndirection = \"in\"\n[[submitter.command]]\nunit = 0\ncdb = \"280000000003\"\nsegments = [512]\ndirection = \"in\"\n[[submitter.command]]\nunit = 9\ncdb = \"28000000000300000100\"\nsegments = [512]\ndirection = \"in\"\n";

const NOTHING: &str = "version = 1\n";

const STEP: &[&str] = &["step", "rig", "work", "0", "out"];

const REPLAY: &[&str] = &["replay", "rig", "work", "trace"];
/// How the trace of one READ with seed 0 begins.
const BEGINS: &str =
    "sym-trace 1\nb 0 0\nc bc6ef35f\nl 0\nc c7502932\nq 0\nc d1ccf6e9\ns 0\nc aaf95334\n";

const NO_REPORTS: &str = "total reports 0 done 0 cut 0 reset 0 notarget 0 broken 0\n";

/// The texts of three files, the calls of the shelf that fail, counted from 1, and how a command ends over them.
#[derive(Clone, Copy)]
struct Case<'a> {
    words: &'a [&'a str],
    rig: &'a str,
    work: &'a str,
    trace: &'a str,
    failing: &'a [u32],
    exit: Exit,
    said: &'a str,
}

/// The run of one READ.
const SERVED: Case<'static> = Case {
    words: STEP,
    rig: RIG,
    work: READ,
    trace: "",
    failing: &[],
    exit: Exit::Ok,
    said: "",
};

/// The replay of a trace of one READ that is refused.
fn refused_trace<'a>(trace: &'a str, said: &'a str) -> Case<'a> {
    Case {
        words: REPLAY,
        rig: RIG,
        work: READ,
        trace,
        failing: &[],
        exit: Exit::BadTrace,
        said,
    }
}

/// A run over a rig that is too long.
fn long_rig(rig: &str) -> Case<'_> {
    Case {
        words: STEP,
        rig,
        work: READ,
        trace: "",
        failing: &[],
        exit: Exit::TooLong,
        said: "too long\n",
    }
}

fn file(alloc: Global, name: &str, text: &str) -> Result<File, AllocError> {
    Ok(File {
        name: Text::of(String::from_str(alloc, name)?),
        bytes: Bytes::of(text.as_bytes().to_vec(alloc)?),
    })
}

/// A shelf of a rig, a work and a trace, whose calls of these numbers, counted from 1, fail.
pub fn shelf_of_texts(
    alloc: Global,
    rig: &str,
    work: &str,
    trace: &str,
    failing: &[u32],
) -> Result<MemoryShelf, AllocError> {
    let mut files = Vec::new(alloc);
    files.push(file(alloc, "rig", rig)?)?;
    files.push(file(alloc, "work", work)?)?;
    files.push(file(alloc, "trace", trace)?)?;
    let failing = Counts::of(failing.to_vec(alloc)?);
    Ok(MemoryShelf::new(Files::of(files), failing))
}

fn shelf_of(alloc: Global, case: &Case<'_>) -> Result<MemoryShelf, AllocError> {
    shelf_of_texts(alloc, case.rig, case.work, case.trace, case.failing)
}

/// Runs a case that is refused, and asserts its status and its line; nothing is printed or stored.
fn check(rt: &impl Abort, alloc: Global, case: &Case<'_>) -> Result<(), AllocError> {
    let mut shelf = shelf_of(alloc, case)?;
    let left = run_over(alloc, case.words, &mut shelf, WHOLE, WHOLE)?;
    assert_eq!(rt; left.exit, case.exit);
    assert_eq!(rt; left.err.bytes(), case.said.as_bytes());
    assert_eq!(rt; left.out.bytes(), b"".as_slice());
    assert!(rt; shelf.file("out").is_none());
    Ok(())
}

/// Files that are refused, lists that are, and loads and stores that fail.
const REFUSALS: [Case<'static>; 12] = [
    Case {
        words: STEP,
        rig: "version = 1\nstep_limit = 8\n[[unit]]\ntarget = 0\nlun = 0\nblocks = 64\n",
        work: READ,
        trace: "",
        failing: &[],
        exit: Exit::StepLimit,
        said: "step limit\n",
    },
    Case {
        words: STEP,
        rig: "version = 1\n[[unit]]\ntarget = 0\nlun = 0\nblocks = 64\ndepth = 65\n",
        work: READ,
        trace: "",
        failing: &[],
        exit: Exit::BadRig,
        said: "bad rig unit[0].depth range\n",
    },
    Case {
        words: STEP,
        rig: RIG,
        work: "=",
        trace: "",
        failing: &[],
        exit: Exit::BadWork,
        said: "bad work nottoml\n",
    },
    Case {
        words: STEP,
        rig: RIG,
        work: READ,
        trace: "",
        failing: &[1],
        exit: Exit::ReadFault,
        said: "read fault\n",
    },
    Case {
        words: STEP,
        rig: RIG,
        work: READ,
        trace: "",
        failing: &[2],
        exit: Exit::ReadFault,
        said: "read fault\n",
    },
    Case {
        words: STEP,
        rig: RIG,
        work: READ,
        trace: "",
        failing: &[3],
        exit: Exit::WriteFault,
        said: "write fault\n",
    },
    Case {
        words: REPLAY,
        rig: RIG,
        work: READ,
        trace: BEGINS,
        failing: &[3],
        exit: Exit::ReadFault,
        said: "read fault\n",
    },
    Case {
        words: REPLAY,
        rig: RIG,
        work: READ,
        trace: "",
        failing: &[],
        exit: Exit::BadTrace,
        said: "bad trace line 1\n",
    },
    Case {
        words: REPLAY,
        rig: RIG,
        work: READ,
        trace: "sym-trace 1\nb 0 1\n",
        failing: &[],
        exit: Exit::BadTrace,
        said: "bad trace step 1 unknown\n",
    },
    Case {
        words: REPLAY,
        rig: RIG,
        work: READ,
        trace: "sym-trace 1\nb 0 0\nb 0 0\n",
        failing: &[],
        exit: Exit::BadTrace,
        said: "bad trace step 2\n",
    },
    Case {
        words: REPLAY,
        rig: RIG,
        work: READ,
        trace: BEGINS,
        failing: &[],
        exit: Exit::BadTrace,
        said: "bad trace not drained\n",
    },
    Case {
        words: REPLAY,
        rig: RIG,
        work: NOTHING,
        trace: "sym-trace 1\nd\n",
        failing: &[],
        exit: Exit::BadTrace,
        said: "bad trace step 1\n",
    },
];

#[test]
fn runs_are_refused(rt: HostRuntime) -> Result<(), Fail> {
    for case in &REFUSALS {
        check(&rt, rt.alloc(), case)?;
    }
    Ok(())
}

/// A rig of more than 4,194,304 bytes.
#[test]
fn a_rig_that_is_too_long(rt: HostRuntime) -> Result<(), Fail> {
    let alloc = rt.alloc();
    let mut long = String::new(alloc);
    for _ in 0..65_537u32 {
        long.push_str("################################################################")?;
    }
    let case = long_rig(long.as_str());
    check(&rt, alloc, &case)?;
    Ok(())
}

/// The run of one READ is stored, and its trace gives its report again. The trace that was stored.
fn replayed(rt: &impl Abort, alloc: Global) -> Result<Vec<u8>, AllocError> {
    let mut shelf = shelf_of(alloc, &SERVED)?;
    let made = run_over(alloc, STEP, &mut shelf, WHOLE, WHOLE)?;
    assert_eq!(rt; made.exit, Exit::Ok);
    let again: &[&str] = &["replay", "rig", "work", "out"];
    let left = run_over(alloc, again, &mut shelf, WHOLE, WHOLE)?;
    assert_eq!(rt; left.exit, Exit::Ok);
    assert_eq!(rt; left.out.bytes(), made.out.bytes());
    match shelf.file("out") {
        Some(file) => file.as_slice().to_vec(alloc),
        None => Ok(Vec::new(alloc)),
    }
}

/// A trace that is cut is refused: in a line that is cut, or with work left behind a whole one.
fn check_cut(rt: &impl Abort, alloc: Global, cut: &[u8], line: u32) -> Result<(), AllocError> {
    let said = if cut.ends_with(b"\n") {
        String::from_str(alloc, "bad trace not drained\n")?
    } else {
        format!(in alloc; "bad trace line {line}\n")?
    };
    let text = std::str::from_utf8(cut).unwrap_or("");
    let case = refused_trace(text, said.as_str());
    check(rt, alloc, &case)
}

#[test]
fn a_run_is_replayed_and_its_cuts_are_refused(rt: HostRuntime) -> Result<(), Fail> {
    let alloc = rt.alloc();
    let trace = replayed(&rt, alloc)?;
    assert!(rt; trace.as_slice().starts_with(BEGINS.as_bytes()));
    let mut line = 1u32;
    for count in 0..trace.len() {
        check_cut(&rt, alloc, &trace.as_slice()[..count], line)?;
        if trace[count] == b'\n' {
            line = line.saturating_add(1);
        }
    }
    Ok(())
}

/// Works that leave nothing to report, and what became of their lines.
const LINES: [(&str, &str); 2] = [
    (NOTHING, ""),
    (
        REFUSED,
        "line 0.0 refused bad tooshort 512 511\nline 0.1 refused bad cdblength\nline 0.2 refused bad nounit\n",
    ),
];

#[test]
fn runs_print_what_became_of_lines(rt: HostRuntime) -> Result<(), Fail> {
    let alloc = rt.alloc();
    for (work, lines) in LINES {
        let mut shelf = shelf_of(alloc, &Case { work, ..SERVED })?;
        let left = run_over(alloc, STEP, &mut shelf, WHOLE, WHOLE)?;
        assert_eq!(rt; left.exit, Exit::Ok);
        assert!(rt; left.out.bytes().starts_with(lines.as_bytes()));
        assert!(rt; left.out.bytes().ends_with(NO_REPORTS.as_bytes()));
    }
    Ok(())
}

#[test]
fn loads_of_no_commands(rt: HostRuntime) -> Result<(), Fail> {
    let alloc = rt.alloc();
    let none = run(alloc, &["load", "0", "1"], WHOLE, WHOLE)?;
    assert!(rt; none.out.bytes().starts_with(b"load 0 seed 1 steps 0\n"));
    assert!(rt; none.out.bytes().ends_with(NO_REPORTS.as_bytes()));
    let many = run(alloc, &["load", "2001", "1"], WHOLE, WHOLE)?;
    assert_eq!(rt; many.exit, Exit::Usage);
    Ok(())
}

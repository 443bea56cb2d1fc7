//! The command `run`, whose callers make steps beside each other, over files in memory.

use crate::runs::{READ, RIG, shelf_of_texts};
use crate::world::{WHOLE, run_beside, run_over};
use std::alloc::Global;
use std::process::Abort;
use std::sync::Wait;
use std::test::Fail;
use std::thread::Threads;
use sym_io::MemoryShelf;
use sym_top::Exit;

/// The list may have eight steps, which leave one READ under way.
const EIGHT: &str =
    "version = 1\nstep_limit = 8\n[[unit]]\ntarget = 0\nlun = 0\nblocks = 64\npattern = \"count\"\n";

const RUN: &[&str] = &["run", "rig", "work", "0", "out"];

const REPLAY: &[&str] = &["replay", "rig", "work", "out"];

/// A rig, the calls of the shelf that fail, counted from 1, and how `run` ends over one READ.
struct Case<'a> {
    words: &'a [&'a str],
    rig: &'a str,
    failing: &'a [u32],
    exit: Exit,
    said: &'a str,
    /// Whether a trace is stored, and how its replay ends.
    replay: Option<Exit>,
}

const CASES: [Case<'static>; 6] = [
    Case {
        words: RUN,
        rig: RIG,
        failing: &[],
        exit: Exit::Ok,
        said: "",
        replay: Some(Exit::Ok),
    },
    Case {
        words: RUN,
        rig: EIGHT,
        failing: &[],
        exit: Exit::StepLimit,
        said: "step limit\n",
        replay: Some(Exit::StepLimit),
    },
    Case {
        words: RUN,
        rig: EIGHT,
        failing: &[3],
        exit: Exit::WriteFault,
        said: "write fault\n",
        replay: None,
    },
    Case {
        words: RUN,
        rig: RIG,
        failing: &[2],
        exit: Exit::ReadFault,
        said: "read fault\n",
        replay: None,
    },
    Case {
        words: RUN,
        rig: "version = 3\n",
        failing: &[],
        exit: Exit::BadRig,
        said: "bad rig version range\n",
        replay: None,
    },
    Case {
        words: &["run", "rig", "work", "00", "out"],
        rig: RIG,
        failing: &[],
        exit: Exit::Usage,
        said: "usage\n",
        replay: None,
    },
];

/// How many lines a stored trace has.
fn lines_of(shelf: &MemoryShelf) -> usize {
    match shelf.file("out") {
        Some(file) => file.as_slice().iter().filter(|&&b| b == b'\n').count(),
        None => 0,
    }
}

/// Runs a case, and replays what it stored: a report that was printed is printed again.
fn check<R: Threads + Wait + Sync + Abort>(
    rt: &R,
    alloc: Global,
    case: &Case<'_>,
) -> Result<(), Fail> {
    let mut shelf = shelf_of_texts(alloc, case.rig, READ, "", case.failing)?;
    let made = run_beside(rt, alloc, case.words, &mut shelf)?;
    assert_eq!(rt; made.exit, case.exit);
    assert_eq!(rt; made.err.bytes(), case.said.as_bytes());
    assert_eq!(rt; shelf.file("out").is_some(), case.replay.is_some());
    let Some(exit) = case.replay else {
        return Ok(());
    };
    // its first line is no step
    assert!(rt; case.exit == Exit::Ok || lines_of(&shelf) == 9);
    let again = run_over(alloc, REPLAY, &mut shelf, WHOLE, WHOLE)?;
    assert_eq!(rt; again.exit, exit);
    assert_eq!(rt; again.out.bytes(), made.out.bytes());
    Ok(())
}

#[test]
fn runs_store_traces_that_replay(rt: HostRuntime) -> Result<(), Fail> {
    for case in &CASES {
        check(&rt, rt.alloc(), case)?;
    }
    Ok(())
}

/// The other commands are answered as they are alone.
#[test]
fn other_commands_are_served(rt: HostRuntime) -> Result<(), Fail> {
    let alloc = rt.alloc();
    let words: &[&str] = &["step", "rig", "work", "0", "out"];
    let mut shelf = shelf_of_texts(alloc, RIG, READ, "", &[])?;
    let alone = run_over(alloc, words, &mut shelf, WHOLE, WHOLE)?;
    let beside = run_beside(&rt, alloc, words, &mut shelf)?;
    assert_eq!(rt; beside.exit, Exit::Ok);
    assert_eq!(rt; beside.out.bytes(), alone.out.bytes());
    Ok(())
}

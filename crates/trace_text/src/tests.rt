//! Tables of lines and of faults.

ghost use Rattle.std.specs.Prelude.{◌≡◌, ◌≤◌, map, IfSome};
ghost use Rattle.trace_text.specs.Grammar.{line_of};

use super::*;
use rig_types::{Entry, Line, Step};
use std::alloc::Global;
use std::test::Fail;

/// Writes entries and reads the text. That the lines are those of the entries follows from the clauses of both calls.
fn written_and_read(alloc: Global, entries: &[Entry], version: u8) -> Option<TraceLines>
    requires { (1 ≤ version) × (version ≤ 2) }
    ensures { IfSome result (λ ls. ls ≡ map line_of entries.now) }
{
    let text = match write(alloc, entries, version) {
        Ok(text) => text,
        Err(_) => return None,
    };
    if text.as_slice().len() >= 4_294_967_295 {
        return None;
    }
    match read(alloc, text.as_slice(), version) {
        Ok(lines) => Some(lines),
        Err(_) => None,
    }
}

fn build(submitter: u16, number: u32) -> Step {
    Step::Build(Line { submitter, number })
}

#[test]
fn each_line_in_both_directions(rt: HostRuntime) {
    // The step, its caller, its line, and the caller that the line gives.
    let table = [
        (build(0, 0), 0, "b 0 0", Some(0)),
        (Step::Chip(0xbc6e_f35f), 3, "c bc6ef35f", None),
        (Step::Link(0), 0, "l 0", None),
        (Step::Chip(0xc750_2932), 3, "c c7502932", None),
        (Step::Queue(0), 0, "q 0", None),
        (Step::Chip(0xd1cc_f6e9), 3, "c d1ccf6e9", None),
        (Step::Signal, 0, "s 0", Some(0)),
        (Step::Chip(0xaaf9_5334), 3, "c aaf95334", None),
        (
            build(65_535, 4_294_967_295),
            65_535,
            "b 65535 4294967295",
            Some(65_535),
        ),
        (
            Step::Signal,
            4_294_967_295,
            "s 4294967295",
            Some(4_294_967_295),
        ),
        (Step::Chip(0), 18, "c 00000000", None),
        (Step::Fix, 17, "f", None),
        (Step::Sweep(10), 17, "w 10", None),
        (Step::Restart, 17, "r", None),
        (Step::TakeDone, 17, "d", None),
        (Step::Unlink(4_294_967_295), 17, "u 4294967295", None),
        (Step::Free(7), 17, "e 7", None),
        (Step::Act(63), 16, "a 63", None),
        (Step::ResetBus, 17, "z", None),
        (Step::Sense(255), 17, "n 255", None),
    ];
    let alloc = rt.alloc();
    for (step, caller, line, spelled) in table {
        for (version, first) in [(1, "sym-trace 1"), (2, "sym-trace 2")] {
            assert!(rt; 1 <= version && version <= 2);
            let entry = Entry { caller, step };
            let text = write(alloc, &[entry], version).expect(&rt, "memory");
            let wanted = format!(in alloc; "{first}\n{line}\n").expect(&rt, "memory");
            assert!(rt; text.as_slice() == wanted.as_bytes(), "{line}");
            let lines = written_and_read(alloc, &[entry], version).expect(&rt, "a trace");
            let line_read = TraceLine {
                step,
                caller: spelled,
            };
            assert!(rt; lines.as_slice() == [line_read].as_slice(), "{line}");
        }
    }
}

#[test]
fn the_first_line_outside_the_grammar(rt: HostRuntime) {
    let table: [(&str, u32); 26] = [
        ("", 1),
        ("sym-trace 1", 1),
        ("sym-trace 2\n", 1),
        ("sym-trace 01\n", 1),
        ("sym-trace 1\r\n", 1),
        ("\nsym-trace 1\n", 1),
        ("sym-trace 1\nf", 2),
        ("sym-trace 1\n\n", 2),
        ("sym-trace 1\nf\r\n", 2),
        ("sym-trace 1\nf \n", 2),
        ("sym-trace 1\nx 0\n", 2),
        ("sym-trace 1\nl\n", 2),
        ("sym-trace 1\nl \n", 2),
        ("sym-trace 1\nl 00\n", 2),
        ("sym-trace 1\nl 01\n", 2),
        ("sym-trace 1\nl +1\n", 2),
        ("sym-trace 1\nl 4294967296\n", 2),
        ("sym-trace 1\nb 0\n", 2),
        ("sym-trace 1\nb 65536 0\n", 2),
        ("sym-trace 1\nb 0 0 0\n", 2),
        ("sym-trace 1\nc bc6ef35\n", 2),
        ("sym-trace 1\nc bc6ef35ff\n", 2),
        ("sym-trace 1\nc BC6EF35F\n", 2),
        (
            "sym-trace 1\nb 0 0\nc bc6ef35f\nl 0\nc c7502932\nq 0\nc d1ccf6e9\ns 0\nc aaf953",
            9,
        ),
        ("sym-trace 1\nf\nd\n\nd\n", 4),
        ("sym-trace 1\nf\nf\u{e9}\n", 3),
    ];
    for (text, line) in table {
        let bytes = text.as_bytes();
        assert!(rt; bytes.len() < 4_294_967_295);
        let answer = read(rt.alloc(), bytes, 1);
        assert!(rt;
            matches!(answer, Err(TraceFault::Line(n)) if n == line),
            "{text:?}"
        );
    }
}

#[test]
fn a_long_trace(rt: HostRuntime) -> Result<(), Fail> {
    let alloc = rt.alloc();
    let mut entries = Vec::new(alloc);
    for ticket in 0..100_000u32 {
        entries.push(Entry {
            caller: 17,
            step: Step::Free(ticket),
        })?;
    }
    let lines = written_and_read(alloc, entries.as_slice(), 2).expect(&rt, "a trace");
    assert_eq!(rt; lines.as_slice().len(), 100_000);
    // a line more, without its line feed
    let mut text = write(alloc, entries.as_slice(), 2)?.into_vec();
    text.push(b'f')?;
    assert!(rt; text.len() < 4_294_967_295);
    let fault = read(alloc, text.as_slice(), 2).err();
    assert!(rt; fault == Some(TraceFault::Line(100_002)));
    Ok(())
}

//! The reader of rigs.

use crate::text::filled;
use rig_reader::read_rig;
use rig_types::ReadFault;
use std::alloc::{AllocError, Global};
use std::io;
use std::time::CpuClock;

/// What a long rig is full of: a piece again and again behind a head, then an end.
#[derive(Clone, Copy)]
struct Shape {
    name: &'static str,
    head: &'static str,
    piece: &'static str,
    /// What follows the piece's number, where the pieces are numbered.
    after: Option<&'static str>,
    end: &'static str,
}

/// A rig of one unit.
const SMALL: &str = "version = 1\n[[unit]]\ntarget = 0\nlun = 0\nblocks = 64\n";

/// A list of units, begun.
const LIST: &str = "version = 1\nunit = [0";

const SHAPES: [Shape; 11] = [
    Shape {
        name: "comments",
        head: SMALL,
        piece: "# sixty-three characters of a comment, as a line has often more\n",
        after: None,
        end: "",
    },
    Shape {
        name: "blank lines",
        head: SMALL,
        piece: "\n",
        after: None,
        end: "",
    },
    Shape {
        name: "units",
        head: "version = 1\n",
        piece: "[[unit]]\ntarget = 0\nlun = 0\nblocks = 64\n",
        after: None,
        end: "",
    },
    Shape {
        name: "keys",
        head: SMALL,
        piece: "k",
        after: Some(" = 1\n"),
        end: "",
    },
    Shape {
        name: "tables",
        head: SMALL,
        piece: "[k",
        after: Some("]\n"),
        end: "",
    },
    Shape {
        name: "tables of 80 parts",
        head: SMALL,
        piece: "[a.a.a.a.a.a.a.a.a.a.a.a.a.a.a.a.a.a.a.a.a.a.a.a.a.a.a.a.a.a.a.a.a.a.a.a.a.a.a.a.a.a.a.a.a.a.a.a.a.a.a.a.a.a.a.a.a.a.a.a.a.a.a.a.a.a.a.a.a.a.a.a.a.a.a.a.a.a.a.k",
        after: Some("]\n"),
        end: "",
    },
    Shape {
        name: "numbers",
        head: LIST,
        piece: ", 0",
        after: None,
        end: "]\n",
    },
    Shape {
        name: "nested lists",
        head: LIST,
        piece: ", [[[[[[[[[[[[[[[[[[[[[[[[[[[[[[[[[[[[[[[[[[[[[[[[[[[[[[[[[[[[[[[[[[[[[[[[[[[[[[[]]]]]]]]]]]]]]]]]]]]]]]]]]]]]]]]]]]]]]]]]]]]]]]]]]]]]]]]]]]]]]]]]]]]]]]]]]]]]]]",
        after: None,
        end: "]\n",
    },
    Shape {
        name: "inline tables",
        head: LIST,
        piece: ", { target = 0, lun = 0, blocks = 64 }",
        after: None,
        end: "]\n",
    },
    Shape {
        name: "text",
        head: "version = \"",
        piece: "sixty-four characters that stand in one pair of quotes, no other",
        after: None,
        end: "\"\n",
    },
    Shape {
        name: "escapes",
        head: "version = \"",
        piece: "\\n",
        after: None,
        end: "\"\n",
    },
];

/// A rig of a shape, of about this many bytes.
fn rig_of(alloc: Global, shape: &Shape, len: usize) -> Result<String, AllocError> {
    let mut text = filled(alloc, shape.head, shape.piece, shape.after, len)?;
    text.push_str(shape.end)?;
    Ok(text)
}

/// A rig of this many bytes or a few more: half of it is one key of a header, the other half are keys below it.
fn below_a_long_header(alloc: Global, len: usize) -> Result<String, AllocError> {
    let mut head = filled(alloc, "version = 1\n[", "aaaaaaaaaaaaaaaa", None, len / 2)?;
    head.push_str("]\n")?;
    filled(alloc, head.as_str(), "k", Some(" = 1\n"), len)
}

/// What the reader answers.
fn answer(rt: &HostRuntime, text: &str) -> Result<String, AllocError> {
    let alloc = rt.alloc();
    match read_rig(alloc, text.as_bytes()) {
        Ok(_) => String::from_str(alloc, "read"),
        Err(ReadFault::Bad { key, kind }) => match key.as_str().len() {
            0..=16 => format!(in alloc; "{kind:?} at {}", key.as_str()),
            count => format!(in alloc; "{kind:?} at a key of {count} bytes"),
        },
        Err(ReadFault::OutOfMemory) => String::from_str(alloc, "no memory"),
    }
}

/// Reads a text so often, and prints how long it took; once where no number is given, and then no time is printed.
fn figure(rt: &HostRuntime, name: &str, text: &str, count: Option<u32>) -> io::Result<()> {
    let len = text.len();
    let Some(times) = count else {
        let found = answer(rt, text)?;
        return println!(rt; "rig of {name}: {len} bytes, {found}");
    };
    let start = rt.thread_cpu_time()?;
    for _ in 1..times {
        let _again = answer(rt, text)?;
    }
    let found = answer(rt, text)?;
    let time = rt.thread_cpu_time()?.saturating_sub(start).as_millis();
    println!(rt;
        "rig of {name}: {len} bytes, {found}, read {times} times in {time} ms of processor time"
    )
}

/// How long the rigs are: short where no number is given.
fn lengths(count: Option<u32>) -> &'static [usize] {
    match count {
        Some(_) => &[524_288, 1_048_576, 2_097_152, 4_194_304],
        None => &[4_096],
    }
}

/// Reads rigs of each shape and length.
pub fn rig(rt: &HostRuntime, count: Option<u32>) -> io::Result<()> {
    for len in lengths(count) {
        for shape in &SHAPES {
            let text = rig_of(rt.alloc(), shape, *len)?;
            figure(rt, shape.name, text.as_str(), count)?;
        }
    }
    Ok(())
}

/// The same of rigs whose keys stand below a header as long as they are together.
pub fn rig_below_header(rt: &HostRuntime, count: Option<u32>) -> io::Result<()> {
    for len in lengths(count) {
        let text = below_a_long_header(rt.alloc(), *len)?;
        figure(rt, "keys below a long header", text.as_str(), count)?;
    }
    Ok(())
}

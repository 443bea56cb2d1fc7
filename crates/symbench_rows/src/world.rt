//! What a command is given in memory, and what it leaves.

ghost use Rattle.std.specs.Prelude.{◌<◌};

use bench_pool::NoGate;
use scsi_words::{Counts, Text};
use std::alloc::{AllocError, Global};
use std::sync::Wait;
use std::thread::Threads;
use sym_io::{Files, MemorySink, QuietShelf, Shelf};
use sym_top::{Exit, answer, answer_alone, words_of};

/// How a sink behaves: the most bytes of one write, and the calls, counted from 1, that fail.
#[derive(Clone, Copy)]
pub struct Sinking {
    pub most: u32,
    pub failing: Option<u32>,
    ghost takes: { 0 < most },
}

/// A sink that takes every piece whole.
pub const WHOLE: Sinking = Sinking {
    most: 0x1_0000,
    failing: None,
};

/// What a command left: its status, and what it printed.
#[derive(Drop)]
pub struct Ending {
    pub exit: Exit,
    pub out: MemorySink,
    pub err: MemorySink,
}

fn sink(alloc: Global, how: Sinking) -> Result<MemorySink, AllocError> {
    let mut failing = Vec::new(alloc);
    if let Some(call) = how.failing {
        failing.push(call)?;
    }
    MemorySink::new(alloc, 0x1_0000, how.most, Counts::of(failing))
}

/// The words behind the name of the program.
fn texts_of(alloc: Global, words: &[&str]) -> Result<Vec<Text>, AllocError> {
    let mut args = Vec::new(alloc);
    args.push(String::from_str(alloc, "symbench")?)?;
    for word in words {
        args.push(String::from_str(alloc, word)?)?;
    }
    words_of(alloc, args.into_iter())
}

/// Runs a command of these words over a shelf, all callers of a bench beside each other.
pub fn run_beside<R: Threads + Wait + Sync, F: Shelf>(
    rt: &R,
    alloc: Global,
    words: &[&str],
    shelf: &mut F,
) -> Result<Ending, AllocError> {
    let words = texts_of(alloc, words)?;
    let mut out = sink(alloc, WHOLE)?;
    let mut err = sink(alloc, WHOLE)?;
    let exit = answer(
        rt,
        alloc,
        words.as_slice(),
        shelf,
        &mut out,
        &mut err,
        &NoGate,
    );
    Ok(Ending { exit, out, err })
}

/// Runs a command of these words over a shelf.
pub fn run_over<F: Shelf>(
    alloc: Global,
    words: &[&str],
    shelf: &mut F,
    out: Sinking,
    err: Sinking,
) -> Result<Ending, AllocError> {
    let words = texts_of(alloc, words)?;
    let mut out = sink(alloc, out)?;
    let mut err = sink(alloc, err)?;
    let exit = answer_alone(alloc, words.as_slice(), shelf, &mut out, &mut err);
    Ok(Ending { exit, out, err })
}

/// Runs a command of these words over an empty shelf.
pub fn run(
    alloc: Global,
    words: &[&str],
    out: Sinking,
    err: Sinking,
) -> Result<Ending, AllocError> {
    let mut shelf = QuietShelf::new(Files::of(Vec::new(alloc)));
    run_over(alloc, words, &mut shelf, out, err)
}

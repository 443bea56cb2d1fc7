//! Writing a trace.

ghost use Rattle.std.specs.Prelude.{◌≡◌, ◌≤◌, ◌++◌, ◌∷◌, map, OnOk, IfOk};
ghost use Rattle.std.specs.Fmt.{decimal};
ghost use Rattle.trace_text.specs.Grammar.{step_text, hex_8, first_line, line_of, StepFits, IsLine, IsTrace};

use crate::numbers::hex;
use rig_types::{Entry, Line, Step};
use scsi_words::Bytes;
use std::alloc::{AllocError, Global};

/// Appends a number in decimal.
fn put_number(out: &mut Vec<u8>, n: u32) -> Result<(), AllocError>
    ensures { OnOk result (out.new.items ≡ out.old.items ++ decimal n) }
{
    let text = n.to_string(*out.allocator())?;
    out.extend_from_slice(text.as_bytes())
}

/// Appends a letter, a space and a number.
fn put_numbered(out: &mut Vec<u8>, kind: u8, n: u32) -> Result<(), AllocError>
    ensures { OnOk result (out.new.items ≡ out.old.items ++ kind ∷ 32 ∷ decimal n) }
{
    out.push(kind)?;
    out.push(b' ')?;
    put_number(out, n)
}

/// Appends the line of a Build, without its line feed.
fn put_build(out: &mut Vec<u8>, line: Line) -> Result<(), AllocError>
    ensures text { OnOk result (out.new.items ≡ out.old.items ++ step_text (Step.Build line) 0) }
    ensures fits { OnOk result (StepFits (Step.Build line)) }
{
    put_numbered(out, b'b', u32::from(line.submitter))?;
    out.push(b' ')?;
    put_number(out, line.number)
}

/// Appends the line of a Chip step, without its line feed.
fn put_chip(out: &mut Vec<u8>, word: u32) -> Result<(), AllocError>
    ensures { OnOk result (out.new.items ≡ out.old.items ++ step_text (Step.Chip word) 0) }
{
    out.extend_from_slice(b"c ")?;
    out.extend_from_slice(hex(word).as_slice())
}

/// Appends the line of an entry, without its line feed.
fn put_step(out: &mut Vec<u8>, entry: &Entry) -> Result<(), AllocError>
    ensures text { OnOk result (out.new.items ≡ out.old.items ++ step_text entry.now.step entry.now.caller) }
    ensures fits { OnOk result (IsLine (line_of entry.now)) }
{
    let _caller = entry.caller;
    match entry.step {
        Step::Build(line) => put_build(out, line)?,
        Step::Link(ticket) => put_numbered(out, b'l', ticket)?,
        Step::Queue(ticket) => put_numbered(out, b'q', ticket)?,
        Step::Signal => put_numbered(out, b's', entry.caller)?,
        Step::Chip(word) => put_chip(out, word)?,
        Step::Fix => out.push(b'f')?,
        Step::Sweep(ticket) => put_numbered(out, b'w', ticket)?,
        Step::Restart => out.push(b'r')?,
        Step::TakeDone => out.push(b'd')?,
        Step::Unlink(ticket) => put_numbered(out, b'u', ticket)?,
        Step::Free(ticket) => put_numbered(out, b'e', ticket)?,
        Step::Act(act) => put_numbered(out, b'a', act)?,
        Step::ResetBus => out.push(b'z')?,
        Step::Sense(ticket) => put_numbered(out, b'n', ticket)?,
    }
    Ok(())
}

/// Appends the first line.
fn put_first_line(out: &mut Vec<u8>, version: u8) -> Result<(), AllocError>
    ensures { OnOk result (out.new.items ≡ out.old.items ++ first_line version) }
{
    out.extend_from_slice(b"sym-trace ")?;
    put_number(out, u32::from(version))?;
    out.push(b'\n')?;
    Ok(())
}

/// The trace of a list of entries, for a rig of this version.
pub fn write(alloc: Global, entries: &[Entry], version: u8) -> Result<Bytes, AllocError>
    requires { (1 ≤ version) × (version ≤ 2) }
    // So `read` gives these lines.
    ensures { IfOk result (λ text. IsTrace version text (map line_of entries.now)) }
{
    let mut out = Vec::new(alloc);
    put_first_line(&mut out, version)?;
    for entry in entries {
        put_step(&mut out, entry)?;
        out.push(b'\n')?;
    }
    Ok(Bytes::of(out))
}

//! What is wrong with a file.
ghost use Rattle.std.specs.Prelude.{◌≡◌, IfOk, string_bytes};
ghost use Rattle.refusal_lines.specs.Lines.{fault_line, file_line, key_line, kind_word, line_at, source_line, trace_line, trace_step, unknown_step};

use rig_types::BadKind;
use scsi_words::Text;
use std::alloc::{AllocError, Global};

/// The first fault of a file. Lines of a file and steps of a trace are counted from 1.
#[derive(Debug, Drop)]
pub enum Fault {
    /// What is wrong at a key of a rig; the empty key is the whole file.
    Rig { key: Text, kind: BadKind },
    /// What is wrong at a key of a work; the empty key is the whole file.
    Work { key: Text, kind: BadKind },
    /// The fault of a source by its number, 1 to 6.
    Source { line: u32, fault: u8 },
    /// A line outside the grammar of a trace.
    TraceLine(u32),
    /// A step of a trace that is of no line and no act of the work.
    UnknownStep(u32),
    /// A step of a trace that its caller can't make then, or that isn't recorded.
    TraceStep(u32),
    /// The steps of a trace leave work undone.
    NotDrained,
}

/// The word for a kind of fault at a key.
fn kind_word(kind: BadKind) -> &'static str
    ensures { result.now ≡ kind_word kind }
{
    match kind {
        BadKind::NotToml => "nottoml",
        BadKind::Missing => "missing",
        BadKind::WrongType => "wrongtype",
        BadKind::OutOfRange => "range",
        BadKind::Clash => "clash",
        BadKind::Unknown => "unknown",
    }
}

/// The line of a fault at a key of a file of this sort. The empty key is left out.
#[tactic(auto, using(crate::proofs::KeyLines::no_key, crate::proofs::KeyLines::some_key))]
fn key_line(alloc: Global, file: &str, key: &Text, kind: BadKind) -> Result<String, AllocError>
    ensures { IfOk result (λ line. string_bytes line ≡ key_line file.now key.now kind) }
{
    let key = key.as_str();
    let word = kind_word(kind);
    if key.is_empty() {
        file_line(alloc, file, word)
    } else {
        line_at(alloc, file, key, word)
    }
}

fn file_line(alloc: Global, file: &str, word: &str) -> Result<String, AllocError>
    ensures { IfOk result (λ line. string_bytes line ≡ file_line file.now word.now) }
{
    let line = format!(in alloc; "bad {file} {word}\n")?;
    Ok(line)
}

fn line_at(alloc: Global, file: &str, key: &str, word: &str) -> Result<String, AllocError>
    ensures { IfOk result (λ line. string_bytes line ≡ line_at file.now key.now word.now) }
{
    let line = format!(in alloc; "bad {file} {key} {word}\n")?;
    Ok(line)
}

impl Fault {
    /// The line that the program prints of a fault, with its line feed. The one error is want of memory.
    pub(crate) fn line(&self, alloc: Global) -> Result<String, AllocError>
        ensures { IfOk result (λ line. string_bytes line ≡ fault_line self.now) }
    {
        match self {
            Fault::Rig { key, kind } => key_line(alloc, "rig", key, *kind),
            Fault::Work { key, kind } => key_line(alloc, "work", key, *kind),
            Fault::Source { line, fault } => source_line(alloc, *line, *fault),
            Fault::TraceLine(line) => trace_line(alloc, *line),
            Fault::UnknownStep(step) => unknown_step(alloc, *step),
            Fault::TraceStep(step) => trace_step(alloc, *step),
            Fault::NotDrained => String::from_str(alloc, "bad trace not drained\n"),
        }
    }
}

fn source_line(alloc: Global, line: u32, fault: u8) -> Result<String, AllocError>
    ensures { IfOk result (λ text. string_bytes text ≡ source_line line fault) }
{
    let text = format!(in alloc; "bad source line {line} fault {fault}\n")?;
    Ok(text)
}

fn trace_line(alloc: Global, line: u32) -> Result<String, AllocError>
    ensures { IfOk result (λ text. string_bytes text ≡ trace_line line) }
{
    let text = format!(in alloc; "bad trace line {line}\n")?;
    Ok(text)
}

fn unknown_step(alloc: Global, step: u32) -> Result<String, AllocError>
    ensures { IfOk result (λ text. string_bytes text ≡ unknown_step step) }
{
    let text = format!(in alloc; "bad trace step {step} unknown\n")?;
    Ok(text)
}

fn trace_step(alloc: Global, step: u32) -> Result<String, AllocError>
    ensures { IfOk result (λ text. string_bytes text ≡ trace_step step) }
{
    let text = format!(in alloc; "bad trace step {step}\n")?;
    Ok(text)
}

//! Assembling: a text to its image, or its first fault.
ghost use Rattle.std.specs.Prelude.{◌≡◌, ℕ, ◌+◌, ◌-◌, ◌<◌, ◌≤◌, length, map, IfOk, Err};
ghost use Rattle.scripts_forms.specs.Lines.{line_at};
ghost use Rattle.scripts_asm.specs.Image.{Assembles, Shows};
ghost use Rattle.scripts_asm.specs.Seen.{all_texts};

use crate::assembling::{AsmFault, Image};
use crate::faults::Kind;
use crate::judging::{Stop, judge};
use crate::lines::{lines_of, texts_of};
use crate::names::names_of;
use scsi_words::Text;
use std::alloc::{AllocError, Global};

/// The text of a line, from 1.
fn line_text<'a>(texts: &[&'a str], line: u32) -> &'a str
    requires { 0 < line }
    ensures { result.now ≡ line_at (all_texts texts.now) (line - 1) }
{
    let index = (line - 1) as usize;
    if index < texts.len() {
        texts[index]
    } else {
        ""
    }
}

fn fault_of(kind: Kind, line: u32, shown: Text) -> AsmFault
    ensures { Shows result kind line shown }
{
    match kind {
        Kind::BadToken => AsmFault::BadToken { line, shown },
        Kind::BadForm => AsmFault::BadForm { line, shown },
        Kind::UnknownLabel => AsmFault::UnknownLabel { line, shown },
        Kind::TwiceLabel => AsmFault::TwiceLabel { line, shown },
        Kind::TooWide => AsmFault::TooWide { line, shown },
        Kind::TooLong => AsmFault::TooLong { line, shown },
    }
}

/// The fault of a line, with the text of the line.
fn shown_fault(alloc: Global, texts: &[&str], line: u32, kind: Kind) -> Result<AsmFault, AllocError>
    requires { 0 < line }
    ensures { IfOk result (λ fault. Shows fault kind line (line_at (all_texts texts.now) (line - 1))) }
{
    let shown = String::from_str(alloc, line_text(texts, line))?;
    Ok(fault_of(kind, line, Text::of(shown)))
}

/// The image of a text of at most 4,294,967,294 bytes, or its first fault: of the first line with a fault, the
/// first in the order of a line's faults. Names may be used before the line that gives them.
#[tactic(auto, using(crate::proofs::LineLaws::few_lines))]
pub fn assemble(alloc: Global, text: &str) -> Result<Image, AsmFault>
    requires { length text.now < 4294967295 }
    ensures { Assembles text.now result }
{
    let split = texts_of(alloc, text)?;
    let texts = split.as_slice();
    let read = lines_of(alloc, texts)?;
    let lines = read.as_slice();
    let names = names_of(alloc, lines)?;
    match judge(alloc, &names, lines) {
        Ok(image) => Ok(image),
        Err(Stop::OutOfMemory) => Err(AsmFault::OutOfMemory),
        Err(Stop::Fault { line, kind }) => Err(shown_fault(alloc, texts, line, kind)?),
    }
}

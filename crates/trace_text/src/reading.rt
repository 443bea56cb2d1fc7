//! Reading a trace.

ghost use Rattle.std.specs.Prelude.{◌≡◌, ◌≢◌, ◌≤◌, ◌<◌, ◌^◌, ◌++◌, List, ℕ, ◌-◌, codes, length, option_map, IfOk, IfErr, MatchResult};
ghost use Rattle.std.specs.Fmt.{decimal};
ghost use Rattle.std.specs.Str.{bytes_eq};
ghost use Rattle.trace_text.specs.declared.types.TraceFault.TheVariants.{OutOfMemory};
ghost use Rattle.trace_text.specs.declared.types.TraceLine.{TraceLine as LineRecord};
ghost use Rattle.trace_text.specs.Grammar.{IsTrace, IsFaultOf};
ghost use Rattle.trace_text.specs.Reading.{next_in, after_first_line};

use crate::line::{line, split};
use crate::types::{TraceFault, TraceLine, TraceLines};
use std::alloc::Global;

/// The line at the front, and what follows its line feed.
fn next(bytes: &[u8]) -> Option<(TraceLine, &[u8])>
    ensures { option_map (λ p. (p.0, p.1.now)) result ≡ next_in bytes.now }
{
    let (text, rest) = split(bytes, b'\n')?;
    Some((line(text)?, rest))
}

/// Whether a text is the first line without its line feed.
fn is_first_line(text: &[u8], version: u8) -> bool
    requires { (1 ≤ version) × (version ≤ 2) }
    ensures { result ≡ bytes_eq text.now (codes "sym-trace " ++ decimal version) }
{
    if version == 2 {
        text == b"sym-trace 2".as_slice()
    } else {
        text == b"sym-trace 1".as_slice()
    }
}

/// What follows the first line.
fn skip_first_line(bytes: &[u8], version: u8) -> Option<&[u8]>
    requires { (1 ≤ version) × (version ≤ 2) }
    ensures { option_map (λ rest. rest.now) result ≡ after_first_line version bytes.now }
{
    let (first, rest) = split(bytes, b'\n')?;
    if is_first_line(first, version) {
        Some(rest)
    } else {
        None
    }
}

/// The lines of a trace of this version, or the first line outside its grammar.
///
/// Of a text that [`write`](crate::write) made of some entries it gives their steps in order, with the callers that the
/// lines of Build and Signal spell. The time is linear in the length of the text.
pub fn read(alloc: Global, bytes: &[u8], version: u8) -> Result<TraceLines, TraceFault>
    requires known { (1 ≤ version) × (version ≤ 2) }
    requires short { length bytes.now < 2 ^ 32 - 1 }
    // The lines that are read spell the text.
    ensures found { IfOk result (λ ls. IsTrace version bytes.now ls) }
    // Lines that spell the text are read, unless memory runs out.
    ensures only { (ls : List LineRecord) → IsTrace version bytes.now ls
        → MatchResult result (λ read. read ≡ ls) (λ e. e ≡ OutOfMemory) }
    // The line of a fault is the first outside the grammar.
    ensures fault { IfErr result (IsFaultOf version bytes.now) }
{
    let mut rest = match skip_first_line(bytes, version) {
        None => return Err(TraceFault::Line(1)),
        Some(rest) => rest,
    };
    let mut lines = Vec::new(alloc);
    while !rest.is_empty() {
        match next(rest) {
            None => return Err(TraceFault::Line(lines.len() as u32 + 2)),
            Some((line, after)) => {
                lines.push(line)?;
                rest = after;
            }
        }
    }
    Ok(TraceLines::of(lines))
}

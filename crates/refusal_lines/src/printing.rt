//! The line of a refusal, on standard error.
ghost use Rattle.std.specs.Prelude.{◌≡◌, IfSome, IsNone};
ghost use Rattle.refusal_lines.specs.Refusals.{line_of, Stands, TellsFault, Prints, Says};

use crate::refusal::Refusal;
use std::alloc::Global;
use sym_io::{Sink, write_all};

/// Prints the line of a refusal, and gives the refusal that is answered: want of memory in place of a file's fault whose
/// line can't be made. A sink that fails has the first bytes of the line, and changes nothing else.
pub fn say<E: Sink>(alloc: Global, refusal: Refusal, err: &mut E) -> Refusal
    ensures answered { Stands refusal result }
    ensures said { Says result (E.written err.old) (E.faults err.old) (E.written err.new) (E.faults err.new) }
{
    if let Some(line) = fixed_line(&refusal) {
        print_line(line, err);
        return refusal;
    }
    say_fault(alloc, refusal, err)
}

/// The line of a refusal that names no fault of a file, with its line feed.
fn fixed_line(refusal: &Refusal) -> Option<&'static str>
    ensures some { IfSome result (λ line. line.now ≡ line_of refusal.now) }
    ensures none { IsNone result → TellsFault refusal.now }
{
    match refusal {
        Refusal::Usage => Some("usage\n"),
        Refusal::Read => Some("read fault\n"),
        Refusal::Write => Some("write fault\n"),
        Refusal::OutOfMemory => Some("out of memory\n"),
        Refusal::Bad(_) => None,
        Refusal::StepLimit => Some("step limit\n"),
        Refusal::TooLong => Some("too long\n"),
    }
}

/// Prints a line as far as its sink takes it.
fn print_line<E: Sink>(line: &str, err: &mut E)
    ensures { Prints line.now (E.written err.old) (E.faults err.old) (E.written err.new) (E.faults err.new) }
{
    let _ = write_all(err, line.as_bytes());
}

/// Says a refusal that names a fault of a file.
fn say_fault<E: Sink>(alloc: Global, refusal: Refusal, err: &mut E) -> Refusal
    requires { TellsFault refusal }
    ensures answered { Stands refusal result }
    ensures said { Says result (E.written err.old) (E.faults err.old) (E.written err.new) (E.faults err.new) }
{
    if let Refusal::Bad(fault) = &refusal
        && let Ok(line) = fault.line(alloc)
    {
        print_line(line.as_str(), err);
        return refusal;
    }
    print_line("out of memory\n", err);
    Refusal::OutOfMemory
}

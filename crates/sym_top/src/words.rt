//! The words of the command line, as the system hands them over.
ghost use Rattle.std.specs.IoError.{error_kind};
ghost use Rattle.std.specs.Prelude.{◌≡◌, ◌≢◌, IfOk, drop, map, string_bytes};
ghost use Rattle.std.specs.Vec.Iter.{into_iter_items};
ghost use Rattle.refusal_lines.specs.Refusals.{Says};
ghost use Rattle.refusal_lines.specs.declared.refusal.Refusal.TheVariants.{OutOfMemory as NoMemory, Usage as NoCommand};

use refusal_lines::{Exit, Refusal, say};
use scsi_words::Text;
use std::alloc::{AllocError, Global};
use std::env::Args;
use std::io;
use std::io::ErrorKind;
use sym_io::Sink;

/// The words behind the program's own name.
pub fn words_of(alloc: Global, mut args: Args) -> Result<Vec<Text>, AllocError>
    ensures { IfOk result (λ words. words.items ≡ map string_bytes (drop 1 (into_iter_items args))) }
{
    let _ = args.next();
    let mut words = Vec::new(alloc);
    for word in args {
        words.push(Text::of(word))?;
    }
    Ok(words)
}

/// How the program ends where the words could not be had: `OutOfMemory` for want of memory, and else `Usage`, since a
/// word that is no text is no command. Its line goes to `err`.
pub fn refuse_words<E: Sink>(alloc: Global, error: &io::Error, err: &mut E) -> Exit
    ensures want { error_kind error.now ≡ ErrorKind.OutOfMemory → (result ≡ Exit.OutOfMemory) × Says NoMemory (E.written err.old) (E.faults err.old) (E.written err.new) (E.faults err.new) }
    ensures no_text { error_kind error.now ≢ ErrorKind.OutOfMemory → (result ≡ Exit.Usage) × Says NoCommand (E.written err.old) (E.faults err.old) (E.written err.new) (E.faults err.new) }
{
    if error.kind() == ErrorKind::OutOfMemory {
        return say(alloc, Refusal::OutOfMemory, err).exit();
    }
    say(alloc, Refusal::Usage, err).exit()
}

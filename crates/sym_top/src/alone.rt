//! The top call: the words of the command line to the status of the process.
ghost use Rattle.std.specs.Prelude.{◌≡◌, ◌≢◌, ◌<◌, ◌⊎◌, ◌↔◌, IsSome, Err};
ghost use Rattle.sym_io.specs.Causes.{Rose};
ghost use Rattle.refusal_lines.specs.Refusals.{Says};
ghost use Rattle.refusal_lines.specs.declared.refusal.Refusal.TheVariants.{Usage as NoCommand};
ghost use Rattle.run_files.specs.Shelves.{shelved};
ghost use Rattle.sym_top.specs.Asked.{asked};
ghost use Rattle.sym_top.specs.Calls.{ends, sunk, Runs, Ended};
ghost use Rattle.sym_top.specs.Causes.{EndsExactly, FirstIsLong, IsOnly, IsServed, NoRise};
ghost use Rattle.sym_top.specs.CommandLine.{Command as Asked, Spells};
ghost use Rattle.sym_top.specs.Jobs.{stored_by, IsTold, IsValid, Job as Planned, Makes, TouchesNoFile};

use crate::commands::{Command, command_of};
use crate::job::finish;
use crate::making::job_of;
use refusal_lines::{Exit, Refusal, say};
use scsi_words::Text;
use std::alloc::Global;
use sym_io::{Shelf, Sink};

/// Serves the command that the words spell: its files come from the shelf and go there, its text goes to `out`, and the
/// line of a refusal to `err`. It always returns.
///
/// `Usage` comes exactly where the words are no command with its count of words, or a number is out of range; then
/// nothing is touched but `err`. Of the others `ReadFault` comes only where the shelf's count of loads rose, and
/// `WriteFault` only where its count of stores did and the command stores a file, or where that of `out` did; where one
/// of these counts rose, its fault is the answer. `one` and `load` touch no file.
///
/// Files are loaded and read in the order of the words, and then the run is made; the first refusal counts. `BadRig`,
/// `BadWork`, `BadSource` and `BadTrace` come exactly where a file has a fault, `StepLimit` exactly where the list of steps
/// is at its limit and not drained, and `TooLong` exactly where a trace is longer than 67,108,864 bytes, or another file
/// than 4,194,304; want of memory may come in their place, but not before the first file was loaded. Where the shelf tells
/// the files, they are valid and no count rose, the answer is `Ok`, `StepLimit` or want of memory.
///
/// After `WriteFault` a prefix of the text is on `out`; with every other status but `Ok` nothing is, and the shelf's
/// files are as before. A failing `err` changes nothing.
pub fn answer_alone<F: Shelf, O: Sink, E: Sink>(
    alloc: Global,
    words: &[Text],
    shelf: &mut F,
    out: &mut O,
    err: &mut E,
) -> Exit
    ensures usage { (result ≡ Exit.Usage) ↔ ((c : Asked) → Spells words.now c → ⊥) }
    ensures unasked { result ≡ Exit.Usage → (shelf.new ≡ shelf.old) × (out.new ≡ out.old) }
    ensures unasked_line { result ≡ Exit.Usage → Says NoCommand (E.written err.old) (E.faults err.old) (E.written err.new) (E.faults err.new) }
    ensures no_file { (c : Asked) → Spells words.now c → TouchesNoFile c → (result ≢ Exit.ReadFault) × (shelf.new ≡ shelf.old) }
    ensures read_fault { result ≡ Exit.ReadFault → Rose (F.load_faults shelf.old) (F.load_faults shelf.new) }
    ensures write_fault { (c : Asked) → Spells words.now c → result ≡ Exit.WriteFault
        → (IsSome (stored_by c) × Rose (F.store_faults shelf.old) (F.store_faults shelf.new)) ⊎ Rose (O.faults out.old) (O.faults out.new) }
    ensures load_shows { F.load_faults shelf.old < F.load_faults shelf.new → result ≡ Exit.ReadFault }
    ensures store_shows { F.store_faults shelf.old < F.store_faults shelf.new → result ≡ Exit.WriteFault }
    ensures write_shows { O.faults out.old < O.faults out.new → result ≡ Exit.WriteFault }
    ensures bad_rig { (c : Asked) → Spells words.now c → EndsExactly c (F.files shelf.old) (F.load_faults shelf.old) (F.load_faults shelf.new) result Exit.BadRig }
    ensures bad_work { (c : Asked) → Spells words.now c → EndsExactly c (F.files shelf.old) (F.load_faults shelf.old) (F.load_faults shelf.new) result Exit.BadWork }
    ensures bad_source { (c : Asked) → Spells words.now c → EndsExactly c (F.files shelf.old) (F.load_faults shelf.old) (F.load_faults shelf.new) result Exit.BadSource }
    ensures bad_trace { (c : Asked) → Spells words.now c → EndsExactly c (F.files shelf.old) (F.load_faults shelf.old) (F.load_faults shelf.new) result Exit.BadTrace }
    ensures step_limit { (c : Asked) → Spells words.now c → EndsExactly c (F.files shelf.old) (F.load_faults shelf.old) (F.load_faults shelf.new) result Exit.StepLimit }
    ensures too_long { (c : Asked) → Spells words.now c → EndsExactly c (F.files shelf.old) (F.load_faults shelf.old) (F.load_faults shelf.new) result Exit.TooLong }
    ensures first_long { (c : Asked) → Spells words.now c → FirstIsLong c (F.files shelf.old) (F.load_faults shelf.old) (F.load_faults shelf.new) result }
    ensures complete { (c : Asked) → Spells words.now c → IsValid c (F.files shelf.old) → IsTold c (F.files shelf.old) → NoRise (F.load_faults shelf.old) (F.load_faults shelf.new)
        → NoRise (F.store_faults shelf.old) (F.store_faults shelf.new) → NoRise (O.faults out.old) (O.faults out.new) → IsServed c result }
    ensures done { (c : Asked) (job : Planned) → Spells words.now c → Makes c (F.files shelf.old) job → IsTold c (F.files shelf.old) → NoRise (F.load_faults shelf.old) (F.load_faults shelf.new)
        → NoRise (F.store_faults shelf.old) (F.store_faults shelf.new) → NoRise (O.faults out.old) (O.faults out.new) → IsOnly result Exit.Ok }
    ensures answer { (c : Asked) → Spells words.now c
        → Ended c (ends (shelved (F.files shelf.old) (F.load_faults shelf.old) (F.store_faults shelf.old)) (shelved (F.files shelf.new) (F.load_faults shelf.new) (F.store_faults shelf.new))
        (sunk (O.written out.old) (O.faults out.old)) (sunk (O.written out.new) (O.faults out.new)))
        (E.written err.old) (E.faults err.old) (E.written err.new) (E.faults err.new) result }
{
    match command_of(words) {
        Some(command) => serve(alloc, command, shelf, out, err),
        None => say(alloc, Refusal::Usage, err).exit(),
    }
}

/// Runs a command, and says its refusal on `err`.
fn serve<F: Shelf, O: Sink, E: Sink>(
    alloc: Global,
    command: Command<'_>,
    shelf: &mut F,
    out: &mut O,
    err: &mut E,
) -> Exit
    ensures no_file { TouchesNoFile (asked command.entry) → shelf.new ≡ shelf.old }
    ensures answer { Ended (asked command.entry) (ends (shelved (F.files shelf.old) (F.load_faults shelf.old) (F.store_faults shelf.old)) (shelved (F.files shelf.new) (F.load_faults shelf.new) (F.store_faults shelf.new))
        (sunk (O.written out.old) (O.faults out.old)) (sunk (O.written out.new) (O.faults out.new)))
        (E.written err.old) (E.faults err.old) (E.written err.new) (E.faults err.new) result }
{
    match run(alloc, command, shelf, out) {
        Ok(()) => Exit::Ok,
        Err(refusal) => say(alloc, refusal, err).exit(),
    }
}

/// Makes the command's job of its files, and then finishes it.
fn run<F: Shelf, O: Sink>(
    alloc: Global,
    command: Command<'_>,
    shelf: &mut F,
    out: &mut O,
) -> Result<(), Refusal>
    ensures no_file { TouchesNoFile (asked command.entry) → shelf.new ≡ shelf.old }
    ensures runs { Runs (asked command.entry) (ends (shelved (F.files shelf.old) (F.load_faults shelf.old) (F.store_faults shelf.old)) (shelved (F.files shelf.new) (F.load_faults shelf.new) (F.store_faults shelf.new))
        (sunk (O.written out.old) (O.faults out.old)) (sunk (O.written out.new) (O.faults out.new))) result }
{
    let job = job_of(alloc, command, shelf)?;
    finish(&job, shelf, out)
}

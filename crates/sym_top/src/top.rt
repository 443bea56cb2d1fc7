//! The top call: the words of the command line to the status of the process, the command `run` among them.
ghost use Rattle.std.specs.Prelude.{◌≡◌, ◌≢◌, ◌<◌, ◌⊎◌, ◌↔◌, IsSome, Err};
ghost use Rattle.sym_io.specs.Causes.{Rose};
ghost use Rattle.refusal_lines.specs.Refusals.{Says};
ghost use Rattle.refusal_lines.specs.declared.refusal.Refusal.TheVariants.{Usage as NoCommand};
ghost use Rattle.run_files.specs.Shelves.{shelved};
ghost use Rattle.sym_top.specs.Calls.{ends, sunk, Ended};
ghost use Rattle.sym_top.specs.Causes.{EndsExactly, FirstIsLong, IsOnly, IsServed, NoRise};
ghost use Rattle.sym_top.specs.CommandLine.{Command as Asked, Spells};
ghost use Rattle.sym_top.specs.Jobs.{stored_by, IsTold, IsValid, Job as Planned, Makes, TouchesNoFile};
ghost use Rattle.sym_top.specs.RunAsked.{run_asked};
ghost use Rattle.sym_top.specs.RunCalls.{RanDrained, RanFull, RigIsLong, RunEnded, RunEndsExactly, RunRuns};
ghost use Rattle.sym_top.specs.Running.{IsValidRun, RunWords, SpellsRun};

use crate::alone::answer_alone;
use crate::pool_job::{finish_run, pool_texts};
use crate::run_command::{RunCommand, run_of};
use bench_pool::Gate;
use refusal_lines::{Exit, Refusal, say};
use scsi_words::Text;
use std::alloc::Global;
use std::sync::Wait;
use std::thread::Threads;
use sym_io::{Shelf, Sink};

/// Serves the command that the words spell, as [`answer_alone`] does, and the command `run` too: all callers of a bench make
/// its steps beside each other, and pass `gate` between two of them. A run waits for its threads, so the call promises no
/// return.
///
/// With `Ok`, `run` has stored the trace of one lawful list that leaves the bench drained, and printed that list's report
/// text. With `StepLimit` it has stored the trace of one lawful list at the limit of steps, and printed nothing; where that
/// store fails, the answer is `WriteFault`. Which list it is depends on how the threads take turns. `BadRig`, `BadWork` and
/// `TooLong` come exactly where its rig or its work is refused so, or want of memory in their place. After every other
/// refusal but `WriteFault` the files are as before.
pub fn answer<R: Threads + Wait + Sync, F: Shelf, O: Sink, E: Sink, G: Gate + Sync>(
    rt: &R,
    alloc: Global,
    words: &[Text],
    shelf: &mut F,
    out: &mut O,
    err: &mut E,
    gate: &G,
) -> Exit
    ensures usage { (result ≡ Exit.Usage) ↔ (((c : Asked) → Spells words.now c → ⊥) × ((a : RunWords) → SpellsRun words.now a → ⊥)) }
    ensures unasked { result ≡ Exit.Usage → (shelf.new ≡ shelf.old) × (out.new ≡ out.old) }
    ensures unasked_line { result ≡ Exit.Usage → Says NoCommand (E.written err.old) (E.faults err.old) (E.written err.new) (E.faults err.new) }
    ensures no_file { (c : Asked) → Spells words.now c → TouchesNoFile c → (result ≢ Exit.ReadFault) × (shelf.new ≡ shelf.old) }
    ensures read_fault { result ≡ Exit.ReadFault → Rose (F.load_faults shelf.old) (F.load_faults shelf.new) }
    ensures write_fault { (c : Asked) → Spells words.now c → result ≡ Exit.WriteFault
        → (IsSome (stored_by c) × Rose (F.store_faults shelf.old) (F.store_faults shelf.new)) ⊎ Rose (O.faults out.old) (O.faults out.new) }
    ensures load_shows { F.load_faults shelf.old < F.load_faults shelf.new → result ≡ Exit.ReadFault }
    ensures store_shows { F.store_faults shelf.old < F.store_faults shelf.new → result ≡ Exit.WriteFault }
    ensures write_shows { O.faults out.old < O.faults out.new → result ≡ Exit.WriteFault }
    ensures bad_rig { (c : Asked) → Spells words.now c → EndsExactly c (F.files shelf.old) (F.load_faults shelf.old) (F.load_faults shelf.new) result Exit.BadRig }
    ensures bad_work { (c : Asked) → Spells words.now c → EndsExactly c (F.files shelf.old) (F.load_faults shelf.old) (F.load_faults shelf.new) result Exit.BadWork }
    ensures bad_source { (c : Asked) → Spells words.now c → EndsExactly c (F.files shelf.old) (F.load_faults shelf.old) (F.load_faults shelf.new) result Exit.BadSource }
    ensures bad_trace { (c : Asked) → Spells words.now c → EndsExactly c (F.files shelf.old) (F.load_faults shelf.old) (F.load_faults shelf.new) result Exit.BadTrace }
    ensures step_limit { (c : Asked) → Spells words.now c → EndsExactly c (F.files shelf.old) (F.load_faults shelf.old) (F.load_faults shelf.new) result Exit.StepLimit }
    ensures too_long { (c : Asked) → Spells words.now c → EndsExactly c (F.files shelf.old) (F.load_faults shelf.old) (F.load_faults shelf.new) result Exit.TooLong }
    ensures first_long { (c : Asked) → Spells words.now c → FirstIsLong c (F.files shelf.old) (F.load_faults shelf.old) (F.load_faults shelf.new) result }
    ensures complete { (c : Asked) → Spells words.now c → IsValid c (F.files shelf.old) → IsTold c (F.files shelf.old) → NoRise (F.load_faults shelf.old) (F.load_faults shelf.new)
        → NoRise (F.store_faults shelf.old) (F.store_faults shelf.new) → NoRise (O.faults out.old) (O.faults out.new) → IsServed c result }
    ensures done { (c : Asked) (job : Planned) → Spells words.now c → Makes c (F.files shelf.old) job → IsTold c (F.files shelf.old) → NoRise (F.load_faults shelf.old) (F.load_faults shelf.new)
        → NoRise (F.store_faults shelf.old) (F.store_faults shelf.new) → NoRise (O.faults out.old) (O.faults out.new) → IsOnly result Exit.Ok }
    ensures answer { (c : Asked) → Spells words.now c
        → Ended c (ends (shelved (F.files shelf.old) (F.load_faults shelf.old) (F.store_faults shelf.old)) (shelved (F.files shelf.new) (F.load_faults shelf.new) (F.store_faults shelf.new))
        (sunk (O.written out.old) (O.faults out.old)) (sunk (O.written out.new) (O.faults out.new)))
        (E.written err.old) (E.faults err.old) (E.written err.new) (E.faults err.new) result }
    ensures run { (a : RunWords) → SpellsRun words.now a
        → RunEnded a (ends (shelved (F.files shelf.old) (F.load_faults shelf.old) (F.store_faults shelf.old)) (shelved (F.files shelf.new) (F.load_faults shelf.new) (F.store_faults shelf.new))
        (sunk (O.written out.old) (O.faults out.old)) (sunk (O.written out.new) (O.faults out.new)))
        (E.written err.old) (E.faults err.old) (E.written err.new) (E.faults err.new) result }
    ensures run_drained { (a : RunWords) → SpellsRun words.now a → result ≡ Exit.Ok
        → RanDrained a (ends (shelved (F.files shelf.old) (F.load_faults shelf.old) (F.store_faults shelf.old)) (shelved (F.files shelf.new) (F.load_faults shelf.new) (F.store_faults shelf.new))
        (sunk (O.written out.old) (O.faults out.old)) (sunk (O.written out.new) (O.faults out.new))) }
    ensures run_full { (a : RunWords) → SpellsRun words.now a → result ≡ Exit.StepLimit
        → RanFull a (ends (shelved (F.files shelf.old) (F.load_faults shelf.old) (F.store_faults shelf.old)) (shelved (F.files shelf.new) (F.load_faults shelf.new) (F.store_faults shelf.new))
        (sunk (O.written out.old) (O.faults out.old)) (sunk (O.written out.new) (O.faults out.new))) }
    ensures run_write_fault { (a : RunWords) → SpellsRun words.now a → result ≡ Exit.WriteFault
        → Rose (F.store_faults shelf.old) (F.store_faults shelf.new) ⊎ Rose (O.faults out.old) (O.faults out.new) }
    ensures run_bad_rig { (a : RunWords) → SpellsRun words.now a → RunEndsExactly a (F.files shelf.old) (F.load_faults shelf.old) (F.load_faults shelf.new) result Exit.BadRig }
    ensures run_bad_work { (a : RunWords) → SpellsRun words.now a → RunEndsExactly a (F.files shelf.old) (F.load_faults shelf.old) (F.load_faults shelf.new) result Exit.BadWork }
    ensures run_too_long { (a : RunWords) → SpellsRun words.now a → RunEndsExactly a (F.files shelf.old) (F.load_faults shelf.old) (F.load_faults shelf.new) result Exit.TooLong }
    ensures run_long_rig { (a : RunWords) → SpellsRun words.now a → RigIsLong a (F.files shelf.old) (F.load_faults shelf.old) (F.load_faults shelf.new) result }
    ensures run_other { (a : RunWords) → SpellsRun words.now a → (result ≢ Exit.BadSource) × (result ≢ Exit.BadTrace) }
    ensures run_complete { (a : RunWords) → SpellsRun words.now a → IsValidRun a (F.files shelf.old) → IsSome (F.files shelf.old) → NoRise (F.load_faults shelf.old) (F.load_faults shelf.new)
        → NoRise (F.store_faults shelf.old) (F.store_faults shelf.new) → NoRise (O.faults out.old) (O.faults out.new) → IsOnly result Exit.Ok ⊎ (result ≡ Exit.StepLimit) }
{
    match run_of(words) {
        Some(command) => serve_run(rt, alloc, command, shelf, out, err, gate),
        None => answer_alone(alloc, words, shelf, out, err),
    }
}

/// Runs the command `run`, and says its refusal on `err`.
fn serve_run<R: Threads + Wait + Sync, F: Shelf, O: Sink, E: Sink, G: Gate + Sync>(
    rt: &R,
    alloc: Global,
    command: RunCommand<'_>,
    shelf: &mut F,
    out: &mut O,
    err: &mut E,
    gate: &G,
) -> Exit
    ensures { RunEnded (run_asked command.entry) (ends (shelved (F.files shelf.old) (F.load_faults shelf.old) (F.store_faults shelf.old)) (shelved (F.files shelf.new) (F.load_faults shelf.new) (F.store_faults shelf.new))
        (sunk (O.written out.old) (O.faults out.old)) (sunk (O.written out.new) (O.faults out.new)))
        (E.written err.old) (E.faults err.old) (E.written err.new) (E.faults err.new) result }
{
    match run_command(rt, alloc, command, shelf, out, gate) {
        Ok(()) => Exit::Ok,
        Err(refusal) => say(alloc, refusal, err).exit(),
    }
}

/// Makes the run of the command's files, and then finishes it.
fn run_command<R: Threads + Wait + Sync, F: Shelf, O: Sink, G: Gate + Sync>(
    rt: &R,
    alloc: Global,
    command: RunCommand<'_>,
    shelf: &mut F,
    out: &mut O,
    gate: &G,
) -> Result<(), Refusal>
    ensures { RunRuns (run_asked command.entry) (ends (shelved (F.files shelf.old) (F.load_faults shelf.old) (F.store_faults shelf.old)) (shelved (F.files shelf.new) (F.load_faults shelf.new) (F.store_faults shelf.new))
        (sunk (O.written out.old) (O.faults out.old)) (sunk (O.written out.new) (O.faults out.new))) result }
{
    let texts = pool_texts(rt, alloc, command, shelf, gate)?;
    finish_run(command.trace, texts, shelf, out)
}

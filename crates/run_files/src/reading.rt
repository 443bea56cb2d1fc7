//! A file, as the rig, the work or the trace that it spells.
ghost use Rattle.std.specs.Prelude.{◌≡◌, ◌≤◌, length, MatchResult};
ghost use Rattle.run_files.specs.Shelves.{shelved};
ghost use Rattle.run_files.specs.Loading.{LoadsRig, LoadsTrace, LoadsWork};
ghost use Rattle.run_files.specs.Reading.{RefusesRig, RefusesTrace, RefusesWork, SpellsRig, SpellsWork};
ghost use Rattle.trace_text.specs.Grammar.{IsTrace};

use crate::loading::{FILE_LIMIT, TRACE_LIMIT, load};
use refusal_lines::{Fault, Refusal};
use rig_reader::read_rig;
use rig_types::{ReadFault, Rig, Work};
use std::alloc::Global;
use sym_io::Shelf;
use trace_text::{TraceFault, TraceLines, read};
use work_reader::read_work;

/// Loads a rig, and reads it. Beside the refusals of a load, the first fault of the file.
pub fn load_rig<F: Shelf>(alloc: Global, name: &str, shelf: &mut F) -> Result<Rig, Refusal>
    ensures { LoadsRig name.now (shelved (F.files shelf.old) (F.load_faults shelf.old) (F.store_faults shelf.old)) (shelved (F.files shelf.new) (F.load_faults shelf.new) (F.store_faults shelf.new)) result }
{
    let bytes = load(name, FILE_LIMIT, shelf)?;
    rig_in(alloc, bytes.as_slice())
}

fn rig_in(alloc: Global, bytes: &[u8]) -> Result<Rig, Refusal>
    ensures { MatchResult result (SpellsRig bytes.now) (RefusesRig bytes.now) }
{
    match read_rig(alloc, bytes) {
        Ok(rig) => Ok(rig),
        Err(ReadFault::Bad { key, kind }) => Err(Refusal::Bad(Fault::Rig { key, kind })),
        Err(ReadFault::OutOfMemory) => Err(Refusal::OutOfMemory),
    }
}

/// Loads the work of a rig, and reads it. Beside the refusals of a load, the first fault of the file.
pub fn load_work<F: Shelf>(
    alloc: Global,
    name: &str,
    rig: &Rig,
    shelf: &mut F,
) -> Result<Work, Refusal>
    ensures { LoadsWork name.now (shelved (F.files shelf.old) (F.load_faults shelf.old) (F.store_faults shelf.old)) (shelved (F.files shelf.new) (F.load_faults shelf.new) (F.store_faults shelf.new)) result }
{
    let bytes = load(name, FILE_LIMIT, shelf)?;
    work_in(alloc, bytes.as_slice(), rig)
}

fn work_in(alloc: Global, bytes: &[u8], rig: &Rig) -> Result<Work, Refusal>
    ensures { MatchResult result (SpellsWork bytes.now) (RefusesWork bytes.now) }
{
    match read_work(alloc, bytes, rig) {
        Ok(work) => Ok(work),
        Err(ReadFault::Bad { key, kind }) => Err(Refusal::Bad(Fault::Work { key, kind })),
        Err(ReadFault::OutOfMemory) => Err(Refusal::OutOfMemory),
    }
}

/// Loads a trace in the version of a rig, and reads it. Beside the refusals of a load, the first line outside the grammar.
pub fn load_trace<F: Shelf>(
    alloc: Global,
    name: &str,
    rig: &Rig,
    shelf: &mut F,
) -> Result<TraceLines, Refusal>
    ensures { LoadsTrace rig.now.version name.now (shelved (F.files shelf.old) (F.load_faults shelf.old) (F.store_faults shelf.old)) (shelved (F.files shelf.new) (F.load_faults shelf.new) (F.store_faults shelf.new)) result }
{
    let bytes = load(name, TRACE_LIMIT, shelf)?;
    trace_in(alloc, bytes.as_slice(), rig)
}

fn trace_in(alloc: Global, bytes: &[u8], rig: &Rig) -> Result<TraceLines, Refusal>
    requires { length bytes.now ≤ 67108864 }
    ensures { MatchResult result (IsTrace rig.now.version bytes.now) (RefusesTrace rig.now.version bytes.now) }
{
    match read(alloc, bytes, rig.version) {
        Ok(lines) => Ok(lines),
        Err(TraceFault::Line(line)) => Err(Refusal::Bad(Fault::TraceLine(line))),
        Err(TraceFault::OutOfMemory) => Err(Refusal::OutOfMemory),
    }
}

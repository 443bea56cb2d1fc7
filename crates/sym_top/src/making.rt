//! What each command makes of its files.
ghost use Rattle.std.specs.Prelude.{◌≡◌, ◌≤◌, ℕ, length, IfOk};
ghost use Rattle.run_files.specs.Shelves.{shelved};
ghost use Rattle.sym_top.specs.Asked.{asked};
ghost use Rattle.sym_top.specs.CommandLine.{asm as Assembling, list as Listing};
ghost use Rattle.sym_top.specs.Jobs.{AssemblyYields, LoadYields, OneYields, TouchesNoFile};
ghost use Rattle.sym_top.specs.Making.{Blames, BlamesLoad, IsImageJob, Prepares};

use crate::commands::Command;
use crate::job::{Job, Output};
use crate::one::one;
use crate::running::{load_job, replay_job, step_job};
use refusal_lines::{Fault, Refusal};
use run_files::{FILE_LIMIT, load};
use scripts_asm::{AsmFault, Image};
use source_files::{assemble_source, image_bytes, list_file, words_line};
use std::alloc::{AllocError, Global};
use sym_io::Shelf;

/// The refusal of a source with this fault.
fn refusal_of(fault: &AsmFault) -> Refusal
    ensures { Blames fault.now result }
{
    match (fault.line(), fault.number()) {
        (Some(line), Some(fault)) => Refusal::Bad(Fault::Source { line, fault }),
        _ => Refusal::OutOfMemory,
    }
}

/// The job of `asm` with this image.
fn image_job<'a>(alloc: Global, image: &Image, name: &'a str) -> Result<Job<'a>, AllocError>
    ensures { IfOk result (λ job. IsImageJob image.now name.now job) }
{
    let words = image.words.as_slice();
    let text = words_line(alloc, words.len())?;
    let bytes = image_bytes(alloc, words)?;
    Ok(Job {
        text,
        output: Some(Output { name, bytes }),
    })
}

/// What `asm` makes of the bytes of its source.
fn assembly<'a>(alloc: Global, source: &[u8], name: &'a str) -> Result<Job<'a>, Refusal>
    requires { length source.now ≤ 4194304 }
    ensures { AssemblyYields source.now name.now result }
{
    match assemble_source(alloc, source) {
        Ok(image) => Ok(image_job(alloc, &image, name)?),
        Err(fault) => Err(refusal_of(&fault)),
    }
}

/// Loads the source of `asm`, and assembles it.
fn assemble_file<'a, F: Shelf>(
    alloc: Global,
    file: &str,
    out: &'a str,
    shelf: &mut F,
) -> Result<Job<'a>, Refusal>
    ensures { Prepares (Assembling file.now out.now) (shelved (F.files shelf.old) (F.load_faults shelf.old) (F.store_faults shelf.old)) (shelved (F.files shelf.new) (F.load_faults shelf.new) (F.store_faults shelf.new)) result }
{
    let source = load(file, FILE_LIMIT, shelf)?;
    assembly(alloc, source.as_slice(), out)
}

/// Loads the image of `list`, and lists it.
fn list_image<'a, F: Shelf>(alloc: Global, file: &str, shelf: &mut F) -> Result<Job<'a>, Refusal>
    ensures { Prepares (Listing file.now) (shelved (F.files shelf.old) (F.load_faults shelf.old) (F.store_faults shelf.old)) (shelved (F.files shelf.new) (F.load_faults shelf.new) (F.store_faults shelf.new)) result }
{
    let image = load(file, FILE_LIMIT, shelf)?;
    let text = list_file(alloc, image.as_slice())?;
    Ok(Job { text, output: None })
}

/// The job of `one`.
fn one_job<'a>(alloc: Global, lba: u32) -> Result<Job<'a>, Refusal>
    ensures { OneYields lba result }
{
    let text = one(alloc, lba)?;
    Ok(Job { text, output: None })
}

/// The job of a command: what is to be stored and printed. No file changes.
pub fn job_of<'a, F: Shelf>(
    alloc: Global,
    command: Command<'a>,
    shelf: &mut F,
) -> Result<Job<'a>, Refusal>
    ensures no_file { TouchesNoFile (asked command.entry) → shelf.new ≡ shelf.old }
    ensures blames { BlamesLoad (asked command.entry) result }
    ensures prepares { Prepares (asked command.entry) (shelved (F.files shelf.old) (F.load_faults shelf.old) (F.store_faults shelf.old)) (shelved (F.files shelf.new) (F.load_faults shelf.new) (F.store_faults shelf.new)) result }
{
    match command {
        Command::One { lba } => one_job(alloc, lba),
        Command::Asm { file, out } => assemble_file(alloc, file, out, shelf),
        Command::List { file } => list_image(alloc, file, shelf),
        Command::Step {
            rig,
            work,
            seed,
            trace,
        } => step_job(alloc, rig, work, seed, trace, shelf),
        Command::Replay { rig, work, trace } => replay_job(alloc, rig, work, trace, shelf),
        Command::Load { numbers } => load_job(alloc, numbers),
    }
}

//! What a command has made of its files: the text to be printed, and the file to be stored before it.
ghost use Rattle.std.specs.Option.{option_map};
ghost use Rattle.std.specs.Prelude.{◌≡◌, ◌≤◌, ℕ, IsNone};
ghost use Rattle.sym_io.specs.ByName.{with_file};
ghost use Rattle.run_files.specs.Shelves.{shelved};
ghost use Rattle.sym_top.specs.Calls.{Finishes, ends, sunk, Stores};
ghost use Rattle.sym_top.specs.Jobs.{Job as Planned, Output as File};

use refusal_lines::Refusal;
use scsi_words::Bytes;
use std::marker::Model;
use sym_io::{Shelf, ShelfFault, Sink, write_all};

/// A file to be stored.
#[derive(Drop)]
pub struct Output<'a> {
    pub name: &'a str,
    pub bytes: Bytes,
}

impl<'a> Model for Output<'a> {
    ghost use Rattle.sym_top.specs.Jobs.{Output};

    ghost Value = { Output };

    ghost view = { λ o. record { name = o.name.now; bytes = o.bytes } };
}

/// The text to be printed, and the file to be stored before it, where there is one.
#[derive(Drop)]
pub struct Job<'a> {
    pub text: Bytes,
    pub output: Option<Output<'a>>,
}

impl<'a> Model for Job<'a> {
    ghost use Rattle.sym_top.specs.Jobs.{Job};

    ghost Value = { Job };

    ghost view = { λ j. record { text = j.text; output = j.output } };
}

/// Stores the job's file, and then prints its text.
pub fn finish<F: Shelf, O: Sink>(job: &Job<'_>, shelf: &mut F, out: &mut O) -> Result<(), Refusal>
    ensures no_file { IsNone job.now.output → shelf.new ≡ shelf.old }
    ensures finishes { Finishes job.now (ends (shelved (F.files shelf.old) (F.load_faults shelf.old) (F.store_faults shelf.old)) (shelved (F.files shelf.new) (F.load_faults shelf.new) (F.store_faults shelf.new))
        (sunk (O.written out.old) (O.faults out.old)) (sunk (O.written out.new) (O.faults out.new))) result }
{
    if let Some(output) = &job.output {
        store(output, shelf)?;
    }
    match write_all(out, job.text.as_slice()) {
        Ok(()) => Ok(()),
        Err(_) => Err(Refusal::Write),
    }
}

pub(crate) fn store<F: Shelf>(output: &Output<'_>, shelf: &mut F) -> Result<(), Refusal>
    ensures { Stores output.now (shelved (F.files shelf.old) (F.load_faults shelf.old) (F.store_faults shelf.old)) (shelved (F.files shelf.new) (F.load_faults shelf.new) (F.store_faults shelf.new)) result }
{
    match shelf.store(output.name, output.bytes.as_slice()) {
        Ok(()) => Ok(()),
        Err(ShelfFault::Failed) => Err(Refusal::Write),
        Err(ShelfFault::OutOfMemory) => Err(Refusal::OutOfMemory),
        Err(ShelfFault::TooLong) => unreachable!(),
    }
}

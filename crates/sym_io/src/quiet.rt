//! A sink and a shelf that never fail.

ghost use Rattle.std.specs.Io.{WritesAtMost};
ghost use Rattle.std.specs.Option.{option_map};
ghost use Rattle.std.specs.Prelude.{◌≡◌, ◌≢◌, ◌<◌, ◌≤◌, Err, IfOk, None, Ok, OnErr, OnOk, Some, length};
ghost use Rattle.sym_io.specs.ByName.{by_name, whole_file, with_file};
ghost use Rattle.sym_io.specs.declared.shelf.ShelfFault.TheVariants.{Failed, TooLong};

use crate::files::{Files, copy_within};
use crate::shelf::{Shelf, ShelfFault};
use crate::sink;
use crate::sink::Sink;
use scsi_words::Bytes;
use std::marker::Model;

/// A sink that takes every piece whole, never fails, and tells no bytes.
#[derive(Debug, Drop)]
pub struct QuietSink {}

impl QuietSink {
    /// The sink.
    pub fn new() -> QuietSink {
        QuietSink {}
    }
}

impl Sink for QuietSink {
    ghost written = { λ _. None };

    ghost faults = { λ _. 0 };

    fn write(&mut self, piece: &[u8]) -> Result<usize, sink::Failed>
        ensures { result ≡ Ok (length piece.now) }
    {
        Ok(piece.len())
    }
}

/// A shelf in memory that never fails. It loads a name that it doesn't hold as an empty file.
#[derive(Drop)]
pub struct QuietShelf {
    files: Files,
}

impl Model for QuietShelf {
    ghost use Rattle.std.specs.Prelude.{List};
    ghost use Rattle.sym_io.specs.declared.files.File.{File};

    ghost Value = { List File };

    ghost view = { λ s. s.files };
}

impl QuietShelf {
    /// A shelf with these files, of which the first of a name counts.
    pub fn new(files: Files) -> QuietShelf
        ensures { result ≡ files }
    {
        QuietShelf { files }
    }

    /// A file, and `None` exactly where the name isn't held.
    pub fn file(&self, name: &str) -> Option<&Bytes>
        ensures { option_map (λ bytes. bytes.now) result ≡ by_name self.now name.now }
    {
        self.files.file(name)
    }
}

impl Shelf for QuietShelf {
    ghost files = { λ s. Some (by_name s) };

    ghost load_faults = { λ _. 0 };

    ghost store_faults = { λ _. 0 };

    fn load(&mut self, name: &str, limit: u32) -> Result<Bytes, ShelfFault> {
        match self.files.file(name) {
            Some(bytes) => copy_within(self.files.alloc(), bytes.as_slice(), limit),
            None => Ok(Bytes::of(Vec::new(self.files.alloc()))),
        }
    }

    fn store(&mut self, name: &str, bytes: &[u8]) -> Result<(), ShelfFault> {
        match self.files.put(name, bytes) {
            Ok(()) => Ok(()),
            Err(_) => Err(ShelfFault::OutOfMemory),
        }
    }
}

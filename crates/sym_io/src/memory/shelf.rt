//! The shelf in memory.

ghost use Rattle.std.specs.Option.{option_map};
ghost use Rattle.std.specs.Prelude.{◌≡◌, ◌≢◌, ◌<◌, ◌≤◌, ◌↔◌, IfOk, IfSome, IsTrue, List, OnErr, OnOk, length, ℕ, Err, Some};
ghost use Rattle.sym_io.specs.ByName.{by_name, whole_file, with_file};
ghost use Rattle.sym_io.specs.Causes.{Rose, count_up};
ghost use Rattle.sym_io.specs.Memory.{ShelfState, after_load, after_store, call_fails, load_fails, next_call};
ghost use Rattle.sym_io.specs.declared.shelf.ShelfFault.TheVariants.{Failed, TooLong};

use crate::files::{Files, copy_within};
use crate::shelf::{Shelf, ShelfFault};
use scsi_words::{Bytes, Counts};
use std::marker::Model;

/// A shelf in memory. It fails at the calls that it is given, loads and stores numbered together from 1, and where a
/// load names a file that isn't held.
#[derive(Drop)]
pub struct MemoryShelf {
    files: Files,
    failing: Counts,
    calls: u32,
    load_faults: u64,
    store_faults: u64,
}

impl Model for MemoryShelf {
    ghost Value = { ShelfState };

    ghost view = { λ s. record { files = s.files; failing = s.failing; calls = s.calls; load_faults = s.load_faults; store_faults = s.store_faults } };
}

impl MemoryShelf {
    /// A shelf with these files, of which the first of a name counts. The calls whose numbers are in `failing` fail.
    pub fn new(files: Files, failing: Counts) -> MemoryShelf
        ensures { result ≡ record { files = files; failing = failing; calls = 0; load_faults = 0; store_faults = 0 } }
    {
        MemoryShelf {
            files,
            failing,
            calls: 0,
            load_faults: 0,
            store_faults: 0,
        }
    }

    /// A file, and `None` exactly where the name isn't held.
    pub fn file(&self, name: &str) -> Option<&Bytes>
        ensures { option_map (λ bytes. bytes.now) result ≡ by_name self.now.files name.now }
    {
        self.files.file(name)
    }

    // Counts a call, and says whether it is to fail.
    fn is_failing(&mut self) -> bool
        ensures answer { result ≡ call_fails self.old }
        ensures step { self.new ≡ record self.old { calls = next_call self.old.calls } }
    {
        self.calls = self.calls.saturating_add(1);
        self.failing.as_slice().contains(&self.calls)
    }
}

// Counts a fault.
fn fail(faults: &mut u64) -> ShelfFault
    ensures answer { result ≡ Failed }
    ensures step { faults.new ≡ count_up faults.old }
    ensures later { faults.old ≤ faults.new }
{
    *faults = faults.saturating_add(1);
    ShelfFault::Failed
}

impl Shelf for MemoryShelf {
    ghost files = { λ s. Some (by_name s.files) };

    ghost load_faults = { λ s. s.load_faults };

    ghost store_faults = { λ s. s.store_faults };

    fn load(&mut self, name: &str, limit: u32) -> Result<Bytes, ShelfFault>
        ensures step { self.new ≡ after_load self.old (load_fails self.old name.now) }
        ensures fails { IsTrue (load_fails self.old name.now) → result ≡ Err Failed }
        ensures whole { IfOk result (λ bytes. bytes ≡ whole_file (by_name self.old.files) name.now) }
        ensures within { IfOk result (λ bytes. length bytes ≤ limit) }
        ensures same { Some (by_name self.new.files) ≡ Some (by_name self.old.files) }
        ensures later { self.old.load_faults ≤ self.new.load_faults }
        ensures failed { result ≡ Err Failed → Rose self.old.load_faults self.new.load_faults }
        ensures only_failing { result ≡ Err Failed → IsTrue (load_fails self.old name.now) }
        ensures long { result ≡ Err TooLong → limit < length (whole_file (by_name self.old.files) name.now) }
        ensures refused { result ≢ Err Failed → limit < length (whole_file (by_name self.old.files) name.now) → result ≡ Err TooLong }
        ensures steady { result ≢ Err Failed → self.new.load_faults ≡ self.old.load_faults }
        ensures stores { self.new.store_faults ≡ self.old.store_faults }
    {
        if self.is_failing() {
            return Err(fail(&mut self.load_faults));
        }
        match self.files.file(name) {
            None => Err(fail(&mut self.load_faults)),
            Some(bytes) => copy_within(self.files.alloc(), bytes.as_slice(), limit),
        }
    }

    fn store(&mut self, name: &str, bytes: &[u8]) -> Result<(), ShelfFault>
        ensures step { self.new ≡ record (after_store self.old (call_fails self.old)) { files = self.new.files } }
        ensures fails { IsTrue (call_fails self.old) → result ≡ Err Failed }
        ensures only_failing { result ≡ Err Failed → IsTrue (call_fails self.old) }
        ensures stored { OnOk result (Some (by_name self.new.files) ≡ Some (with_file (by_name self.old.files) name.now bytes.now)) }
        ensures same { OnErr result (Some (by_name self.new.files) ≡ Some (by_name self.old.files)) }
        ensures later { self.old.store_faults ≤ self.new.store_faults }
        ensures failed { result ≡ Err Failed → Rose self.old.store_faults self.new.store_faults }
        ensures never_long { result ≢ Err TooLong }
        ensures steady { result ≢ Err Failed → self.new.store_faults ≡ self.old.store_faults }
        ensures loads { self.new.load_faults ≡ self.old.load_faults }
    {
        if self.is_failing() {
            return Err(fail(&mut self.store_faults));
        }
        match self.files.put(name, bytes) {
            Ok(()) => Ok(()),
            Err(_) => Err(ShelfFault::OutOfMemory),
        }
    }
}

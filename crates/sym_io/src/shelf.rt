//! A shelf holds files by name.

ghost use Rattle.std.specs.Prelude.{◌≡◌, ◌≢◌, ◌<◌, ◌≤◌, IfOk, IfSome, List, OnErr, OnOk, length, ℕ, Option, Err, Some};
ghost use Rattle.std.specs.Option.{option_map};
ghost use Rattle.sym_io.specs.ByName.{FilesByName, whole_file, with_file};
ghost use Rattle.sym_io.specs.Causes.{Rose};
ghost use Rattle.sym_io.specs.declared.shelf.ShelfFault.TheVariants.{Failed, TooLong};

use scsi_words::Bytes;

/// Why a load or a store was refused.
#[derive(Clone, Copy, Debug, PartialEq, Eq)]
pub enum ShelfFault {
    /// The shelf failed: the count of this call's kind rose.
    Failed,
    /// The file has more bytes than the limit of the load.
    TooLong,
    /// Want of memory.
    OutOfMemory,
}

/// Something that holds files by name.
pub trait Shelf {
    /// The files, where the shelf tells them.
    ghost files: { Self → Option FilesByName };

    /// How many loads have failed. It never falls, rises with a load's `Failed` alone, and stands still at 2^64 - 1.
    ghost load_faults: { Self → ℕ };

    /// How many stores have failed. It never falls, rises with a store's `Failed` alone, and stands still at 2^64 - 1.
    ghost store_faults: { Self → ℕ };

    /// The whole file, which has at most `limit` bytes; no bytes for a name that isn't held and no fault.
    /// `TooLong` comes exactly where no fault came and the file has more bytes. No file changes, and the count of
    /// stores stays.
    fn load(&mut self, name: &str, limit: u32) -> Result<Bytes, ShelfFault>
        ensures whole { IfOk result (λ bytes. IfSome (files self.old) (λ held. bytes ≡ whole_file held name.now)) }
        ensures within { IfOk result (λ bytes. length bytes ≤ limit) }
        ensures same { files self.new ≡ files self.old }
        ensures later { load_faults self.old ≤ load_faults self.new }
        ensures failed { result ≡ Err Failed → Rose (load_faults self.old) (load_faults self.new) }
        ensures long { result ≡ Err TooLong → IfSome (files self.old) (λ held. limit < length (whole_file held name.now)) }
        ensures refused { result ≢ Err Failed → IfSome (files self.old) (λ held. limit < length (whole_file held name.now) → result ≡ Err TooLong) }
        ensures steady { result ≢ Err Failed → load_faults self.new ≡ load_faults self.old }
        ensures stores { store_faults self.new ≡ store_faults self.old };

    /// Makes this file these bytes and changes no other. After an `Err`, which is never `TooLong`, a shelf that
    /// tells its files has them as before. The count of loads stays.
    fn store(&mut self, name: &str, bytes: &[u8]) -> Result<(), ShelfFault>
        ensures stored { OnOk result (files self.new ≡ option_map (λ held. with_file held name.now bytes.now) (files self.old)) }
        ensures same { OnErr result (files self.new ≡ files self.old) }
        ensures later { store_faults self.old ≤ store_faults self.new }
        ensures failed { result ≡ Err Failed → Rose (store_faults self.old) (store_faults self.new) }
        ensures never_long { result ≢ Err TooLong }
        ensures steady { result ≢ Err Failed → store_faults self.new ≡ store_faults self.old }
        ensures loads { load_faults self.new ≡ load_faults self.old };
}

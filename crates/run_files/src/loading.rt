//! A file, as its bytes.
ghost use Rattle.run_files.specs.Shelves.{shelved};
ghost use Rattle.run_files.specs.Loading.{Loads};

use refusal_lines::Refusal;
use scsi_words::Bytes;
use sym_io::{Shelf, ShelfFault};

/// The most bytes that a file may have, but for a trace.
pub const FILE_LIMIT: u32 = 4_194_304;
/// The most bytes that a trace may have.
pub const TRACE_LIMIT: u32 = 67_108_864;

/// The whole of a file of at most so many bytes. `Read` comes only where the load failed, and `TooLong` exactly where the
/// file is longer; the one other refusal is want of memory. No file changes.
pub fn load<F: Shelf>(name: &str, limit: u32, shelf: &mut F) -> Result<Bytes, Refusal>
    ensures { Loads limit name.now (shelved (F.files shelf.old) (F.load_faults shelf.old) (F.store_faults shelf.old)) (shelved (F.files shelf.new) (F.load_faults shelf.new) (F.store_faults shelf.new)) result }
{
    match shelf.load(name, limit) {
        Ok(bytes) => Ok(bytes),
        Err(ShelfFault::Failed) => Err(Refusal::Read),
        Err(ShelfFault::TooLong) => Err(Refusal::TooLong),
        Err(ShelfFault::OutOfMemory) => Err(Refusal::OutOfMemory),
    }
}

//! The real sink and the real shelf: a few lines over std, which are trusted to reach the system.

ghost use Rattle.std.specs.IoError.{error_kind};
ghost use Rattle.std.specs.Prelude.{◌≡◌, ◌≢◌, ◌<◌, ◌≤◌, ◌↔◌, IfOk, IfSome, IsNone, None, length};
ghost use Rattle.sym_io.specs.Causes.{Rose};
ghost use Rattle.sym_io.specs.declared.shelf.ShelfFault.TheVariants.{Failed, OutOfMemory, TooLong};

use crate::shelf::{Shelf, ShelfFault};
use crate::sink;
use crate::sink::Sink;
use scsi_words::Bytes;
use std::alloc::Global;
use std::io::{ErrorKind, Read, Write};
use std::rt::Files;
use std::{fs, io};

/// A sink over a writer, as standard output. It counts each error, and each write that takes nothing of a piece
/// that isn't empty.
#[derive(Drop)]
pub struct RealSink<W> {
    inner: W,
    faults: u64,
}

impl<W: Write> RealSink<W> {
    /// The sink over this writer.
    pub fn new(inner: W) -> RealSink<W> {
        RealSink { inner, faults: 0 }
    }
}

impl<W: Write> Sink for RealSink<W> {
    ghost written = { λ s. W.contents s.inner };

    ghost faults = { λ s. s.faults };

    fn write(&mut self, piece: &[u8]) -> Result<usize, sink::Failed> {
        match self.inner.write(piece) {
            Ok(count) => {
                if count == 0 && !piece.is_empty() {
                    self.faults = self.faults.saturating_add(1);
                }
                Ok(count)
            }
            Err(_) => {
                self.faults = self.faults.saturating_add(1);
                Err(sink::Failed)
            }
        }
    }
}

/// The shelf over the files of the system. It counts each error of a load and each of a store, but want of memory,
/// and tells no files.
#[derive(Drop)]
pub struct RealShelf<R> {
    rt: R,
    load_faults: u64,
    store_faults: u64,
}

impl<R: Files + AllocGlobal> RealShelf<R> {
    /// The shelf over this runtime.
    pub fn new(rt: R) -> RealShelf<R> {
        RealShelf {
            rt,
            load_faults: 0,
            store_faults: 0,
        }
    }
}

// The fault of an error, which is counted where it isn't want of memory.
fn fault_of(faults: &mut u64, error: io::Error) -> ShelfFault
    ensures want { (result ≡ OutOfMemory) ↔ (error_kind error ≡ ErrorKind.OutOfMemory) }
    ensures never_long { result ≢ TooLong }
    ensures later { faults.old ≤ faults.new }
    ensures failed { result ≡ Failed → Rose faults.old faults.new }
    ensures steady { result ≢ Failed → faults.new ≡ faults.old }
{
    if error.kind() == ErrorKind::OutOfMemory {
        return ShelfFault::OutOfMemory;
    }
    *faults = faults.saturating_add(1);
    ShelfFault::Failed
}

// All the bytes that a reader gives, of which there are at most `limit`; `None` where there are more.
fn within<R: Read + Drop>(alloc: Global, reader: R, limit: u32) -> io::Result<Option<Bytes>>
    ensures whole { IfOk result (λ found. IfSome found (λ bytes. IfSome (R.remaining reader) (λ all. bytes ≡ all))) }
    ensures within { IfOk result (λ found. IfSome found (λ bytes. length bytes ≤ limit)) }
    ensures long { IfOk result (λ found. IsNone found → IfSome (R.remaining reader) (λ all. limit < length all)) }
{
    let mut bytes = Vec::new(alloc);
    reader.take(u64::from(limit) + 1).read_to_end(&mut bytes)?;
    if bytes.len() > limit as usize {
        return Ok(None);
    }
    Ok(Some(Bytes::of(bytes)))
}

// The bytes of a file, of which there are at most `limit`; `None` where there are more.
fn file_within<R: Files + AllocGlobal>(rt: &R, name: &str, limit: u32) -> io::Result<Option<Bytes>>
    ensures { IfOk result (λ found. IfSome found (λ bytes. length bytes ≤ limit)) }
{
    within(rt.alloc(), fs::open(rt, name)?, limit)
}

impl<R: Files + AllocGlobal> Shelf for RealShelf<R> {
    ghost files = { λ _. None };

    ghost load_faults = { λ s. s.load_faults };

    ghost store_faults = { λ s. s.store_faults };

    fn load(&mut self, name: &str, limit: u32) -> Result<Bytes, ShelfFault> {
        match file_within(&self.rt, name, limit) {
            Ok(Some(bytes)) => Ok(bytes),
            Ok(None) => Err(ShelfFault::TooLong),
            Err(error) => Err(fault_of(&mut self.load_faults, error)),
        }
    }

    fn store(&mut self, name: &str, bytes: &[u8]) -> Result<(), ShelfFault> {
        match fs::write(&self.rt, name, bytes) {
            Ok(()) => Ok(()),
            Err(error) => Err(fault_of(&mut self.store_faults, error)),
        }
    }
}

//! Each sink and shelf once, through its bound: ample memory is no want of memory, and the real ones do what no
//! clause says of them.

use super::*;
use scsi_words::{Bytes, Counts, Text};
use std::alloc::{AllocError, Global};
use std::io;
use std::io::Write;

// Whether a load gives these bytes.
fn gives<S: Shelf>(shelf: &mut S, name: &str, limit: u32, want: &[u8]) -> bool {
    match shelf.load(name, limit) {
        Ok(bytes) => bytes.as_slice() == want,
        Err(_) => false,
    }
}

// Whether a load is refused for this cause.
fn refuses<S: Shelf>(shelf: &mut S, name: &str, limit: u32, cause: ShelfFault) -> bool {
    match shelf.load(name, limit) {
        Ok(_) => false,
        Err(fault) => fault == cause,
    }
}

fn one_file(alloc: Global) -> Result<Files, AllocError> {
    let name = Text::of(String::from_str(alloc, "rig")?);
    let bytes = Bytes::of(b"abc".to_vec(alloc)?);
    let mut files = Vec::new(alloc);
    files.push(File { name, bytes })?;
    Ok(Files::of(files))
}

// A writer whose first write takes nothing, and whose second fails.
#[derive(Drop)]
struct Broken {
    has_written: bool,
}

impl Write for Broken {
    fn write(&mut self, _buf: &[u8]) -> io::Result<usize> {
        if self.has_written {
            return Err(io::Error::from(io::ErrorKind::StorageFull));
        }
        self.has_written = true;
        Ok(0)
    }

    fn flush(&mut self) -> io::Result<()> {
        Ok(())
    }
}

#[test]
fn memory_sinks_fail_when_told(rt: HostRuntime) -> Result<(), AllocError> {
    let alloc = rt.alloc();
    // Room for 7 bytes, 3 at a call, and the third call fails.
    let mut sink = MemorySink::new(alloc, 7, 3, Counts::of(vec![in alloc; 3]?))?;
    let is_cut = write_all(&mut sink, b"abcdefgh").is_err();
    let is_full = write_all(&mut sink, b"gh").is_err();
    assert!(rt; is_cut && is_full && sink.bytes() == b"abcdefg".as_slice());
    Ok(())
}

#[test]
fn memory_shelves_hold_files(rt: HostRuntime) -> Result<(), AllocError> {
    let alloc = rt.alloc();
    let mut shelf = MemoryShelf::new(one_file(alloc)?, Counts::of(vec![in alloc; 4]?));
    let reads = gives(&mut shelf, "rig", 3, b"abc");
    let limits = refuses(&mut shelf, "rig", 2, ShelfFault::TooLong);
    let stores = shelf.store("out", b"xy").is_ok() && shelf.store("out", b"z").is_err();
    let misses = refuses(&mut shelf, "work", 9, ShelfFault::Failed);
    assert!(rt; reads && limits && stores && misses && shelf.file("out").is_some());
    Ok(())
}

#[test]
fn quiet_ones_never_fail(rt: HostRuntime) -> Result<(), AllocError> {
    let mut shelf = QuietShelf::new(one_file(rt.alloc())?);
    let reads = gives(&mut shelf, "work", 0, b"");
    let stores = shelf.store("work", b"w").is_ok() && gives(&mut shelf, "work", 1, b"w");
    let writes = write_all(&mut QuietSink::new(), b"defgh").is_ok();
    assert!(rt; reads && stores && writes && shelf.file("rig").is_some());
    Ok(())
}

#[test]
fn real_files_are_stored_and_loaded(rt: HostRuntime) {
    let mut shelf = RealShelf::new(rt);
    let stores = shelf.store("file", b"abc").is_ok() && gives(&mut shelf, "file", 3, b"abc");
    let limits = refuses(&mut shelf, "file", 2, ShelfFault::TooLong);
    let misses = refuses(&mut shelf, "missing", 2, ShelfFault::Failed);
    assert!(rt; stores && limits && misses && shelf.store("", b"").is_err());
}

#[test]
fn real_sinks_write_through(rt: HostRuntime) {
    let prints = write_all(&mut RealSink::new(io::writer(&rt)), b"").is_ok();
    let mut broken = RealSink::new(Broken { has_written: false });
    let takes_none = broken.write(b"a") == Ok(0);
    assert!(rt; prints && takes_none && broken.write(b"a").is_err());
}

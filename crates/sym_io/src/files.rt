//! Files in memory.

ghost use Rattle.std.specs.Option.{option_map};
ghost use Rattle.std.specs.Prelude.{◌≡◌, ◌<◌, ◌≤◌, ◌⊎◌, Err, IfErr, IfOk, OnErr, OnOk, length};
ghost use Rattle.sym_io.specs.ByName.{by_name, place_by_name, with_file};
ghost use Rattle.sym_io.specs.declared.shelf.ShelfFault.TheVariants.{OutOfMemory, TooLong};

use crate::shelf::ShelfFault;
use scsi_words::{Bytes, Text};
use std::alloc::{AllocError, Global};
use std::marker::Model;

/// A file with its name.
#[derive(Debug, Drop)]
pub struct File {
    pub name: Text,
    pub bytes: Bytes,
}

/// A list of files. Of two with one name the first counts.
#[derive(Debug, Drop)]
pub struct Files {
    held: Vec<File>,
}

impl Model for Files {
    ghost use Rattle.std.specs.Prelude.{List};
    ghost use Rattle.sym_io.specs.declared.files.File.{File};

    ghost Value = { List File };

    ghost view = { λ f. f.held.items };
}

impl Files {
    /// The list of a vector's files.
    pub fn of(held: Vec<File>) -> Self
        ensures { result ≡ held.items }
    {
        Files { held }
    }

    /// The files.
    pub fn as_slice(&self) -> &[File]
        ensures { result.now ≡ self.now }
    {
        self.held.as_slice()
    }

    /// The vector, given back.
    pub fn into_vec(self) -> Vec<File>
        ensures { result.items ≡ self }
    {
        self.held
    }

    /// The bytes of a file, and `None` exactly where the name isn't held.
    pub(crate) fn file(&self, name: &str) -> Option<&Bytes>
        ensures { option_map (λ bytes. bytes.now) result ≡ by_name self.now name.now }
    {
        let at = place_of(self.held.as_slice(), name);
        Some(&self.held.get(at)?.bytes)
    }

    /// Makes this file these bytes, and changes no other.
    pub(crate) fn put(&mut self, name: &str, bytes: &[u8]) -> Result<(), AllocError>
        ensures stored { OnOk result (by_name self.new ≡ with_file (by_name self.old) name.now bytes.now) }
        ensures same { OnErr result (self.new ≡ self.old) }
    {
        let alloc = self.alloc();
        let name = Text::of(String::from_str(alloc, name)?);
        let bytes = Bytes::of(bytes.to_vec(alloc)?);
        insert(&mut self.held, File { name, bytes })
    }

    /// The allocator of the list.
    pub(crate) fn alloc(&self) -> Global {
        *self.held.allocator()
    }
}

/// A copy of bytes, of which there are at most `limit`.
pub(crate) fn copy_within(alloc: Global, bytes: &[u8], limit: u32) -> Result<Bytes, ShelfFault>
    ensures whole { IfOk result (λ copy. copy ≡ bytes.now) }
    ensures within { OnOk result (length bytes.now ≤ limit) }
    ensures long { limit < length bytes.now → result ≡ Err TooLong }
    ensures why { IfErr result (λ e. (e ≡ TooLong × limit < length bytes.now) ⊎ (e ≡ OutOfMemory)) }
{
    if bytes.len() > limit as usize {
        return Err(ShelfFault::TooLong);
    }
    match bytes.to_vec(alloc) {
        Ok(copy) => Ok(Bytes::of(copy)),
        Err(_) => Err(ShelfFault::OutOfMemory),
    }
}

// Puts a file in the place of the one of its name, or at the end.
fn insert(files: &mut Vec<File>, file: File) -> Result<(), AllocError>
    ensures stored { OnOk result (by_name files.new.items ≡ with_file (by_name files.old.items) file.name file.bytes) }
    ensures same { OnErr result (files.new.items ≡ files.old.items) }
{
    let at = place_of(files.as_slice(), file.name.as_str());
    if at < files.len() {
        files[at] = file;
    } else {
        files.push(file)?;
    }
    Ok(())
}

// The index of the first file of this name, or the number of files where there is none.
fn place_of(files: &[File], name: &str) -> usize
    ensures { result ≡ place_by_name files.now name.now }
{
    for (i, file) in files.iter().enumerate() {
        if file.name.as_str() == name {
            return i;
        }
    }
    files.len()
}

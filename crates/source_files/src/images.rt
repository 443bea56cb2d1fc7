//! An image as the bytes of a file, and what is printed of it.
ghost use Rattle.std.specs.Prelude.{◌≡◌, ◌++◌, IfOk};
ghost use Rattle.source_files.specs.Images as spec;

use scsi_words::Bytes;
use std::alloc::{AllocError, Global};

/// The bytes of words, four for each, the lowest first.
pub fn image_bytes(alloc: Global, mut words: &[u32]) -> Result<Bytes, AllocError>
    ensures { IfOk result (λ bytes. bytes ≡ spec.image_bytes words.entry.now) }
{
    let mut bytes = Vec::new(alloc);
    while let [word, rest @ ..] = words {
        bytes.extend_from_slice(word.to_le_bytes().as_slice())?;
        words = rest;
    }
    Ok(Bytes::of(bytes))
}

/// The line `words N`.
pub fn words_line(alloc: Global, count: usize) -> Result<Bytes, AllocError>
    ensures { IfOk result (λ line. line ≡ spec.words_line count) }
{
    let line = format!(in alloc; "words {count}\n")?;
    Ok(Bytes::of(line.into_bytes()))
}

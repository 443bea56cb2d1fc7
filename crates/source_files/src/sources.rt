//! The bytes of a source as the text that is assembled.
ghost use Rattle.std.specs.Prelude.{◌≡◌, ◌<◌, IfOk, Ok, length, map, string_bytes};
ghost use Rattle.scripts_asm.specs.Image.{Assembles};
ghost use Rattle.source_files.specs.Sources.{read_as, source_text};

use scripts_asm::{AsmFault, Image, assemble};
use std::alloc::{AllocError, Global};

/// The character that a byte reads as: itself up to 0x7F, `?` above.
fn character(byte: u8) -> u8
    ensures seen { result ≡ read_as byte }
    ensures ascii { result < 128 }
{
    if byte < 128 { byte } else { b'?' }
}

fn text_of(alloc: Global, source: &[u8]) -> Result<String, AllocError>
    ensures { IfOk result (λ text. string_bytes text ≡ source_text source.now) }
{
    let mut text = String::new(alloc);
    for byte in source {
        text.push(char::from(character(*byte)))?;
    }
    Ok(text)
}

/// The image of a source of at most 4,294,967,294 bytes, or its first fault. A byte above 0x7F reads as `?`.
pub fn assemble_source(alloc: Global, source: &[u8]) -> Result<Image, AsmFault>
    requires { length source.now < 4294967295 }
    ensures { Assembles (source_text source.now) result }
{
    let text = text_of(alloc, source)?;
    assemble(alloc, text.as_str())
}

//! The listing of a file: its words, and the bytes that are left.
ghost use Rattle.std.specs.Prelude.{◌≡◌, ◌+◌, ◌*◌, ◌/◌, ◌%◌, ◌<◌, ◌≤◌, ◌++◌, ◌∷◌, [], length, IfOk, OnOk, vec_len};
ghost use Rattle.std.specs.Char.{digit_char};
ghost use Rattle.scripts_list.specs.Listing.{word_text};
ghost use Rattle.scripts_list.specs.Texts.{number_text};
ghost use Rattle.source_files.specs.Images.{last_of, words_of};
ghost use Rattle.source_files.specs.FileListing as spec;

use scripts_list::list;
use scsi_words::Bytes;
use std::alloc::{AllocError, Global};

/// Adds a hexadecimal digit.
fn push_digit(out: &mut Vec<u8>, digit: u32) -> Result<(), AllocError>
    requires { digit < 16 }
    ensures { OnOk result (out.new.items ≡ out.old.items ++ digit_char digit ∷ []) }
{
    let digit = digit as u8;
    out.push(if digit < 10 { 48 + digit } else { 87 + digit })?;
    Ok(())
}

/// Adds an address in eight digits.
#[tactic(auto, unfolding(scripts_list::specs::Listing::word_text))]
fn push_address(out: &mut Vec<u8>, address: u32) -> Result<(), AllocError>
    ensures { OnOk result (out.new.items ≡ out.old.items ++ word_text address) }
{
    push_digit(out, address / 0x1000_0000 % 16)?;
    push_digit(out, address / 0x100_0000 % 16)?;
    push_digit(out, address / 0x10_0000 % 16)?;
    push_digit(out, address / 0x1_0000 % 16)?;
    push_digit(out, address / 0x1000 % 16)?;
    push_digit(out, address / 0x100 % 16)?;
    push_digit(out, address / 0x10 % 16)?;
    push_digit(out, address % 16)
}

/// Adds a byte's number: `0x` and lower-case digits.
fn push_number(alloc: Global, out: &mut Vec<u8>, byte: u8) -> Result<(), AllocError>
    ensures { OnOk result (out.new.items ≡ out.old.items ++ number_text byte) }
{
    let text = format!(in alloc; "0x{byte:x}")?;
    out.extend_from_slice(text.as_bytes())?;
    Ok(())
}

/// Adds the front of a byte's line: the address, two blanks, two digits.
fn push_front(out: &mut Vec<u8>, address: u32, byte: u8) -> Result<(), AllocError>
    ensures { OnOk result (out.new.items ≡ out.old.items ++ spec.byte_front address byte) }
{
    push_address(out, address)?;
    out.extend_from_slice(b"  ")?;
    push_digit(out, u32::from(byte / 16))?;
    push_digit(out, u32::from(byte % 16))
}

/// Adds the line of a byte.
fn push_byte(alloc: Global, out: &mut Vec<u8>, address: u32, byte: u8) -> Result<(), AllocError>
    ensures { OnOk result (out.new.items ≡ out.old.items ++ spec.byte_line address byte) }
{
    push_front(out, address, byte)?;
    out.extend_from_slice(b"  .byte ")?;
    push_number(alloc, out, byte)?;
    out.extend_from_slice(b"\n")?;
    Ok(())
}

/// Adds the lines of the last bytes, the first at an address.
fn push_last(
    alloc: Global,
    out: &mut Vec<u8>,
    mut address: u32,
    mut bytes: &[u8],
) -> Result<(), AllocError>
    requires { address + length bytes.now < 4294967296 }
    ensures { OnOk result (out.new.items ≡ out.old.items ++ spec.byte_lines address bytes.entry.now) }
{
    while let [byte, rest @ ..] = bytes {
        push_byte(alloc, out, address, *byte)?;
        address += 1;
        bytes = rest;
    }
    Ok(())
}

/// The words of bytes, four bytes for each, and the bytes that are left.
fn split_words(alloc: Global, mut bytes: &[u8]) -> Result<(Vec<u32>, &[u8]), AllocError>
    ensures words { IfOk result (λ parts. parts.0.items ≡ words_of bytes.entry.now) }
    ensures last { IfOk result (λ parts. parts.1.now ≡ last_of bytes.entry.now) }
    ensures size { IfOk result (λ parts. 4 * vec_len parts.0 + length parts.1.now ≡ length bytes.entry.now) }
{
    let mut words = Vec::new(alloc);
    while let [a, b, c, d, rest @ ..] = bytes {
        words.push(u32::from_le_bytes([*a, *b, *c, *d]))?;
        bytes = rest;
    }
    Ok((words, bytes))
}

/// The listing of a file of at most 4,294,967,295 bytes: that of its little-endian words, then a `.byte` line for each
/// of the last bytes that are no word.
pub fn list_file(alloc: Global, file: &[u8]) -> Result<Bytes, AllocError>
    requires { length file.now < 4294967296 }
    ensures { IfOk result (λ text. spec.IsFileListing file.now text) }
{
    let (words, last) = split_words(alloc, file)?;
    let listing = list(alloc, words.as_slice())?;
    let mut text = listing.into_string().into_bytes();
    push_last(alloc, &mut text, 4 * words.len() as u32, last)?;
    Ok(Bytes::of(text))
}

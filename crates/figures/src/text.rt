//! Texts of a given length.

use std::alloc::{AllocError, Global};

/// A text and pieces behind it, until it has `len` bytes or more. Where `after` is there, a piece is followed by its number,
/// in seven digits or more, and by that.
pub fn filled(
    alloc: Global,
    head: &str,
    piece: &str,
    after: Option<&str>,
    len: usize,
) -> Result<String, AllocError> {
    let mut text = String::with_capacity(alloc, len)?;
    text.push_str(head)?;
    for n in 0..len {
        if text.len() >= len {
            break;
        }
        text.push_str(piece)?;
        if let Some(end) = after {
            text.push_str(format!(in alloc; "{n:07}")?.as_str())?;
            text.push_str(end)?;
        }
    }
    Ok(text)
}

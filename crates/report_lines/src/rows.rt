//! Bytes in rows of 32, each with its offset.

ghost use Rattle.report_lines.specs.Lines.{data_line, data_text};
ghost use Rattle.std.specs.Prelude.{◌≡◌, ◌++◌, OnOk};

use crate::hex::push_hex;
use std::alloc::AllocError;

/// Puts the `data` lines of bytes at the end of a text.
pub(crate) fn push_rows(text: &mut Vec<u8>, bytes: &[u8]) -> Result<(), AllocError>
    ensures { OnOk result (text.new.items ≡ text.old.items ++ data_text bytes.now) }
{
    let mut offset = 0;
    let mut rest = bytes;
    while !rest.is_empty() {
        let (row, others) = rest.split_at(32.min(rest.len()));
        push_row(text, offset, row)?;
        offset += row.len();
        rest = others;
    }
    Ok(())
}

#[tactic(auto, unfolding(crate::specs::Lines::data_line))]
fn push_row(text: &mut Vec<u8>, offset: usize, row: &[u8]) -> Result<(), AllocError>
    ensures { OnOk result (text.new.items ≡ text.old.items ++ data_line offset row.now) }
{
    text.extend_from_slice(b"data ")?;
    let place = [
        (offset / 65536 % 256) as u8,
        (offset / 256 % 256) as u8,
        (offset % 256) as u8,
    ];
    push_hex(text, &place)?;
    text.push(b' ')?;
    push_hex(text, row)?;
    text.push(b'\n')?;
    Ok(())
}

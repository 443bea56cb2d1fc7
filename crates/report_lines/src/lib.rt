#![tactic(auto)]
//! The text of one report: its line, its sense where there is one, and the buffer of a command that reads, in rows
//! of 32 bytes. The work is linear in the bytes.

ghost use Rattle.report_lines.specs.Lines.{buffer_text, data_text, line_back, line_front, outcome_word, report_line, report_part, sense_line, status_text};
ghost use Rattle.std.specs.Prelude.{◌≡◌, ◌++◌, IfOk, OnOk, string_bytes};

mod hex;
mod rows;

use rig_types::{Outcome, Report};
use scsi_words::{Bytes, Direction};
use std::alloc::{AllocError, Global};

/// The lines of a report on the unit of this target and LUN, for a request of this direction: `report ..`, then
/// `sense ..` where the sense isn't empty, then, for `In`, the `data` lines of the whole buffer.
pub fn report_lines(
    alloc: Global,
    target: u8,
    lun: u8,
    direction: Direction,
    report: &Report,
) -> Result<Bytes, AllocError>
    ensures { IfOk result (λ text. text ≡ report_part target lun direction report.now) }
{
    let mut text = Vec::new(alloc);
    push_line(alloc, &mut text, target, lun, report)?;
    push_sense(&mut text, report.sense.as_slice())?;
    push_buffer(&mut text, direction, report.bytes.as_slice())?;
    Ok(Bytes::of(text))
}

/// The `data` lines of bytes, 32 a line. The offset has six hexadecimal digits, which suffice below 16 MiB.
pub fn data_lines(alloc: Global, bytes: &[u8]) -> Result<Bytes, AllocError>
    ensures { IfOk result (λ text. text ≡ data_text bytes.now) }
{
    let mut text = Vec::new(alloc);
    rows::push_rows(&mut text, bytes)?;
    Ok(Bytes::of(text))
}

// The line of the report.
fn push_line(
    alloc: Global,
    text: &mut Vec<u8>,
    target: u8,
    lun: u8,
    report: &Report,
) -> Result<(), AllocError>
    ensures { OnOk result (text.new.items ≡ text.old.items ++ report_line target lun report.now) }
{
    let front = front_of(alloc, report.ticket, target, lun, word_of(report.outcome))?;
    text.extend_from_slice(front.as_bytes())?;
    push_status(text, report.outcome, report.status)?;
    let back = back_of(alloc, report.residual, report.tries)?;
    text.extend_from_slice(back.as_bytes())?;
    Ok(())
}

// The line up to the status.
fn front_of(
    alloc: Global,
    ticket: u32,
    target: u8,
    lun: u8,
    word: &str,
) -> Result<String, AllocError>
    ensures { IfOk result (λ front. string_bytes front ≡ line_front ticket target lun word.now) }
{
    let front = format!(in alloc; "report {ticket} unit {target}.{lun} {word} status ")?;
    Ok(front)
}

// The line from the status on.
fn back_of(alloc: Global, residual: u32, tries: u8) -> Result<String, AllocError>
    ensures { IfOk result (λ back. string_bytes back ≡ line_back residual tries) }
{
    let back = format!(in alloc; " residual {residual} tries {tries}\n")?;
    Ok(back)
}

fn word_of(outcome: Outcome) -> &'static str
    ensures { result.now ≡ outcome_word outcome }
{
    match outcome {
        Outcome::Done => "done",
        Outcome::Cut => "cut",
        Outcome::Reset => "reset",
        Outcome::NoTarget => "notarget",
        Outcome::Broken => "broken",
    }
}

fn push_status(text: &mut Vec<u8>, outcome: Outcome, status: u8) -> Result<(), AllocError>
    ensures { OnOk result (text.new.items ≡ text.old.items ++ status_text outcome status) }
{
    match outcome {
        Outcome::Done => hex::push_hex(text, &[status]),
        _ => text.extend_from_slice(b"--"),
    }
}

fn push_sense(text: &mut Vec<u8>, sense: &[u8]) -> Result<(), AllocError>
    ensures { OnOk result (text.new.items ≡ text.old.items ++ sense_line sense.now) }
{
    if sense.is_empty() {
        return Ok(());
    }
    text.extend_from_slice(b"sense ")?;
    hex::push_hex(text, sense)?;
    text.push(b'\n')?;
    Ok(())
}

fn push_buffer(text: &mut Vec<u8>, direction: Direction, bytes: &[u8]) -> Result<(), AllocError>
    ensures { OnOk result (text.new.items ≡ text.old.items ++ buffer_text direction bytes.now) }
{
    match direction {
        Direction::In => rows::push_rows(text, bytes),
        _ => Ok(()),
    }
}

#[cfg(test)]
mod tests;

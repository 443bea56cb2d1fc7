//! What was answered to the acts.

ghost use Rattle.std.specs.Prelude.{◌≡◌, ◌++◌, IfOk, OnOk, string_bytes};
ghost use Rattle.report_text.specs.Text.{act_line, act_text, acts_from};

use std::alloc::{AllocError, Global};
use world_law::Reply;

/// Puts the lines of the answered acts, from act 0 on, at the end of a text.
pub fn push_acts(alloc: Global, text: &mut Vec<u8>, acts: &[Reply]) -> Result<(), AllocError>
    ensures { OnOk result (text.new.items ≡ text.old.items ++ acts_from 0 acts.now) }
{
    let mut number = 0;
    for reply in acts {
        push_act(alloc, text, number, *reply)?;
        number += 1;
    }
    Ok(())
}

fn push_act(
    alloc: Global,
    text: &mut Vec<u8>,
    number: usize,
    reply: Reply,
) -> Result<(), AllocError>
    ensures { OnOk result (text.new.items ≡ text.old.items ++ act_text number reply) }
{
    let word = match reply {
        Reply::Marked => "marked",
        Reply::TooLate => "toolate",
        Reply::NeverAccepted => "never",
        Reply::Started => "started",
        _ => return Ok(()),
    };
    let line = line_of(alloc, number, word)?;
    text.extend_from_slice(line.as_bytes())
}

fn line_of(alloc: Global, number: usize, word: &str) -> Result<String, AllocError>
    ensures { IfOk result (λ line. string_bytes line ≡ act_line number word.now) }
{
    let line = format!(in alloc; "act {number} {word}\n")?;
    Ok(line)
}

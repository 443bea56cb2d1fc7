//! What became of the lines of a submitter.

ghost use Rattle.std.specs.Prelude.{◌≡◌, ◌+◌, ◌<◌, ◌++◌, length, IfOk, OnOk, string_bytes};
ghost use Rattle.desk_law.specs.declared.refused.Kind.TheVariants.{TooShort};
ghost use Rattle.desk_law.specs.declared.refused.Refused.TheVariants.{LunFull, RegionFull, BadRequest};
ghost use Rattle.world_law.specs.declared.reply.Decided.TheVariants.{Accepted, Refused as RefusedLine};
ghost use Rattle.report_text.specs.Text.{kind_word, line_text, lines_from, refusal_text};

use desk_law::{Kind, Refused};
use std::alloc::{AllocError, Global};
use world_law::Decided;

/// Puts the lines of a submitter, from its line 0 on, at the end of a text. There are fewer than 2^32.
pub fn push_lines(
    alloc: Global,
    text: &mut Vec<u8>,
    submitter: u16,
    lines: &[Decided],
) -> Result<(), AllocError>
    requires { length lines.now < 4294967296 }
    ensures { OnOk result (text.new.items ≡ text.old.items ++ lines_from submitter 0 lines.now) }
{
    let mut number = 0;
    for decided in lines {
        push_line(alloc, text, submitter, number, *decided)?;
        number += 1;
    }
    Ok(())
}

fn push_line(
    alloc: Global,
    text: &mut Vec<u8>,
    submitter: u16,
    number: usize,
    decided: Decided,
) -> Result<(), AllocError>
    ensures { OnOk result (text.new.items ≡ text.old.items ++ line_text submitter number decided) }
{
    let line = match decided {
        Decided::Open => return Ok(()),
        Decided::Accepted(ticket) => accepted_line(alloc, submitter, number, ticket)?,
        Decided::Refused(refused) => refused_line(alloc, submitter, number, refused)?,
    };
    text.extend_from_slice(line.as_bytes())
}

fn accepted_line(
    alloc: Global,
    submitter: u16,
    number: usize,
    ticket: u32,
) -> Result<String, AllocError>
    ensures { IfOk result (λ line. string_bytes line ≡ line_text submitter number (Accepted ticket)) }
{
    let line = format!(in alloc; "line {submitter}.{number} ticket {ticket}\n")?;
    Ok(line)
}

fn refused_line(
    alloc: Global,
    submitter: u16,
    number: usize,
    refused: Refused,
) -> Result<String, AllocError>
    ensures { IfOk result (λ line. string_bytes line ≡ line_text submitter number (RefusedLine refused)) }
{
    let reason = refusal(alloc, refused)?;
    let line = format!(in alloc; "line {submitter}.{number} refused {reason}\n")?;
    Ok(line)
}

fn refusal(alloc: Global, refused: Refused) -> Result<String, AllocError>
    ensures { IfOk result (λ reason. string_bytes reason ≡ refusal_text refused) }
{
    match refused {
        Refused::LunFull { depth } => lun_full(alloc, depth),
        Refused::RegionFull { len } => region_full(alloc, len),
        Refused::BadRequest(kind) => bad_request(alloc, kind),
    }
}

fn lun_full(alloc: Global, depth: u16) -> Result<String, AllocError>
    ensures { IfOk result (λ reason. string_bytes reason ≡ refusal_text (LunFull depth)) }
{
    let reason = format!(in alloc; "lunfull {depth}")?;
    Ok(reason)
}

fn region_full(alloc: Global, len: u32) -> Result<String, AllocError>
    ensures { IfOk result (λ reason. string_bytes reason ≡ refusal_text (RegionFull len)) }
{
    let reason = format!(in alloc; "regionfull {len}")?;
    Ok(reason)
}

fn bad_request(alloc: Global, kind: Kind) -> Result<String, AllocError>
    ensures { IfOk result (λ reason. string_bytes reason ≡ refusal_text (BadRequest kind)) }
{
    let word = word_of(kind);
    match kind {
        Kind::TooShort { need, has } => too_short(alloc, need, has),
        _ => {
            let reason = format!(in alloc; "bad {word}")?;
            Ok(reason)
        }
    }
}

fn too_short(alloc: Global, need: u32, has: u32) -> Result<String, AllocError>
    ensures { IfOk result (λ reason. string_bytes reason ≡ refusal_text (BadRequest (TooShort need has))) }
{
    let reason = format!(in alloc; "bad tooshort {need} {has}")?;
    Ok(reason)
}

fn word_of(kind: Kind) -> &'static str
    ensures { result.now ≡ kind_word kind }
{
    match kind {
        Kind::NoUnit => "nounit",
        Kind::CdbLength => "cdblength",
        Kind::TooManySegments => "manysegments",
        Kind::NoSegment => "nosegment",
        Kind::ZeroSegment => "zerosegment",
        Kind::TooLarge => "toolarge",
        Kind::Direction => "direction",
        Kind::TooShort { .. } => "tooshort",
    }
}

//! The commands with their buffers. They are made last, when all segments are known to be within 64 MiB.

ghost use Rattle.std.specs.Prelude.{◌≡◌, ◌≤◌, IfOk, map, length, sum};
ghost use Rattle.std.specs.List.{All};
ghost use Rattle.rig_types.specs.Works.{IsCommand};
ghost use Rattle.work_reader.specs.WorkFile.{buffer as buffer_of, filled, plain, plain_spelled, views, IsSpelled};

use crate::spelled::Spelled;
use rig_types::{Command, Commands, Request, Submitters};
use scsi_words::{Bytes, Counts};
use std::alloc::{AllocError, Global};

/// A buffer: byte `i` is `(fill + i) mod 256`.
fn buffer(alloc: Global, fill: u8, len: u32) -> Result<Vec<u8>, AllocError>
    ensures bytes { IfOk result (λ v. v.items ≡ buffer_of fill len) }
    ensures len { IfOk result (λ v. length v.items ≡ len) }
{
    let mut out = Vec::with_capacity(alloc, len as usize)?;
    for i in 0..len {
        out.push(((u64::from(fill) + u64::from(i)) % 256) as u8)?;
    }
    Ok(out)
}

/// The bytes of all segments of a command.
fn total(segments: &[u32]) -> u32
    requires few { length segments.now ≤ 64 }
    requires small { All (λ n. n ≤ 131072) segments.now }
    ensures { result ≡ sum segments.now }
{
    let mut total: u32 = 0;
    for n in segments {
        total += *n;
    }
    total
}

/// A command with its buffer.
fn command(alloc: Global, spelled: &Spelled) -> Result<Command, AllocError>
    requires { IsSpelled spelled.now }
    ensures value { IfOk result (λ c. plain c ≡ filled (plain_spelled spelled.now)) }
    ensures in_range { IfOk result IsCommand }
{
    let bytes = buffer(alloc, spelled.fill, total(&spelled.segments))?;
    let cdb = Vec::from_slice(alloc, &spelled.cdb)?;
    let segments = Vec::from_slice(alloc, &spelled.segments)?;
    Ok(Command {
        request: Request {
            unit: spelled.unit,
            cdb: Bytes::of(cdb),
            segments: Counts::of(segments),
            direction: spelled.direction,
            bytes: Bytes::of(bytes),
        },
        when_full: spelled.when_full,
        wait: spelled.wait,
    })
}

/// The commands of a submitter.
fn commands(alloc: Global, spelled: &[Spelled]) -> Result<Commands, AllocError>
    requires { All IsSpelled spelled.now }
    ensures value { IfOk result (λ cs. map plain cs ≡ map filled (map plain_spelled spelled.now)) }
    ensures in_range { IfOk result (All IsCommand) }
{
    let mut out = Vec::with_capacity(alloc, spelled.len())?;
    for s in spelled {
        out.push(command(alloc, s)?)?;
    }
    Ok(Commands::of(out))
}

/// All submitters.
pub fn submitters(alloc: Global, spelled: &[Vec<Spelled>]) -> Result<Submitters, AllocError>
    requires { All (λ s. All IsSpelled s.items) spelled.now }
    ensures value { IfOk result (λ ss. map (map plain) ss ≡ map (map filled) (views spelled.now)) }
    ensures in_range { IfOk result (All (All IsCommand)) }
{
    let mut out = Vec::with_capacity(alloc, spelled.len())?;
    for s in spelled {
        out.push(commands(alloc, s)?)?;
    }
    Ok(Submitters::of(out))
}

//! A generated command.

ghost use Rattle.std.specs.Prelude.{◌≡◌, ◌<◌, ◌∷◌, [], false, IfOk, length};
ghost use Rattle.rig_types.specs.Works.{IsCommand};
ghost use Rattle.rig_types.specs.declared.commands.WhenFull.TheVariants.{Wait};
ghost use Rattle.cdb_codec.specs.Forms.{cdb_bytes};
ghost use Rattle.unit_law.specs.Request.{plain};
ghost use Rattle.serial_run.specs.Generated.{cdb_by, data_of, direction_by, filled, request_by};

use cdb_codec::{Cdb, write_cdb};
use rig_types::{Command, Request, WhenFull};
use scsi_words::{Bytes, Counts, Direction};
use std::alloc::{AllocError, Global};

const BUFFER_BYTES: u32 = 4096;

/// The command with this number, for which this word was drawn.
pub(crate) fn command_by(alloc: Global, word: u32, number: u32) -> Result<Command, AllocError>
    ensures command { IfOk result (λ c. data_of c ≡ record { request = request_by word number; when_full = Wait; wait = false }) }
    ensures in_range { IfOk result IsCommand }
{
    let request = request_by(alloc, word, number)?;
    Ok(Command {
        request,
        when_full: WhenFull::Wait,
        wait: false,
    })
}

fn request_by(alloc: Global, word: u32, number: u32) -> Result<Request, AllocError>
    ensures request { IfOk result (λ r. plain r ≡ request_by word number) }
    ensures segments { IfOk result (λ r. r.segments ≡ 4096 ∷ []) }
    ensures cdb { IfOk result (λ r. length r.cdb ≡ 10) }
{
    let write = word / 0x100_0000 % 2 == 1;
    let cdb = cdb_by(alloc, write, word / 256 % 4089)?;
    let bytes = filled(alloc, number)?;
    let segments = [BUFFER_BYTES].to_vec(alloc)?;
    Ok(Request {
        unit: (number % 2) as u8,
        cdb,
        segments: Counts::of(segments),
        direction: direction_by(write),
        bytes: Bytes::of(bytes),
    })
}

fn direction_by(write: bool) -> Direction
    ensures { result ≡ direction_by write }
{
    if write { Direction::Out } else { Direction::In }
}

fn cdb_by(alloc: Global, write: bool, lba: u32) -> Result<Bytes, AllocError>
    requires { lba < 4089 }
    ensures bytes { IfOk result (λ bytes. bytes ≡ cdb_bytes (cdb_by write lba)) }
    ensures ten { IfOk result (λ bytes. length bytes ≡ 10) }
{
    let cdb = if write {
        Cdb::Write {
            lba,
            blocks: 8,
            six: false,
        }
    } else {
        Cdb::Read {
            lba,
            blocks: 8,
            six: false,
        }
    };
    write_cdb(alloc, &cdb)
}

fn filled(alloc: Global, number: u32) -> Result<Vec<u8>, AllocError>
    ensures bytes { IfOk result (λ bytes. bytes.items ≡ filled number 4096) }
    ensures count { IfOk result (λ bytes. length bytes.items ≡ 4096) }
{
    let mut bytes = Vec::with_capacity(alloc, BUFFER_BYTES as usize)?;
    for k in 0..BUFFER_BYTES {
        bytes.push(((number % 256 + k) % 256) as u8)?;
    }
    Ok(bytes)
}

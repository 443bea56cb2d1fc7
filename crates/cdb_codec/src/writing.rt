//! Commands as bytes.

ghost use Rattle.std.specs.Prelude.{◌≡◌, true, false, IfOk};
ghost use Rattle.cdb_codec.specs.Blocks.{cdb_of};
ghost use Rattle.cdb_codec.specs.Forms.{FitsForm, HasForm, cdb_bytes, transfer_bytes};

use crate::codes::{
    INQUIRY, READ_6, READ_10, READ_CAPACITY, REQUEST_SENSE, TEST_UNIT_READY, WRITE_6, WRITE_10,
};
use crate::commands::Cdb;
use scsi_words::Bytes;
use std::alloc::{AllocError, Global};

/// The bytes of a command, which `read_cdb` reads as this command. Fields that are ignored are 0.
///
/// Condition: `c` isn't `BadField` or `Other`, and its numbers fit its form.
pub fn write_cdb(alloc: Global, c: &Cdb) -> Result<Bytes, AllocError>
    requires form { HasForm c.now }
    requires fits { FitsForm c.now }
    ensures bytes { IfOk result (λ bytes. bytes ≡ cdb_bytes c.now) }
    ensures again { IfOk result (λ bytes. cdb_of bytes ≡ c.now) }
{
    let bytes = match *c {
        Cdb::TestUnitReady => [TEST_UNIT_READY, 0, 0, 0, 0, 0].to_vec(alloc)?,
        Cdb::RequestSense { len } => [REQUEST_SENSE, 0, 0, 0, len, 0].to_vec(alloc)?,
        Cdb::Read {
            lba,
            blocks,
            six: true,
        } => six_bytes(alloc, READ_6, lba, blocks)?,
        Cdb::Read {
            lba,
            blocks,
            six: false,
        } => ten_bytes(alloc, READ_10, lba, blocks as u16)?,
        Cdb::Write {
            lba,
            blocks,
            six: true,
        } => six_bytes(alloc, WRITE_6, lba, blocks)?,
        Cdb::Write {
            lba,
            blocks,
            six: false,
        } => ten_bytes(alloc, WRITE_10, lba, blocks as u16)?,
        Cdb::Inquiry { len } => [INQUIRY, 0, 0, 0, len, 0].to_vec(alloc)?,
        Cdb::ReadCapacity => [READ_CAPACITY, 0, 0, 0, 0, 0, 0, 0, 0, 0].to_vec(alloc)?,
        Cdb::BadField | Cdb::Other => unreachable!(),
    };
    Ok(Bytes::of(bytes))
}

/// The form of 6 bytes, with an address of 21 bits; 256 blocks are written as 0.
fn six_bytes(alloc: Global, code: u8, lba: u32, blocks: u32) -> Result<Vec<u8>, AllocError>
    ensures { IfOk result (λ bytes. bytes.items ≡ transfer_bytes true code 0 lba blocks) }
{
    let [_, high, middle, low] = lba.to_be_bytes();
    [code, high, middle, low, (blocks % 256) as u8, 0].to_vec(alloc)
}

/// The form of 10 bytes.
fn ten_bytes(alloc: Global, code: u8, lba: u32, blocks: u16) -> Result<Vec<u8>, AllocError>
    ensures { IfOk result (λ bytes. bytes.items ≡ transfer_bytes false 0 code lba blocks) }
{
    let [a, b, c, d] = lba.to_be_bytes();
    let [high, low] = blocks.to_be_bytes();
    [code, 0, a, b, c, d, 0, high, low, 0].to_vec(alloc)
}

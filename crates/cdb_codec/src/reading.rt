//! Commands from their bytes.

ghost use Rattle.std.specs.Prelude.{◌≡◌, ◌^◌, ◌<◌, ◌≤◌, length, slice_index};
ghost use Rattle.cdb_codec.specs.Blocks.{length_of, cdb_of, sound, address_6, blocks_6, address_10, blocks_10};
ghost use Rattle.cdb_codec.specs.Forms.{FitsForm};

use crate::codes::{
    INQUIRY, READ_6, READ_10, READ_CAPACITY, REQUEST_SENSE, TEST_UNIT_READY, WRITE_6, WRITE_10,
};
use crate::commands::Cdb;

/// How many bytes the descriptor block of this operation code has: 10 for 0x20 to 0x5F, 12 for 0xA0 to
/// 0xBF, and 6 otherwise. For the reserved groups 3 and 4 and the vendor's groups 6 and 7 this is own.
pub fn cdb_length(op: u8) -> u8
    ensures { result ≡ length_of op }
{
    match op >> 5 {
        1 | 2 => 10,
        5 => 12,
        _ => 6,
    }
}

/// The command that the bytes say.
///
/// Condition: the slice isn't empty and has the length of its first byte.
pub fn read_cdb(bytes: &[u8]) -> Cdb
    requires some { 0 < length bytes.now }
    requires whole { length bytes.now ≡ length_of (slice_index bytes.now 0) }
    ensures command { result ≡ cdb_of bytes.now }
    ensures fits { FitsForm result }
{
    let control = bytes[bytes.len() - 1] == 0;
    let absolute = control && bytes[1] % 2 == 0;
    match bytes[0] {
        TEST_UNIT_READY => sound(control, Cdb::TestUnitReady),
        REQUEST_SENSE => sound(control, Cdb::RequestSense { len: bytes[4] }),
        READ_6 => sound(
            control,
            Cdb::Read {
                lba: address_6(bytes),
                blocks: blocks_6(bytes),
                six: true,
            },
        ),
        WRITE_6 => sound(
            control,
            Cdb::Write {
                lba: address_6(bytes),
                blocks: blocks_6(bytes),
                six: true,
            },
        ),
        INQUIRY => sound(absolute && bytes[2] == 0, Cdb::Inquiry { len: bytes[4] }),
        READ_CAPACITY => sound(absolute, Cdb::ReadCapacity),
        READ_10 => sound(
            absolute,
            Cdb::Read {
                lba: address_10(bytes),
                blocks: blocks_10(bytes) as u32,
                six: false,
            },
        ),
        WRITE_10 => sound(
            absolute,
            Cdb::Write {
                lba: address_10(bytes),
                blocks: blocks_10(bytes) as u32,
                six: false,
            },
        ),
        _ => Cdb::Other,
    }
}

/// The command where its fields are sound, else a bad field.
fn sound(fields: bool, command: Cdb) -> Cdb
    ensures { result ≡ sound fields command }
{
    if fields { command } else { Cdb::BadField }
}

/// The address of a form of 6 bytes: 21 bits, of which the upper three bits of byte 1 are no part.
fn address_6(bytes: &[u8]) -> u32
    requires { length bytes.now ≡ 6 }
    ensures value { result ≡ address_6 bytes.now }
    ensures fits { result < 2 ^ 21 }
{
    u32::from_be_bytes([0, bytes[1] % 32, bytes[2], bytes[3]])
}

/// The number of blocks of a form of 6 bytes.
fn blocks_6(bytes: &[u8]) -> u32
    requires { length bytes.now ≡ 6 }
    ensures value { result ≡ blocks_6 bytes.now }
    ensures some { 1 ≤ result }
    ensures most { result ≤ 256 }
{
    if bytes[4] == 0 { 256 } else { bytes[4] as u32 }
}

/// The address of a form of 10 bytes.
fn address_10(bytes: &[u8]) -> u32
    requires { length bytes.now ≡ 10 }
    ensures { result ≡ address_10 bytes.now }
{
    u32::from_be_bytes([bytes[2], bytes[3], bytes[4], bytes[5]])
}

/// The number of blocks of a form of 10 bytes.
fn blocks_10(bytes: &[u8]) -> u16
    requires { length bytes.now ≡ 10 }
    ensures { result ≡ blocks_10 bytes.now }
{
    u16::from_be_bytes([bytes[7], bytes[8]])
}

//! The commands, and what they need.

use scsi_words::Direction;

/// A command. Addresses and counts are in blocks of 512 bytes.
#[derive(Clone, Copy, Debug, PartialEq, Eq)]
pub enum Cdb {
    /// TEST UNIT READY, 0x00.
    TestUnitReady,
    /// REQUEST SENSE, 0x03, with its allocation length in bytes.
    RequestSense { len: u8 },
    /// READ(6), 0x08, where `six`, else READ(10), 0x28.
    Read { lba: u32, blocks: u32, six: bool },
    /// WRITE(6), 0x0A, where `six`, else WRITE(10), 0x2A.
    Write { lba: u32, blocks: u32, six: bool },
    /// INQUIRY, 12, with its allocation length in bytes.
    Inquiry { len: u8 },
    /// READ CAPACITY, 25.
    ReadCapacity,
    /// One of these with a field that the units don't take.
    BadField,
    /// Any other operation code.
    Other,
}

/// Which way a command's data go, and how many bytes they are at most.
#[derive(Clone, Copy, Debug, PartialEq, Eq)]
pub struct Need {
    /// Which way.
    pub direction: Direction,
    /// How many bytes.
    pub bytes: u32,
}

//! The rigs and words of the tables.

/// One unit of 64 blocks, block n of which holds the bytes n, n + 1 and so on. A task leaves the bus at most twice.
pub const ONE_UNIT: &str = r#"version = 1
[[unit]]
target = 0
lun = 0
blocks = 64
pattern = "count"
"#;

/// The same, and the driver asks for the sense.
pub const SENSING: &str = r#"version = 1
autosense = true
[[unit]]
target = 0
lun = 0
blocks = 64
pattern = "count"
"#;

/// The callers beside submitter 0, where there is no other submitter.
pub const ABORTER: u32 = 1;

pub const REAPER: u32 = 2;

/// Where the script goes on with what a target shows.
pub const DISPATCH: u32 = 0x90;
/// Where the script moves data.
pub const DATA: u32 = 0xb8;

/// A data phase of 512 bytes, of all that are left, or the status.
pub const GO: u32 = 511;
/// A fresh task leaves the bus.
pub const LEAVE: u32 = 0x0100_0000;
/// The unit refuses a fresh task by BUSY, and by QUEUE FULL.
pub const BUSY: u32 = 0x0100_0000;

pub const QUEUE_FULL: u32 = 0x0200_0000;
/// The first candidate reselects, and the second.
pub const FIRST: u32 = 0x8000_0000;

pub const SECOND: u32 = 0x8000_0001;

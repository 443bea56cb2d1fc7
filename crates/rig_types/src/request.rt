//! A request.

ghost use Rattle.std.specs.Prelude.{◌≡◌, length, sum};

use scsi_words::{Bytes, Counts, Direction};

/// What is asked of a unit. A request may still be one that the driver refuses.
#[derive(Drop)]
pub struct Request {
    /// The unit's number in the rig.
    pub unit: u8,
    /// The command descriptor block.
    pub cdb: Bytes,
    /// The sizes of the buffer's parts, in bytes.
    pub segments: Counts,
    /// Which way the data go.
    pub direction: Direction,
    /// The buffer as submitted, as long as the sum of `segments`.
    pub bytes: Bytes,
    ghost whole: { length bytes ≡ sum segments },
}

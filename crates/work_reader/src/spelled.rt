//! A command as the file gives it.

use rig_types::WhenFull;
use scsi_words::Direction;

/// A command whose buffer isn't made yet: the fill stands in its place.
#[derive(Drop)]
pub struct Spelled {
    pub unit: u8,
    pub cdb: Vec<u8>,
    pub segments: Vec<u32>,
    pub direction: Direction,
    pub fill: u8,
    pub when_full: WhenFull,
    pub wait: bool,
}

//! What a unit keeps of a command that is dropped, and of a reset.

ghost use Rattle.std.specs.Prelude.{◌≡◌};
ghost use Rattle.plain_lun.specs.Losing.{dropped, cleared};

use crate::lun::{BLOCK_BYTES, Lun};
use cdb_codec::Cdb;

impl Lun {
    /// Drops a command that has received these bytes. A write stores their whole blocks, where the unit
    /// has these blocks; nothing else changes.
    #[tactic(auto, unfolding(crate::specs::Losing::dropped, crate::specs::Performing::stored, crate::specs::Performing::holds))]
    pub fn drop_command(&mut self, c: &Cdb, received: &[u8])
        ensures { self.new ≡ dropped self.old c.now received.now }
    {
        if let Cdb::Write { lba, .. } = *c {
            let blocks = received.len() / BLOCK_BYTES;
            if lba as u64 + blocks as u64 <= (self.disk.len() / BLOCK_BYTES) as u64 {
                let at = lba as usize * BLOCK_BYTES;
                let bytes = blocks * BLOCK_BYTES;
                self.disk[at..at + bytes].copy_from_slice(&received[..bytes]);
            }
        }
    }

    /// Resets the unit: its sense is removed, and its attention set.
    #[tactic(auto, unfolding(crate::specs::Losing::cleared))]
    pub fn clear(&mut self)
        ensures { self.new ≡ cleared self.old }
    {
        self.sense = None;
        self.attention = true;
    }
}

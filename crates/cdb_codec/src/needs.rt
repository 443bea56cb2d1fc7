//! What a command needs.

ghost use Rattle.std.specs.Prelude.{◌≡◌};
ghost use Rattle.cdb_codec.specs.Forms.{FitsForm, need_of, gives};

use crate::commands::{Cdb, Need};
use scsi_words::Direction;

/// Sense data in the fixed form, in bytes.
const SENSE_BYTES: u32 = 18;
/// Standard inquiry data, in bytes.
const INQUIRY_BYTES: u32 = 36;
/// A block, in bytes.
const BLOCK_BYTES: u32 = 512;

/// Which way the data of a command go, and how many bytes they are at most. `BadField` and `Other`
/// need nothing.
///
/// Condition: the numbers of `c` fit its form, as those that `read_cdb` gives do.
pub fn need(c: &Cdb) -> Need
    requires { FitsForm c.now }
    ensures { result ≡ need_of c.now }
{
    match *c {
        Cdb::RequestSense { len } => gives(SENSE_BYTES.min(len as u32)),
        Cdb::Inquiry { len } => gives(INQUIRY_BYTES.min(len as u32)),
        Cdb::ReadCapacity => gives(8),
        Cdb::Read { blocks, .. } => gives(BLOCK_BYTES * blocks),
        Cdb::Write { blocks, .. } => Need {
            direction: Direction::Out,
            bytes: BLOCK_BYTES * blocks,
        },
        Cdb::TestUnitReady | Cdb::BadField | Cdb::Other => Need {
            direction: Direction::None,
            bytes: 0,
        },
    }
}

fn gives(bytes: u32) -> Need
    ensures { result ≡ gives bytes }
{
    Need {
        direction: Direction::In,
        bytes,
    }
}

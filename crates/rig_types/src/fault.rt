//! Why a file is refused.

ghost use Rattle.std.specs.Prelude.{◌≡◌};
ghost use Rattle.rig_types.specs.declared.fault.ReadFault.TheVariants.{OutOfMemory};

use scsi_words::Text;
use std::alloc::{AllocError, AllocFailed};

/// What is wrong at a key.
#[derive(Clone, Copy, Debug, PartialEq, Eq)]
pub enum BadKind {
    /// The file is no TOML; its key is the empty text.
    NotToml,
    /// The key isn't there and has no default.
    Missing,
    /// The value is of another type.
    WrongType,
    /// The value is outside its range.
    OutOfRange,
    /// The value contradicts others.
    Clash,
    /// The key isn't one of the table's.
    Unknown,
}

/// Why a file is refused.
#[derive(Debug, Drop)]
pub enum ReadFault {
    /// The first fault: its key, such as `unit[2].depth`, and its kind.
    Bad { key: Text, kind: BadKind },
    /// Memory was wanting.
    OutOfMemory,
}

impl From<AllocError> for ReadFault {
    ghost from_gives = { λ _ fault. fault ≡ OutOfMemory };

    fn from(_error: AllocError) -> ReadFault {
        ReadFault::OutOfMemory
    }
}

impl<T: Drop> From<AllocFailed<T>> for ReadFault {
    ghost from_gives = { λ _ fault. fault ≡ OutOfMemory };

    fn from(_error: AllocFailed<T>) -> ReadFault {
        ReadFault::OutOfMemory
    }
}

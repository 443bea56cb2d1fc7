//! What the tables of rigs and works share.

use rig_types::{BadKind, ReadFault};

/// Whether a file has this first fault.
pub fn is_fault(fault: &ReadFault, key: &str, kind: BadKind) -> bool {
    match fault {
        ReadFault::Bad {
            key: at,
            kind: found,
        } => at.as_str() == key && *found == kind,
        ReadFault::OutOfMemory => false,
    }
}

//! Why Build fails.

use desk_law::Refused;

/// Why Build makes no ticket. The desk and memory are then as before.
#[derive(Clone, Copy, Debug, PartialEq, Eq)]
pub enum BuildFault {
    /// The request is refused.
    Refused(Refused),
    /// Memory is wanting. The request isn't refused.
    OutOfMemory,
}

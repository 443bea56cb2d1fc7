//! The type, apart from the reader `status`, since names that differ only in case can't stand in one module.

/// The status that ends a command.
#[derive(Clone, Copy, Debug, PartialEq, Eq)]
pub enum Status {
    /// GOOD, 0x00.
    Good,
    /// CHECK CONDITION, 0x02.
    Check,
    /// BUSY, 0x08.
    Busy,
    /// RESERVATION CONFLICT, 0x18.
    Conflict,
    /// QUEUE FULL, 0x28.
    QueueFull,
}

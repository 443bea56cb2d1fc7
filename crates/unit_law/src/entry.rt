//! Entries of a unit's log.

use scsi_words::Status;

/// What a unit logs. The first number is a ticket.
#[derive(Clone, Copy, Debug, PartialEq, Eq)]
pub enum LogEntry {
    /// The command was answered BUSY or QUEUE FULL, and not performed.
    Refuse(u32, Status),
    /// The command was performed at its first data phase, since it has data to send.
    Look(u32),
    /// The command ended: it was performed now, or its status is the one kept from Look.
    End(u32),
    /// The command's task was dropped; the second number is the greatest position that its data had reached, in bytes.
    Drop(u32, u32),
    /// A reset: the unit's sense was removed and its attention set.
    Clear,
    /// The driver asked for the sense of the command that had ended.
    Sense(u32),
}

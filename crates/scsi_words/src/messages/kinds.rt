//! The type, apart from the reader `message`, since names that differ only in case can't stand in one module.

/// A message of one byte, or the first byte of a queue tag message, whose second byte is the tag.
#[derive(Clone, Copy, Debug, PartialEq, Eq)]
pub enum Message {
    /// COMMAND COMPLETE, 0x00.
    Complete,
    /// SAVE DATA POINTER, 0x02.
    Save,
    /// RESTORE POINTERS, 0x03.
    Restore,
    /// DISCONNECT, 0x04.
    Leave,
    /// ABORT, 0x06.
    Abort,
    /// MESSAGE REJECT, 0x07.
    Reject,
    /// NO OPERATION, 0x08.
    NoOperation,
    /// BUS DEVICE RESET, 0x0C.
    DeviceReset,
    /// ABORT TAG, 0x0D.
    AbortTag,
    /// SIMPLE QUEUE TAG, 0x20.
    SimpleTag,
    /// HEAD OF QUEUE TAG, 0x21.
    HeadTag,
    /// ORDERED QUEUE TAG, 0x22.
    OrderedTag,
    /// IDENTIFY, 0x80 to 0xFF with bits 5 to 3 clear. `lun` is 0 to 7.
    Identify {
        /// The initiator lets the target disconnect (bit 6).
        may_leave: bool,
        /// The logical unit (bits 2 to 0).
        lun: u8,
    },
}

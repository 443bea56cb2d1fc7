//! The moves of a target that is to choose.

/// What a target that is to choose does next. All but `Rogue` are moves of a unit that keeps the rules.
#[derive(Clone, Copy, Debug, PartialEq, Eq)]
pub enum Move {
    /// A data phase of so many bytes, or with 0 bytes the status.
    Go { bytes: u32 },
    /// The status BUSY, without performing the command.
    Busy,
    /// The status QUEUE FULL, without performing the command.
    QueueFull,
    /// DISCONNECT.
    Leave,
    /// SAVE DATA POINTER and then DISCONNECT.
    SaveLeave,
    /// SAVE DATA POINTER.
    Save,
    /// RESTORE POINTERS.
    Restore,
    /// The move of a unit that breaks the rules, by this word.
    Rogue { word: u32 },
}

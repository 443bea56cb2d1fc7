//! What a target shows while one of its tasks is connected.

use scsi_words::Status;

/// How a task answers.
#[derive(Clone, Copy)]
pub enum Completion {
    /// Its command was or is to be performed, with this status.
    Answered(Status),
    /// Its command is refused by BUSY or QUEUE FULL.
    Refused(Status),
}

/// The messages by which a reselection names its nexus, in their order.
#[derive(Clone, Copy)]
pub enum ReselectByte {
    /// IDENTIFY with the LUN, without the disconnect privilege.
    Identify,
    /// SIMPLE QUEUE TAG.
    SimpleQueueTag,
    /// The tag.
    Tag,
}

/// A message byte from the target. It acts when the initiator releases ACK after it.
#[derive(Clone, Copy)]
pub enum TargetMessage {
    /// A part of a reselection's name.
    Reselection(ReselectByte),
    /// COMMAND COMPLETE, after the status.
    CommandComplete(Completion),
    /// SAVE DATA POINTER, after which DISCONNECT comes.
    SaveThenDisconnect,
    /// SAVE DATA POINTER.
    SaveDataPointer,
    /// RESTORE POINTERS.
    RestorePointers,
    /// DISCONNECT.
    Disconnect,
}

/// What a target with a connected task shows.
#[derive(Clone, Copy)]
pub enum TaskPhase {
    /// No phase: it is to choose.
    ToChoose,
    /// MSG_OUT, until ATN is released.
    MessageOut,
    /// DATA_IN with so many bytes left, at least 1.
    DataIn(u32),
    /// DATA_OUT with so many bytes left, at least 1.
    DataOut(u32),
    /// STATUS.
    Status(Completion),
    /// MSG_IN with one byte, and whether the byte was sent and waits for ACK to be released.
    MessageIn { message: TargetMessage, sent: bool },
}

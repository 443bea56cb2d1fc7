//! What a target shows whose units break the rules.

use crate::task_phase::ReselectByte;

/// What a connected target of rogue units shows. After each phase it is to choose again.
#[derive(Clone, Copy)]
pub enum RoguePhase {
    /// No phase: it is to choose.
    ToChoose,
    /// MSG_OUT, until ATN is released. It ignores the bytes.
    MessageOut,
    /// DATA_IN with so many bytes left, at least 1, each of them this byte.
    DataIn { left: u32, byte: u8 },
    /// DATA_OUT with so many bytes left, at least 1. It ignores the bytes.
    DataOut { left: u32 },
    /// COMMAND with so many bytes left, at least 1; `None` before its first byte. It ignores the bytes but for
    /// the length that the first one says.
    Command { left: Option<u8> },
    /// STATUS with this byte.
    Status { byte: u8 },
    /// MSG_IN with this byte, and whether it was sent and waits for ACK to be released.
    MessageIn { byte: u8, sent: bool },
    /// MSG_IN with a part of a reselection's name, and whether it was sent.
    Reselection { part: ReselectByte, sent: bool },
}

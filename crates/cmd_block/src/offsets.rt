//! The offsets of fields, as an instruction has them.

/// START.
pub const START: i32 = 0x00;
/// RESTART.
pub const RESTART: i32 = 0x04;
/// LASTP.
pub const LASTP: i32 = 0x08;
/// SAVEP.
pub const SAVEP: i32 = 0x0c;
/// STATE.
pub const STATE: i32 = 0x10;
/// SEL.
pub const SEL: i32 = 0x18;
/// GATE.
pub const GATE: i32 = 0x1c;
/// The table entry of the message bytes.
pub const MSG: i32 = 0x20;
/// The table entry of the command descriptor block.
pub const CMD: i32 = 0x28;
/// The table entry of the status byte.
pub const STAT: i32 = 0x30;
/// The table entry of segment 0. The others follow, 8 bytes apart.
pub const SEGMENT_0: i32 = 0x40;
/// Mismatch context 0.
pub const CONTEXT_0: i32 = 0xc0;
/// The return of mismatch context 0.
pub const RETURN_0: i32 = 0xc8;
/// Mismatch context 1.
pub const CONTEXT_1: i32 = 0xd0;
/// The return of mismatch context 1.
pub const RETURN_1: i32 = 0xd8;

//! The codes of the phases, as instructions of the chip have them.

pub const DATA_OUT: u8 = 0;

pub const DATA_IN: u8 = 1;

pub const COMMAND: u8 = 2;

pub const STATUS: u8 = 3;

pub const MSG_OUT: u8 = 6;

pub const MSG_IN: u8 = 7;

//! The operation codes.

pub const TEST_UNIT_READY: u8 = 0x00;

pub const REQUEST_SENSE: u8 = 0x03;

pub const READ_6: u8 = 0x08;

pub const WRITE_6: u8 = 0x0A;

pub const INQUIRY: u8 = 0x12;

pub const READ_CAPACITY: u8 = 0x25;

pub const READ_10: u8 = 0x28;

pub const WRITE_10: u8 = 0x2A;

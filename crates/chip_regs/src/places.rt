//! The places of the registers that scripts name. A register of four bytes has its lowest byte there.

pub const SFBR: u8 = 0x08;

pub const SSID: u8 = 0x0a;

pub const DSA: u8 = 0x10;

pub const DSA1: u8 = 0x11;

pub const CTEST2: u8 = 0x1a;

pub const TEMP: u8 = 0x1c;

pub const SCRATCHA: u8 = 0x34;

pub const SCRATCHB: u8 = 0x5c;

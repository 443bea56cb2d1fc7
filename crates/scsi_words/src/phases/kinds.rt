//! The types, apart from the reader `phase`, since names that differ only in case can't stand in one module.

/// An information transfer phase of the bus. The reserved codes 4 and 5 are none.
#[derive(Clone, Copy, Debug, PartialEq, Eq)]
pub enum Phase {
    DataOut,
    DataIn,
    Command,
    Status,
    MsgOut,
    MsgIn,
}

/// Which way a command's data goes, seen from the host.
#[derive(Clone, Copy, Debug, PartialEq, Eq)]
pub enum Direction {
    /// No data.
    None,
    /// From the target to the host.
    In,
    /// From the host to the target.
    Out,
}

//! Whose a word of host memory is.

/// The owner of a word of host memory.
#[derive(Clone, Copy, Debug, PartialEq, Eq)]
pub enum Owner {
    /// The driver script, or the chains.
    Program,
    /// The words that driver and script share, or a block that no command has.
    Control,
    /// The start ring.
    StartRing,
    /// The done ring.
    DoneRing,
    /// A tag table of this unit of the rig.
    Table(u8),
    /// The command block of this live ticket.
    Block(u32),
    /// A chunk of this live ticket.
    Chunk(u32),
    /// Nobody.
    Free,
}

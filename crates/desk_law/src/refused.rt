//! Why a request is refused.

/// What is wrong with a request, in the order in which it is tested.
#[derive(Clone, Copy, Debug, PartialEq, Eq)]
pub enum Kind {
    /// The rig has no such unit.
    NoUnit,
    /// The descriptor block is empty, or hasn't the length of its first byte.
    CdbLength,
    /// More than 16 segments.
    TooManySegments,
    /// Data without a segment.
    NoSegment,
    /// A segment of 0 bytes.
    ZeroSegment,
    /// More than 65,536 bytes.
    TooLarge,
    /// The command's data go another way, or there are segments without data.
    Direction,
    /// The segments have fewer bytes than the command needs: `need` and `has`.
    TooShort { need: u32, has: u32 },
}

/// Why a request is refused.
#[derive(Clone, Copy, Debug, PartialEq, Eq)]
pub enum Refused {
    /// As many tickets of the unit live as its depth.
    LunFull { depth: u16 },
    /// No free chunk suffices for this length.
    RegionFull { len: u32 },
    /// The request is wrong.
    BadRequest(Kind),
}

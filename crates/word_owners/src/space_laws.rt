//! Laws of what Build takes and writes. Each function does nothing; its contract is the law.

ghost use Rattle.word_owners.specs.BuiltBlocks.{BlockBuilt};
ghost use Rattle.word_owners.specs.Builds.{BuildAdds, BuildsHold};
ghost use Rattle.word_owners.specs.BuiltTickets.{TicketsBuilt};
ghost use Rattle.word_owners.specs.Callers.{CallersKept};
ghost use Rattle.word_owners.specs.FreePlaces.{PlacesFree};
ghost use Rattle.word_owners.specs.KeptDesks.{DesksKept};
ghost use Rattle.word_owners.specs.Spaces.{BuffersOwned, BuildOwns, FreeOwns, OpeningOwns, StaysOwned};

/// Live tickets own parts of the buffer region: each piece of a buffer lies in a chunk that is out of the desk's space, and
/// no two such chunks share an address. It holds at the opening; Build keeps it, with the pieces of its ticket in chunks
/// that were free, and Free, which gives those of its ticket back; so does each step that leaves the space and the pieces,
/// and brings no ticket to life. So the buffers of live tickets lie in the region, and two of them share no byte.
pub fn space_is_owned()
    ensures opening { OpeningOwns }
    ensures build { BuildOwns }
    ensures free { FreeOwns }
    ensures others { StaysOwned }
    ensures buffers { BuffersOwned }
{}

/// The block that Build writes is one that the invariant asks for, where the ticket has a command block and at most 16
/// pieces, none of them empty: it isn't started, its GATE is BADTASK, and both data pointers denote the whole buffer.
pub fn block_is_built()
    ensures { BlockBuilt }
{}

/// Where of each unit of a rig at most as many tickets live as its depth, and of this one fewer, the block and the tag that
/// Build takes are free: a command block that no live ticket has, and a byte that no live ticket of the unit has.
pub fn places_are_free()
    ensures { PlacesFree }
{}

/// Build enters a ticket whose block, tag and buffer no live ticket has, and of no unit do more tickets live than its
/// depth: what the invariant asks of live tickets, and what they own of the buffer region, goes on.
pub fn tickets_are_built()
    ensures { TicketsBuilt }
{}

/// Build adds one ticket to the desk, and below the buffer region writes its block alone, as the invariant asks for it.
pub fn builds_add()
    ensures { BuildAdds }
{}

/// An accepted line keeps the invariant, wherever the chip is or stands in a stop: where of no unit more tickets live than
/// its depth, and live tickets own their parts of the buffer region; and it keeps both.
pub fn builds_hold()
    ensures { BuildsHold }
{}

/// Each step of the bench but Build that is enabled keeps that of no unit more tickets live than its depth, and that live
/// tickets own their parts of the buffer region.
pub fn desks_are_kept()
    ensures { DesksKept }
{}

/// Each step keeps the counts of due signals, one for each caller, and the line of each live ticket is one of a submitter: so a
/// signal is never owed to a caller that isn't there.
pub fn callers_are_kept()
    ensures { CallersKept }
{}

//! Laws of targets. Each function does nothing; its contract is the law.

ghost use Rattle.target_law.specs.Laws.{RigsStay, TagsStayDistinct, BeginsAtOnce, LiesByRooms, ResetsHaveRoom};

/// No call changes what the rig says of a target's units.
pub fn rigs_stay()
    ensures { RigsStay }
{}

/// At the opening no two tasks of a unit have one tag, the connected one and those that wait, and no call changes that.
pub fn tags_stay_distinct()
    ensures { TagsStayDistinct }
{}

/// A task begins in the call that takes the last byte of its command descriptor block, or the bus is free then: no
/// command that is whole waits for its task, and the target shows no phase before its next choice.
pub fn begins_at_once()
    ensures { BeginsAtOnce }
{}

/// Logs lie within their rooms exactly where each is no longer than the room of its LUN. A room that is missing is 0.
pub fn lies_by_rooms()
    ensures { LiesByRooms }
{}

/// A reset of a target has room where no unit has more tasks than its depth, and each log has room for that many entries
/// and one more.
pub fn resets_have_room()
    ensures { ResetsHaveRoom }
{}

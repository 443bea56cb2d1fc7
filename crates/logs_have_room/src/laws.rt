//! Laws of the room of logs. Each function does nothing; its contract is the law.

ghost use Rattle.logs_have_room.specs.Laws.{RoomIsReserved, TicketsHaveRoom};

/// Where room is reserved for the entries of a log's tickets, each entry of a ticket that isn't freed has room, and room
/// stays reserved after it.
pub fn tickets_have_room()
    ensures { TicketsHaveRoom }
{}

/// An empty log needs no room; a Build adds room for the most entries of one ticket, a Clear for itself, and a Free needs
/// none.
pub fn room_is_reserved()
    ensures { RoomIsReserved }
{}

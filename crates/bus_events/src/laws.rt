//! Laws of the calls of the bus. Each function does nothing; its contract is the law.

ghost use Rattle.bus_events.specs.Laws.{PhaseMakes, ShownMakes, LeaveMakes, ByteInMakes, ByteOutMakes, SelectMakes, ReselectMakes, SetAtnMakes, ClearAckMakes};
ghost use Rattle.bus_events.specs.BusResets.{BusResetsMove, RoomIsMade};
ghost use Rattle.bus_events.specs.Rooms.{CallsHaveRoom};
ghost use Rattle.bus_events.specs.TicketLaws.{CallsMove, CallsStayJoined, SelectionsTell};

/// What Phase, Shown and Leave make of the targets: a choice of a connected task, or nothing.
pub fn phases_make()
    ensures phase { PhaseMakes }
    ensures shown { ShownMakes }
    ensures leave { LeaveMakes }
{}

/// What ByteIn and ByteOut make of the targets: the connected task has sent or taken the byte.
pub fn bytes_make()
    ensures sent { ByteInMakes }
    ensures taken { ByteOutMakes }
{}

/// What Select and Reselect make of the targets: one target is selected, or a candidate has reselected.
pub fn selections_make()
    ensures select { SelectMakes }
    ensures reselect { ReselectMakes }
{}

/// What SetAtn and ClearAck make of the targets: the connected task hears a message, or one that it sent acts.
pub fn attention_makes()
    ensures atn { SetAtnMakes }
    ensures ack { ClearAckMakes }
{}

/// Each call of the bus is one move of tickets and targets at most, and what holds of them goes on.
pub fn calls_move()
    ensures moves { CallsMove }
    ensures joined { CallsStayJoined }
{}

/// Where each log has room for all that its live tickets may still log, no call of the bus is refused for want of room, and
/// as much to spare is left; BUS DEVICE RESET takes the room of a Clear.
pub fn calls_have_room()
    ensures { CallsHaveRoom }
{}

/// A bus reset is a list of moves, a reset of each target in turn, for which each log has room where it has room for all
/// that its live tickets may still log and for one Clear. What a bus reset reserves before it suffices for that.
pub fn bus_resets_move()
    ensures resets { BusResetsMove }
    ensures room { RoomIsMade }
{}

/// A target that is selected has a unit that is there; a selection that times out on a free bus tells that all units of the
/// target are absent.
pub fn selections_tell()
    ensures { SelectionsTell }
{}

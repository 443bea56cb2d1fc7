//! Laws of the room of logs. Each function does nothing; its contract is the law.

ghost use Rattle.ticket_room.specs.Laws.{LogsStayWithin, ReservesSuffice};

/// After every list of moves: where the log of a unit has room for all that its live tickets may still log, it has so
/// after each move but a Build, and the move's own entries had room; a reset takes the room of its Clear.
pub fn logs_stay_within()
    ensures { LogsStayWithin }
{}

/// The room that a Build and a reset reserve suffices where no more tickets of the unit live than its depth, and there is
/// room for two Clears; a ticket of another unit needs none.
pub fn reserves_suffice()
    ensures { ReservesSuffice }
{}

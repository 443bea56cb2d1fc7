//! Laws of tags and tasks. Each function does nothing; its contract is the law.

ghost use Rattle.ticket_link.specs.Laws.{TagsNameOne, ConnectedIsItsTicket, WaitingAreTheirTickets, OneTargetMoves, IdleCallsRelink};
ghost use Rattle.ticket_link.specs.Pointers.{PointersFollow};
ghost use Rattle.ticket_link.specs.Sessions.{SessionsSayMore};
ghost use Rattle.ticket_link.specs.WorkCalls.{WorkCallsMove};

/// Where each Build takes a tag that no live ticket of the unit has, a tag of a unit names at most one live ticket,
/// after every list of moves.
pub fn tags_name_one()
    ensures { TagsNameOne }
{}

/// A connected task is that of the live ticket of its unit with its tag; the tasks that wait at a unit are those of its
/// tickets that are away, each once and with the ticket's tag.
pub fn tasks_are_their_tickets()
    ensures connected { ConnectedIsItsTicket }
    ensures waiting { WaitingAreTheirTickets }
{}

/// A move leaves every target but one, and the tickets of every target but that one.
pub fn one_target_moves()
    ensures { OneTargetMoves }
{}

/// Where no task is connected to a target, a selection, a choice, a byte before a task begins, a message and an
/// acknowledgement change its link alone, and are moves of the machine; BUS DEVICE RESET is a reset of the target.
pub fn idle_calls_relink()
    ensures { IdleCallsRelink }
{}

/// A byte, a message and an acknowledgement in a task's connection, an ATN, and BUS DEVICE RESET among them, are each a
/// move of the machine, which says what its ticket becomes.
pub fn work_calls_move()
    ensures { WorkCallsMove }
{}

/// A data byte moves the position of its task on by one; SAVE DATA POINTER saves it, RESTORE POINTERS and leaving the bus go
/// back to the saved one; nothing else moves either.
pub fn pointers_follow()
    ensures { PointersFollow }
{}

/// A refusal comes before anything has moved and isn't GOOD, a data phase isn't fresh, and a fresh task has moved nothing
/// and keeps nothing, also while it waits; a sense task refuses nothing.
pub fn sessions_say_more()
    ensures { SessionsSayMore }
{}

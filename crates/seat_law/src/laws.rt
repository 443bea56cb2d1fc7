//! Laws of lists and of submitters. Each function does nothing; its contract is the law.

ghost use Rattle.seat_law.specs.Laws.{LeadsOnce, GoesOn, OthersLeaveStanding, AnsweredAtOnce, SubmitterTold, SubmitterServed, ToldDrained, ToldFull};

/// A list leads to one world, and a longer list goes on from there.
pub fn list_has_one_world()
    ensures once { LeadsOnce }
    ensures goes_on { GoesOn }
{}

/// Steps of other callers leave a submitter where it stands, with the lines that are decided of it.
pub fn others_leave_standing()
    ensures { OthersLeaveStanding }
{}

/// A submitter's Link, Queue and Signal, each in its turn, are made at once, or the list is full.
pub fn answered_at_once()
    ensures { AnsweredAtOnce }
{}

/// What a submitter's seat is answered: to its Build of a line while it rests, and to its steps after that.
pub fn submitter_is_answered()
    ensures told { SubmitterTold }
    ensures served { SubmitterServed }
{}

/// Where a caller is told that all is drained, or that the list is full, it is so in the list that its seat has then seen.
pub fn told_of_the_end()
    ensures drained { ToldDrained }
    ensures full { ToldFull }
{}

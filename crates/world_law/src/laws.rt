//! Laws of the world. Each function does nothing; its contract is the law.

ghost use Rattle.world_law.specs.Laws.{OpensMemory, GoesOn, WentOn, EndsAfter, RestsDrained, EnabledOrNot, DoesOnce, RunsOnce, TracesOne, AnswersOnce, AnswersRunOn, ReportsAccepted, ReportsAll, StaysFreed, TicketsKept, LinesMatch, OthersLeave, OpensAlike, Extends};

/// Host memory at the opening is that of opening_memory's table.
pub fn opens_memory()
    ensures { OpensMemory }
{}

/// A run one moment longer is the run, and then this moment, after which the world is the moment's.
pub fn one_moment_longer()
    ensures longer { GoesOn }
    ensures shorter { WentOn }
    ensures world { EndsAfter }
{}

/// Whether a step is enabled is decided.
pub fn enabled_or_not()
    ensures { EnabledOrNot }
{}

/// A call has one answer, but for want of memory. Where the answer is recorded it is one more moment of the run, and
/// where it isn't it leaves the world.
pub fn one_answer()
    ensures once { AnswersOnce }
    ensures runs_on { AnswersRunOn }
{}

/// In a drained world no step is enabled.
pub fn rests_drained()
    ensures { RestsDrained }
{}

/// A step has one answer and leaves one world; so a list of entries has one run, and a trace one lawful list: the
/// callers that it doesn't tell are fixed by the world.
pub fn one_run()
    ensures step { DoesOnce }
    ensures entries { RunsOnce }
    ensures trace { TracesOne }
{}

/// The tickets of a run are numbered as they were accepted; every report is of one of them, at most once; every ticket
/// that is freed has one, and so has every ticket where the world is drained. A ticket that is freed stays so.
pub fn reports_accepted()
    ensures accepted { ReportsAccepted }
    ensures all { ReportsAll }
    ensures freed { StaysFreed }
{}

/// A ticket keeps what Build gave it. A line that was accepted as a ticket is the ticket's, and each ticket's line was
/// accepted as this ticket.
pub fn tickets_keep()
    ensures kept { TicketsKept }
    ensures lines { LinesMatch }
{}

/// A step of another caller leaves a submitter's next line, its due signals and its tickets that are Built or Linked.
pub fn others_leave()
    ensures { OthersLeave }
{}

/// Where a submitter gets one more line, the world opens as before, and a run stays a run: so it leads to the same world.
pub fn longer_works()
    ensures opening { OpensAlike }
    ensures run { Extends }
{}

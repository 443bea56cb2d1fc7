//! Laws of logs. Each function does nothing; its contract is the law.

ghost use Rattle.unit_law.specs.Laws.{RunsOn, CountsOn, AnswersEndWell, DataWithinNeed, DropsStoreBlocks};

/// A log one entry longer runs as the shorter log and then this entry; so does its tally.
pub fn longer_logs()
    ensures runs { RunsOn }
    ensures counts { CountsOn }
{}

/// No answer of a log is BUSY or QUEUE FULL: it is GOOD or CHECK CONDITION.
pub fn answers_end_well()
    ensures { AnswersEndWell }
{}

/// The data of an answer are no longer than the need of the ticket's command.
pub fn data_within_need()
    ensures { DataWithinNeed }
{}

/// A dropped write stores the whole blocks of what it received, and every other block stays.
pub fn drops_store_blocks()
    ensures { DropsStoreBlocks }
{}

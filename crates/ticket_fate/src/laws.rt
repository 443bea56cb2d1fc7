//! Laws of tickets. Each function does nothing; its contract is the law.

ghost use Rattle.ticket_fate.specs.Laws.{ReportsFit, HistoriesEnd, UnitsRunTheirLogs, NoneLostAfterEnd, EntriesAreFew};

/// After every list of moves from the opening, the report of each freed ticket fits its unit's log, and so does its sense.
pub fn reports_fit()
    ensures { ReportsFit }
{}

/// The history that the moves made of a freed ticket is as it was at its Free: none of its entries lies outside its life,
/// and no Clear of its unit's log came without a reset of its target.
pub fn histories_end()
    ensures { HistoriesEnd }
{}

/// After every list of moves from the opening, each unit is what its log makes of its opening.
pub fn units_run_their_logs()
    ensures { UnitsRunTheirLogs }
{}

/// A freed ticket whose unit's log has End of it is neither Cut nor Reset.
pub fn none_lost_after_end()
    ensures { NoneLostAfterEnd }
{}

/// After every list of moves from the opening, a ticket's entries in its unit's log are at most as many refusals as the
/// unit makes of one ticket, one Look, one End or Drop, and one Sense: the room that its Build reserves suffices.
pub fn entries_are_few()
    ensures { EntriesAreFew }
{}

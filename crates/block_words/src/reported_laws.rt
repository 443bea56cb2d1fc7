//! Laws of the reports of a run. Each function does nothing; its contract is the law.

ghost use Rattle.block_words.specs.EndingSteps.{JoinedStepsReport, SweepsReport, TakesReport};
ghost use Rattle.block_words.specs.ReportedRuns.{ReportedRunsFit, ReportsStay, RunsReport};

/// In a joined run what agrees with tickets that have their outcome, and that the reports made so far are those of the moves, goes on
/// over each step that is joined. Of TakeDone and Sweep it is asked that what agrees does so of the ticket that the step ends.
pub fn reports_stay()
    ensures { ReportsStay }
{}

/// Then every report that the bench has made in such a run fits the log of its unit, with the run's history, and so does its sense.
pub fn reported_runs_fit()
    ensures { ReportedRunsFit }
{}

/// Where the steps of the chip, TakeDone and Sweep leave each run so that was so (`WordsReport`), every run is so: it is joined to a
/// list of moves, and its reports are those of the moves.
pub fn runs_report()
    ensures { RunsReport }
{}

/// Where STATE and STATUS agree with the life of the ticket that TakeDone takes, and its buffer, its LASTP and its sense area with the
/// ticket (`EndAgrees`), a joined and reported run is so after the step too. Of a unit that breaks the rules nothing is asked.
pub fn takes_report()
    ensures { TakesReport }
{}

/// And so after Sweep of a ticket that a reset took from the chip.
pub fn sweeps_report()
    ensures { SweepsReport }
{}

/// And so after every other step that is joined, those of the chip among them.
pub fn joined_steps_report()
    ensures { JoinedStepsReport }
{}

//! Laws of what a run says. Each function does nothing; its contract is the law.

ghost use Rattle.run_law.specs.Laws.{NotesOn, WatchesOn, SerialRuns, SerialOnce};
ghost use Rattle.run_law.specs.Rows.{RequestRows, TagRows, BlockRows, TakingRows, ResidualRows, RingRows, TailRows, OwnerRows, WordRows, ReaperRow, BoundRows, HistoryRows, CandidateRows};

/// A ticket's history over a run one moment longer is that of the run, and then this moment; so is what is watched of
/// its data moves.
pub fn longer_histories()
    ensures notes { NotesOn }
    ensures watches { WatchesOn }
{}

/// A serial run is a run, and a seed has one.
pub fn one_serial_run()
    ensures run { SerialRuns }
    ensures once { SerialOnce }
{}

/// What the definitions of the bench give for small inputs, computed.
pub fn worked_rows()
    ensures requests { RequestRows }
    ensures tags { TagRows }
    ensures blocks { BlockRows }
    ensures taking { TakingRows }
    ensures residuals { ResidualRows }
    ensures rings { RingRows }
    ensures tails { TailRows }
    ensures owners { OwnerRows }
    ensures words { WordRows }
    ensures reaper { ReaperRow }
    ensures bounds { BoundRows }
    ensures histories { HistoryRows }
    ensures candidates { CandidateRows }
{}

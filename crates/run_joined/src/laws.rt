//! Laws of runs and moves. Each function does nothing; its contract is the law.

ghost use Rattle.run_joined.specs.BlockWords.{BlocksAgree};
ghost use Rattle.run_joined.specs.ChipCalls.{ChipStepsJoin};
ghost use Rattle.run_joined.specs.DeskLives.{DeskStepsMove, DoneStepsMove, ChipLeavesDesk};
ghost use Rattle.run_joined.specs.Joined.{DriverStepsJoin, OpeningIsJoined, WordStepsJoin};
ghost use Rattle.run_joined.specs.JoinedRuns.{JoinedRunsFit, RunsJoin};
ghost use Rattle.run_joined.specs.Plans.{PlansExist, PlansStay};
ghost use Rattle.run_joined.specs.Matching.{HistoriesTie, FreedHistories, FreedReportsFit};

/// Where a run's changes say of a ticket what the moves say, the run's history of it is that of the moves; once it is freed,
/// this is its history at its Free, and its report fits its unit's log with it.
pub fn histories_tie()
    ensures tied { HistoriesTie }
    ensures freed { FreedHistories }
    ensures fits { FreedReportsFit }
{}

/// Each step of the driver on the desk is a step of its ticket, and the desk goes on to have each ticket's stage, tag, unit,
/// tries and outcome.
pub fn desk_steps_move()
    ensures { DeskStepsMove }
{}

/// The chip's steps, calls of the bus, pointers that it writes and marks leave what the desk has of each ticket.
pub fn chip_leaves_desk()
    ensures { ChipLeavesDesk }
{}

/// TakeDone, where the words of the ticket's block tell what its life says, and Sweep are each a step of the ticket.
pub fn done_steps_move()
    ensures { DoneStepsMove }
{}

/// Every run over a work of bytes has a plan: the request of each ticket, which the driver accepts, and the units of the rig.
/// It was the plan at each moment before.
pub fn plans_exist()
    ensures exist { PlansExist }
    ensures stay { PlansStay }
{}

/// The opening of a bench is an opening of tickets and targets: no ticket is built, no target is connected, and the targets
/// have just the units of the rig, each at its own opening.
pub fn opening_is_joined()
    ensures { OpeningIsJoined }
{}

/// Every step of the driver but TakeDone and Sweep leads from a world that is joined to tickets and targets to one that is so
/// again, by a list of moves that says of each ticket what the step says: Build, Link, Queue, Signal, Fix, Restart, Unlink,
/// Free, Sense, an abort, a device reset, and each reset of the bus.
pub fn driver_steps_join()
    ensures { DriverStepsJoin }
{}

/// So are TakeDone, where the words of the ticket's block tell what its life says, and Sweep of a ticket that a reset took from
/// the chip.
pub fn word_steps_join()
    ensures { WordStepsJoin }
{}

/// So is a step of the chip, where each call of the bus finds of the tickets what it asks, and BUS DEVICE RESET comes where the run
/// says so and has its room; then the chip may make moves of tickets of its own: a selection, one that timed out, a cancelled
/// ticket, pointers that it writes.
pub fn chip_steps_join()
    ensures { ChipStepsJoin }
{}

/// Where the steps of the chip, TakeDone and Sweep leave each run joined that was so (`WordsJoin`), every run is joined to a list of
/// moves of tickets and targets: the moves lead from the opening to the world after the run, and the history of each ticket in
/// the run is that of the moves.
pub fn runs_join()
    ensures { RunsJoin }
{}

/// In a run that is so joined the report of each freed ticket, as the moves make it, and its sense fit the log of its unit in the
/// world after the run, with the run's history, and the desk has its outcome and its tries; and each unit is what its log makes
/// of its opening.
pub fn joined_runs_fit()
    ensures { JoinedRunsFit }
{}

/// Where STATE, STATUS and RESTART of a ticket's block agree with its life, TakeDone finds what its life says: it is to be queued
/// again, or to be asked for its sense, or has its outcome. Only a unit that keeps the rules ends a ticket with an answer.
pub fn blocks_agree()
    ensures { BlocksAgree }
{}

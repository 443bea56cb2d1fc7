//! Laws of replays. Each function does nothing; its contract is the law.

ghost use Rattle.replay_run.specs.Laws.{OneReplay, RunsReplay};

/// A trace has one answer, but for want of memory: one world, or one fault at one line, or the limit of steps.
pub fn one_replay()
    ensures { OneReplay }
{}

/// The lines of a run that is within the limit and drains the bench are replayed, to the world of the run.
pub fn runs_replay()
    ensures { RunsReplay }
{}

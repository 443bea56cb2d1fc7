//! What holds of every result. Each function does nothing; its contract is the law, which the laws that it calls give.

ghost use Rattle.bench_jobs.specs.Laws.{OneResult, StepReplays};

use replay_run::{one_replay, runs_replay};

/// A serial run, one over generated work and a replay have one answer each, but for want of memory.
pub fn one_result()
    ensures { OneResult }
{
    one_replay();
}

/// The trace of a serial run, read again and replayed over the same rig and work, gives the report text of the run.
pub fn step_replays()
    ensures { StepReplays }
{
    runs_replay();
}

//! A law of steps. The function does nothing; its contract is the law.
ghost use Rattle.bench_lock.specs.Stepped.{StepsAfterOthers};

use crate::machine::Machine;

/// Where a seat steps, the machine's list is what the seat had seen, with entries of other callers behind it, and then
/// this step where it is recorded.
pub fn steps_after_others<M: Machine>()
    ensures { StepsAfterOthers M.allows M.records }
{}

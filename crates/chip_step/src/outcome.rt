//! How a step ends.

ghost use Rattle.std.specs.Prelude.{◌≡◌};
ghost use Rattle.chip_regs.specs.Registers.{stop_with};

use chip_regs::{Cause, Regs};

/// How a step ended.
#[derive(Clone, Copy, Debug, PartialEq, Eq)]
pub enum StepEnd {
    /// The instruction was executed.
    Ran,
    /// Nothing changed: the chip is stopped, or waits for a reselection.
    Idle,
    /// The chip is stopped now.
    Stopped(Cause),
}

/// Stops the chip for a cause.
pub fn stop(regs: &mut Regs, cause: Cause) -> StepEnd
    ensures stopped { regs.new ≡ stop_with cause regs.old }
    ensures end { result ≡ StepEnd.Stopped cause }
{
    regs.stop(cause);
    StepEnd::Stopped(cause)
}

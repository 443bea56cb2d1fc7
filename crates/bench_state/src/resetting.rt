//! The reset of the bus.

ghost use Rattle.std.specs.Prelude.{◌≡◌, OnOk, OnErr};
ghost use Rattle.world_law.specs.Resets.{resume_at, resets};
ghost use Rattle.bench_state.specs.States.{with_world};

use crate::state::State;
use crate::sweeping::is_in_tail;
use abort_reset::front_idle;
use chip_regs::Cause;
use std::alloc::AllocError;
use world_law::Stop;

/// Where a chip goes on after a reset of the bus that met it in the tail; `None` where it starts anew.
fn resume_at(stop: Stop, dsp: u32) -> Option<u32>
    ensures { result ≡ resume_at stop dsp }
{
    match stop {
        Stop::Run => { if is_in_tail(dsp) { Some(dsp) } else { None } }
        Stop::Mismatch | Stop::Clear | Stop::MustReset => None,
    }
}

impl State {
    /// Resets the bus: FRONT is idle, RST is the one cause of the stop, and tickets are to be swept. A chip that ran in
    /// the tail is to go on there. An `Err` is want of memory for the logs, and nothing has changed.
    pub fn reset_bus(&mut self) -> Result<(), AllocError>
        ensures ok { OnOk result (self.new ≡ with_world self.old (resets self.old.world)) }
        ensures err { OnErr result (self.new ≡ self.old) }
    {
        self.bus.bus.reset()?;
        front_idle(&mut self.words);
        self.regs.clear_stops();
        self.regs.con = false;
        self.regs.stop(Cause::Rst);
        self.resume = resume_at(self.stop, self.regs.dsp);
        self.stop = Stop::Clear;
        Ok(())
    }
}

//! Restart: the chip goes on after a stop.

ghost use Rattle.std.specs.Prelude.{◌≡◌};
ghost use Rattle.chip_regs.specs.Registers.{cause_of};
ghost use Rattle.world_law.specs.Resets.{restarted, restarts};
ghost use Rattle.bench_state.specs.States.{with_world};

use crate::state::State;
use abort_reset::front_idle;
use chip_regs::Cause;
use driver_script::{Name, label};
use host_map::JOB;
use world_law::Stop;

impl State {
    /// Where the chip goes on after its stop.
    fn restart_address(&self) -> u32
        ensures { result ≡ (restarted self.now.world (cause_of self.now.world.regs)).dsp }
    {
        match self.regs.stop_cause() {
            Some(Cause::Sto) => {
                if self.regs.dsa == JOB {
                    label(Name::Start)
                } else {
                    label(Name::Notarget)
                }
            }
            Some(Cause::Rst) => match self.resume {
                Some(dsp) => dsp,
                None => label(Name::Start),
            },
            Some(Cause::Ma) => label(Name::Dispatch),
            _ => label(Name::Start),
        }
    }

    /// Whether what stood at FRONT is over with the stop.
    fn ends_front(&self) -> bool
        ensures { result ≡ (restarted self.now.world (cause_of self.now.world.regs)).front_idle }
    {
        match self.regs.stop_cause() {
            Some(Cause::Sto) => self.regs.dsa == JOB,
            Some(Cause::Sir(_)) => true,
            _ => false,
        }
    }

    /// Lets the chip go on after a stop: in the tail after a bus reset that met it there, at DISPATCH after a
    /// mismatch, at NOTARGET after a selection of a command that timed out, else at START.
    pub fn restart(&mut self)
        ensures { self.new ≡ with_world self.old (restarts self.old.world) }
    {
        let dsp = self.restart_address();
        if self.ends_front() {
            front_idle(&mut self.words);
        }
        self.regs.clear_stops();
        self.regs.dsp = dsp;
        self.stop = Stop::Run;
        self.resume = None;
    }
}

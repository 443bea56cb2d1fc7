//! Fix: the data pointer is repaired after a phase mismatch.

ghost use Rattle.std.specs.Prelude.{◌≡◌};
ghost use Rattle.world_law.specs.Repairs.{Fixes};

use crate::state::State;
use driver_script::{Name, label};
use phase_fix::{can_fix, fix};
use world_law::Stop;

impl State {
    /// Repairs the data pointer after a phase mismatch. Where there is nothing that can be repaired, the bus is to be
    /// reset.
    pub fn fix(&mut self)
        ensures setting { self.new.setting ≡ self.old.setting }
        ensures fixes { Fixes self.old.world self.new.world }
    {
        let (block, dsp, left) = (self.regs.dsa, self.regs.dsp, self.regs.dbc);
        if !can_fix(&self.words, block, dsp, left) {
            self.stop = Stop::MustReset;
            return;
        }
        fix(&mut self.words, block, dsp, left);
        self.stop = Stop::Clear;
        self.resume = Some(label(Name::Dispatch));
    }
}

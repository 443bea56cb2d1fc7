//! The bus as the chip sees it: with what knows the rig's units and the live tickets.

ghost use Rattle.std.specs.Prelude.{◌≡◌, length};
ghost use Rattle.chip_step.specs.Chip.{state};
ghost use Rattle.chip_step.specs.Step.{ChipStep};
ghost use Rattle.bus_law.specs.Moves.{moves};

use crate::bus::TargetBus;
use crate::tickets::LiveTickets;
use bench_words::Words;
use chip_regs::Regs;
use chip_step::{Bus, Settled, StepEnd};
use scsi_words::Phase;

/// The bus with what knows the rig's units and the live tickets, which no call of the chip changes.
#[derive(Drop)]
pub struct LiveBus<L> {
    /// The bus.
    pub bus: TargetBus,
    /// What knows the units and the tickets; in a bench the desk.
    pub tickets: L,
}

impl<L: LiveTickets> Bus for LiveBus<L> {
    ghost use Rattle.bus_law.specs.Bus.{signals_of};
    ghost use Rattle.target_bus.specs.Live.{MovesWith};
    ghost use Rattle.target_bus.specs.LiveLaw.{moves_lawfully};

    ghost moves = { λ old event new. MovesWith L.units L.live old.bus old.tickets event new.bus new.tickets };

    ghost signals = { λ live. signals_of live.bus };

    ghost lawful = { moves_lawfully L.units L.live };

    fn phase(&mut self, word: u32) -> Option<Phase> {
        self.bus.phase(word)
    }

    fn shown(&self) -> Option<Phase> {
        self.bus.shown()
    }

    fn byte_in(&mut self) -> Option<u8> {
        self.bus.byte_in()
    }

    fn byte_out(&mut self, b: u8) -> bool {
        self.bus.byte_out(b, &self.tickets)
    }

    fn select(&mut self, target: u8, word: u32) -> Settled {
        self.bus.select(self.tickets.units(), target, word)
    }

    fn reselect(&mut self, word: u32) -> Option<u8> {
        self.bus.reselect(self.tickets.units(), word)
    }

    fn set_atn(&mut self, on: bool) {
        self.bus.set_atn(on);
    }

    fn clear_ack(&mut self) {
        self.bus.clear_ack();
    }

    fn leave(&mut self, word: u32) -> bool {
        self.bus.leave(word)
    }
}

/// Makes one step of the chip over the bus, as `chip_step::step` does, with the word by which targets choose. The units
/// and the tickets stay as they are.
pub fn step<L: LiveTickets>(
    words: &mut Words,
    regs: &mut Regs,
    live: &mut LiveBus<L>,
    word: u32,
) -> StepEnd
    ensures does { ChipStep (moves (L.units live.old.tickets) (L.live live.old.tickets)) word (state words.old regs.old live.old.bus) result
        (state words.new regs.new live.new.bus) }
    ensures tickets { live.new.tickets ≡ live.old.tickets }
    ensures size { length words.new ≡ length words.old }
    ensures idle { result ≡ StepEnd.Idle → state words.new regs.new live.new.bus ≡ state words.old regs.old live.old.bus }
{
    chip_step::step(words, regs, live, word)
}

//! Sweep: the tickets that a reset has lost end.

ghost use Rattle.std.specs.Prelude.{◌≡◌, ◌<◌, length, true};
ghost use Rattle.desk_law.specs.Desk.{ticket, unit, is_rogue, is_sensing};
ghost use Rattle.desk_law.specs.Rings.{is_start_slot, passed};
ghost use Rattle.world_law.specs.Stops.{in_tail, is_tails, job_target, loses, to_sweep, sweep};
ghost use Rattle.world_law.specs.Resets.{sweep_outcome, sweeps};
ghost use Rattle.bench_state.specs.States.{with_world};

use crate::state::State;
use abort_reset::in_tail;
use chip_regs::Cause;
use cmd_block::{Field, LIVE, read};
use desk_law::Stage;
use host_map::{JOB, RINGP, START_RING};
use rig_types::Outcome;
use world_law::Stop;

/// The vector with which the script ends a device reset.
const JOB_DONE: u32 = 5;

/// Whether an address is that of a start slot.
fn is_start_slot(address: u32) -> bool
    ensures { result ≡ is_start_slot address }
{
    address >= START_RING && address < START_RING + 4096 && (address - START_RING) % 8 == 0
}

/// Whether an address lies in the tail of the script.
#[tactic(auto, using(crate::proofs::Tails::tail_is))]
pub(crate) fn is_in_tail(dsp: u32) -> bool
    ensures { result ≡ in_tail dsp }
{
    in_tail(dsp)
}

impl State {
    /// Whether a ticket is Queued and its block doesn't wait in the start ring. Nothing waits where RINGP is no slot.
    #[tactic(auto, using(crate::proofs::StartRing::slot_is, crate::proofs::StartRing::nothing_waits))]
    fn passed(&self, t: u32) -> bool
        requires { t < length self.now.world.desk.tickets }
        ensures { result ≡ passed self.now.world.memory self.now.world.desk (ticket self.now.world.desk t) }
    {
        if is_start_slot(self.words.get(RINGP)) {
            self.bus.tickets.desk.passed(&self.words, t)
        } else {
            matches!(self.bus.tickets.desk.stage(t), Stage::Queued)
        }
    }

    /// The target of the device reset.
    fn job_target(&self) -> u32
        ensures { result ≡ job_target self.now.world }
    {
        read(&self.words, JOB, Field::Sel) / 0x1_0000
    }

    /// The target of a ticket's unit.
    fn target_of(&self, t: u32) -> u32
        requires { t < length self.now.world.desk.tickets }
        ensures { result ≡ (unit self.now.world.desk (ticket self.now.world.desk t).unit).target }
    {
        match self
            .bus
            .tickets
            .rig
            .units
            .as_slice()
            .get(self.bus.tickets.desk.unit(t) as usize)
        {
            Some(unit) => u32::from(unit.target),
            None => 0,
        }
    }

    /// Whether a ticket's unit breaks the rules of the bus.
    fn is_rogue(&self, t: u32) -> bool
        requires { t < length self.now.world.desk.tickets }
        ensures { result ≡ is_rogue self.now.world.desk (ticket self.now.world.desk t) }
    {
        match self
            .bus
            .tickets
            .rig
            .units
            .as_slice()
            .get(self.bus.tickets.desk.unit(t) as usize)
        {
            Some(unit) => unit.rogue,
            None => false,
        }
    }

    /// Whether a stop for this cause loses a ticket: a bus reset what is passed or senses, a device reset what is
    /// passed and of its target.
    fn loses(&self, t: u32, cause: Option<Cause>) -> bool
        requires { t < length self.now.world.desk.tickets }
        ensures { result ≡ loses self.now.world (ticket self.now.world.desk t) cause }
    {
        match cause {
            Some(Cause::Rst) => self.passed(t)
                || matches!(self.bus.tickets.desk.stage(t), Stage::Sensing),
            Some(Cause::Sir(vector)) => {
                vector == JOB_DONE && self.passed(t) && self.target_of(t) == self.job_target()
            }
            _ => false,
        }
    }

    /// Whether a ticket's block is the one in the tail, where the chip is to go on there.
    fn is_tails(&self, t: u32) -> bool
        requires { t < length self.now.world.desk.tickets }
        ensures { result ≡ is_tails self.now.world (ticket self.now.world.desk t) }
    {
        match self.resume {
            Some(dsp) => is_in_tail(dsp) && self.regs.dsa == self.bus.tickets.desk.block(t),
            None => false,
        }
    }

    /// Whether a ticket is to be swept: the reset loses it, the script hasn't ended it, and it isn't the tail's.
    fn is_to_sweep(&self, t: u32) -> bool
        requires { t < length self.now.world.desk.tickets }
        ensures { result ≡ to_sweep self.now.world (ticket self.now.world.desk t) }
    {
        matches!(self.stop, Stop::Clear)
            && read(&self.words, self.bus.tickets.desk.block(t), Field::State) == LIVE
            && !self.is_tails(t)
            && self.loses(t, self.regs.stop_cause())
    }

    /// Whether a ticket of any number is to be swept.
    #[tactic(auto, using(crate::proofs::TicketLaws::none_there, crate::proofs::Sweeps::none_to_sweep))]
    pub(crate) fn may_be_swept(&self, t: u32) -> bool
        ensures { result ≡ to_sweep self.now.world (ticket self.now.world.desk t) }
    {
        t < self.bus.tickets.desk.ticket_count() && self.is_to_sweep(t)
    }

    /// The least ticket that is to be swept. Tickets are looked through in Clear alone.
    #[tactic(auto, using(crate::proofs::Sweeps::first_to_sweep, crate::proofs::Sweeps::none_swept, crate::proofs::Sweeps::not_in_clear))]
    pub fn next_sweep(&self) -> Option<u32>
        ensures { result ≡ sweep self.now.world }
    {
        if !matches!(self.stop, Stop::Clear) {
            return None;
        }
        for t in 0..self.bus.tickets.desk.ticket_count() {
            if self.is_to_sweep(t) {
                return Some(t);
            }
        }
        None
    }

    /// What becomes of a ticket that is swept: one whose sense was asked for has its status, and one of a unit that
    /// breaks the rules is broken.
    fn sweep_outcome(&self, t: u32) -> Outcome
        requires { t < length self.now.world.desk.tickets }
        ensures { result ≡ sweep_outcome (is_sensing (ticket self.now.world.desk t).stage)
            (is_rogue self.now.world.desk (ticket self.now.world.desk t)) }
    {
        if matches!(self.bus.tickets.desk.stage(t), Stage::Sensing) {
            Outcome::Done
        } else if self.is_rogue(t) {
            Outcome::Broken
        } else {
            Outcome::Reset
        }
    }

    /// Ends a ticket that is to be swept, and closes its block to the script.
    #[tactic(auto, using(crate::proofs::Sweeps::swept_is_there, crate::proofs::Sweeps::swept_may_end, crate::proofs::Sweeps::swept_lives, crate::proofs::CountLaws::live_count_stays, crate::proofs::CountLaws::live_before_stays))]
    pub fn sweep(&mut self, t: u32)
        requires { to_sweep self.old.world (ticket self.old.world.desk t) ≡ true }
        ensures { self.new ≡ with_world self.old (sweeps self.old.world t) }
    {
        let outcome = self.sweep_outcome(t);
        let block = self.bus.tickets.desk.block(t);
        abort_reset::sweep(&mut self.words, block);
        self.bus.tickets.desk.end(t, outcome);
    }
}

//! The resets that an act asks for: of one target by a message, and of the bus.

ghost use Rattle.std.specs.Prelude.{◌≡◌, ◌<◌, ◌+◌, ◌^◌, length, slice_get, sum, true, Some, OnOk, OnErr};
ghost use Rattle.rig_types.specs.declared.acts.ActKind.TheVariants as kind;
ghost use Rattle.rig_types.specs.declared.step.Step.TheVariants as step;
ghost use Rattle.world_law.specs.declared.reply.Reply.TheVariants.{Started};
ghost use Rattle.world_law.specs.Acts.{answers, cause_at, device_resets};
ghost use Rattle.world_law.specs.Enabling.{Enabled};
ghost use Rattle.world_law.specs.Resets.{resets};
ghost use Rattle.bench_state.specs.States.{with_world};
ghost use Rattle.bench_state.specs.Making.{is_held, HasTarget, Makes, MakesAct};

use crate::state::State;
use abort_reset::front_job;
use chip_regs::Cause;
use host_map::FRONT_IDLE;
use rig_types::{Act, ActKind};
use std::alloc::AllocError;
use world_law::{Reply, Stop};

impl State {
    /// Puts the reset of a target at FRONT, and makes a signal of the aborter due. The act is open. An `Err` is want of
    /// memory for the target's logs, and nothing has changed.
    #[tactic(auto, using(crate::proofs::CountLaws::due_within))]
    fn start_device(&mut self, target: u8) -> Result<(), AllocError>
        requires open { length self.old.world.acts < length self.old.setting.acts }
        requires target { target < 7 }
        requires few { sum self.old.world.desk.due + 1 < 2 ^ 32 }
        ensures ok { OnOk result (self.new ≡ with_world self.old (device_resets true self.old.world target).world) }
        ensures err { OnErr result (self.new ≡ self.old) }
    {
        let aborter = self.aborter();
        let callers = self.bus.tickets.desk.caller_count();
        prove!(aborter < callers);
        self.bus.bus.reserve_at(target)?;
        front_job(&mut self.words, target);
        self.bus.tickets.desk.owe(aborter);
        self.acts.push_reserved(Reply::Started);
        Ok(())
    }

    /// Resets a target by a message, where FRONT is idle. The act is open.
    #[tactic(auto, using(crate::proofs::ActsMade::device_busy, crate::proofs::ActsMade::device_wants, crate::proofs::ActsMade::device_does))]
    pub fn reset_device(&mut self, target: u8) -> Reply
        requires open { length self.old.world.acts < length self.old.setting.acts }
        requires target { target < 7 }
        requires few { sum self.old.world.desk.due + 1 < 2 ^ 32 }
        ensures setting { self.new.setting ≡ self.old.setting }
        ensures makes { MakesAct self.old.world (kind.Device target) result self.new.world }
    {
        let front = self.front();
        if front != FRONT_IDLE {
            return Reply::BusyFront(front);
        }
        match self.start_device(target) {
            Ok(()) => Reply::Started,
            Err(_) => Reply::OutOfMemory,
        }
    }

    /// Whether a mismatch is to be repaired or tickets are to be swept.
    fn is_held(&self) -> bool
        ensures { result ≡ is_held self.now.world.stop }
    {
        matches!(self.stop, Stop::Mismatch | Stop::Clear)
    }

    /// Why the chip is stopped; a stop without a cause reads as a reset of the bus.
    fn cause_at(&self) -> Cause
        ensures { result ≡ cause_at self.now.world }
    {
        match self.regs.stop_cause() {
            Some(cause) => cause,
            None => Cause::Rst,
        }
    }

    /// Resets the bus for an act, which is open. An `Err` is want of memory, and nothing has changed.
    fn start_bus(&mut self) -> Result<(), AllocError>
        requires { length self.old.world.acts < length self.old.setting.acts }
        ensures ok { OnOk result (self.new ≡ with_world self.old (answers (resets self.old.world) Started).world) }
        ensures err { OnErr result (self.new ≡ self.old) }
    {
        self.reset_bus()?;
        self.answer(Reply::Started);
        Ok(())
    }

    /// Resets the bus for an act, unless a stop waits that its reset would lose. The act is open.
    #[tactic(auto, using(crate::proofs::ActsMade::bus_busy, crate::proofs::ActsMade::bus_wants, crate::proofs::ActsMade::bus_does))]
    pub fn reset_by_act(&mut self) -> Reply
        requires { length self.old.world.acts < length self.old.setting.acts }
        ensures setting { self.new.setting ≡ self.old.setting }
        ensures makes { MakesAct self.old.world kind.Bus result self.new.world }
    {
        if self.is_held() {
            return Reply::BusyStop(self.cause_at());
        }
        match self.start_bus() {
            Ok(()) => Reply::Started,
            Err(_) => Reply::OutOfMemory,
        }
    }

    /// An act of the work, by its number from 0. The work has it.
    #[tactic(auto, using(crate::proofs::ActsMade::has_target))]
    fn act_at(&self, k: u32) -> Act
        requires { k < length self.now.setting.acts }
        ensures act { slice_get self.now.setting.acts k ≡ Some result }
        ensures target { HasTarget result.kind }
    {
        self.work.acts.as_slice()[k as usize]
    }

    /// Makes an act of this kind. The act is open.
    fn make_kind(&mut self, kind: ActKind) -> Reply
        requires open { length self.old.world.acts < length self.old.setting.acts }
        requires target { HasTarget kind }
        requires few { sum self.old.world.desk.due + 1 < 2 ^ 32 }
        ensures setting { self.new.setting ≡ self.old.setting }
        ensures makes { MakesAct self.old.world kind result self.new.world }
    {
        match kind {
            ActKind::Abort(line) => self.abort(line),
            ActKind::Device(target) => self.reset_device(target),
            ActKind::Bus => self.reset_by_act(),
        }
    }

    /// Act: the next act of the work is made.
    #[tactic(auto, using(crate::proofs::ActsMade::act_makes))]
    pub(crate) fn make_act(&mut self, caller: u32, k: u32) -> Reply
        requires enabled { Enabled self.old.setting self.old.world caller (step.Act k) }
        requires few { sum self.old.world.desk.due + 1 < 2 ^ 32 }
        ensures setting { self.new.setting ≡ self.old.setting }
        ensures makes { Makes self.old.setting self.old.world caller (step.Act k) result self.new.world }
    {
        let act = self.act_at(k);
        self.make_kind(act.kind)
    }
}

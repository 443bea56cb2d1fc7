//! What each step of a caller makes, once it is enabled: one function a step.

ghost use Rattle.std.specs.Prelude.{◌≡◌, ◌<◌, ◌+◌, ◌^◌, sum};
ghost use Rattle.rig_types.specs.declared.step.Step.TheVariants as step;
ghost use Rattle.world_law.specs.Enabling.{Enabled};
ghost use Rattle.world_law.specs.Steps.{Does};
ghost use Rattle.bench_state.specs.Making.{Makes};

use crate::state::State;
use world_law::Reply;

impl State {
    /// Link: the block of a ticket is entered under its tag.
    pub(crate) fn make_link(&mut self, caller: u32, t: u32) -> Reply
        requires { Enabled self.old.setting self.old.world caller (step.Link t) }
        ensures setting { self.new.setting ≡ self.old.setting }
        ensures does { Does self.old.setting self.old.world caller (step.Link t) result self.new.world }
    {
        self.link(t);
        Reply::Made
    }

    /// Queue: the block of a ticket goes into the start ring, and a signal is due.
    #[tactic(auto, using(crate::proofs::Enabled::may_queue))]
    pub(crate) fn make_queue(&mut self, caller: u32, t: u32) -> Reply
        requires enabled { Enabled self.old.setting self.old.world caller (step.Queue t) }
        requires few { sum self.old.world.desk.due + 1 < 2 ^ 32 }
        ensures setting { self.new.setting ≡ self.old.setting }
        ensures does { Does self.old.setting self.old.world caller (step.Queue t) result self.new.world }
    {
        self.queue(t);
        Reply::Made
    }

    /// Signal: a signal that is due of the caller is made.
    pub(crate) fn make_signal(&mut self, caller: u32) -> Reply
        requires { Enabled self.old.setting self.old.world caller step.Signal }
        ensures setting { self.new.setting ≡ self.old.setting }
        ensures does { Does self.old.setting self.old.world caller step.Signal result self.new.world }
    {
        self.signal(caller);
        Reply::Made
    }

    /// Chip: the chip makes a step with a word.
    pub(crate) fn make_chip(&mut self, caller: u32, word: u32) -> Reply
        ensures setting { self.new.setting ≡ self.old.setting }
        ensures does { Does self.old.setting self.old.world caller (step.Chip word) result self.new.world }
    {
        self.run_chip(word)
    }

    /// Fix: the data pointer is repaired.
    pub(crate) fn make_fix(&mut self, caller: u32) -> Reply
        ensures setting { self.new.setting ≡ self.old.setting }
        ensures does { Does self.old.setting self.old.world caller step.Fix result self.new.world }
    {
        self.fix();
        Reply::Made
    }

    /// Sweep: a ticket that a reset has lost ends.
    pub(crate) fn make_sweep(&mut self, caller: u32, t: u32) -> Reply
        requires { Enabled self.old.setting self.old.world caller (step.Sweep t) }
        ensures setting { self.new.setting ≡ self.old.setting }
        ensures does { Does self.old.setting self.old.world caller (step.Sweep t) result self.new.world }
    {
        self.sweep(t);
        Reply::Made
    }

    /// Restart: the chip goes on.
    pub(crate) fn make_restart(&mut self, caller: u32) -> Reply
        ensures setting { self.new.setting ≡ self.old.setting }
        ensures does { Does self.old.setting self.old.world caller step.Restart result self.new.world }
    {
        self.restart();
        Reply::Made
    }

    /// TakeDone: the ticket of the done slot is taken.
    #[tactic(auto, using(crate::proofs::Enabled::done_is_some, crate::proofs::Enabled::takes_done))]
    pub(crate) fn make_take_done(&mut self, caller: u32) -> Reply
        requires { Enabled self.old.setting self.old.world caller step.TakeDone }
        ensures setting { self.new.setting ≡ self.old.setting }
        ensures does { Does self.old.setting self.old.world caller step.TakeDone result self.new.world }
    {
        Reply::Taken(self.take_done())
    }

    /// Unlink: the tag entry of a ticket that ended is freed.
    #[tactic(auto, using(crate::proofs::Enabled::is_ended))]
    pub(crate) fn make_unlink(&mut self, caller: u32, t: u32) -> Reply
        requires { Enabled self.old.setting self.old.world caller (step.Unlink t) }
        ensures setting { self.new.setting ≡ self.old.setting }
        ensures does { Does self.old.setting self.old.world caller (step.Unlink t) result self.new.world }
    {
        self.unlink(t);
        Reply::Made
    }

    /// Sense: the block of a ticket becomes a REQUEST SENSE at FRONT.
    pub(crate) fn make_sense(&mut self, caller: u32, t: u32) -> Reply
        requires enabled { Enabled self.old.setting self.old.world caller (step.Sense t) }
        requires few { sum self.old.world.desk.due + 1 < 2 ^ 32 }
        ensures setting { self.new.setting ≡ self.old.setting }
        ensures does { Does self.old.setting self.old.world caller (step.Sense t) result self.new.world }
    {
        self.sense(t);
        Reply::Made
    }

    /// ResetBus: the bus is reset.
    #[tactic(auto, using(crate::proofs::ActsMade::reset_wants, crate::proofs::ActsMade::reset_does))]
    pub(crate) fn make_reset_bus(&mut self, caller: u32) -> Reply
        ensures setting { self.new.setting ≡ self.old.setting }
        ensures makes { Makes self.old.setting self.old.world caller step.ResetBus result self.new.world }
    {
        match self.reset_bus() {
            Ok(()) => Reply::Started,
            Err(_) => Reply::OutOfMemory,
        }
    }
}

//! Which steps a caller may make.

ghost use Rattle.std.specs.Prelude.{◌≡◌, ◌≤◌, ◌↔◌, IsTrue};
ghost use Rattle.rig_types.specs.declared.step.Step.TheVariants as step;
ghost use Rattle.desk_law.specs.Desk.{aborter, reaper, chip};
ghost use Rattle.world_law.specs.Enabling.{Enabled};

use crate::state::State;
use desk_law::Stage;
use host_map::FRONT_IDLE;
use world_law::Stop;

impl State {
    /// The number of the aborter among the callers: it stands behind the submitters.
    pub fn aborter(&self) -> u32
        ensures number { result ≡ aborter self.now.world.desk }
        ensures few { result ≤ 16 }
    {
        self.work.submitters.as_slice().len() as u32
    }

    /// The number of the reaper.
    pub fn reaper(&self) -> u32
        ensures { result ≡ reaper self.now.world.desk }
    {
        self.aborter() + 1
    }

    /// The number of the chip.
    pub fn chip(&self) -> u32
        ensures { result ≡ chip self.now.world.desk }
    {
        self.aborter() + 2
    }

    /// Whether a caller may make Link of a ticket: it is Built, and the caller its submitter.
    pub fn may_link(&self, caller: u32, t: u32) -> bool
        ensures { IsTrue result ↔ Enabled self.now.setting self.now.world caller (step.Link t) }
    {
        matches!(self.stage_of(t), Stage::Built) && caller == self.submitter_of(t)
    }

    /// Whether a caller may make Queue of a ticket: its submitter after Link, the reaper where it was refused.
    pub fn may_queue(&self, caller: u32, t: u32) -> bool
        ensures { IsTrue result ↔ Enabled self.now.setting self.now.world caller (step.Queue t) }
    {
        match self.stage_of(t) {
            Stage::Linked => caller == self.submitter_of(t),
            Stage::Again => caller == self.reaper(),
            _ => false,
        }
    }

    /// Whether a caller may make Fix: the reaper, after a mismatch.
    pub fn may_fix(&self, caller: u32) -> bool
        ensures { IsTrue result ↔ Enabled self.now.setting self.now.world caller step.Fix }
    {
        caller == self.reaper() && matches!(self.stop, Stop::Mismatch)
    }

    /// Whether a caller may make Unlink of a ticket: the reaper, once it has ended.
    pub fn may_unlink(&self, caller: u32, t: u32) -> bool
        ensures { IsTrue result ↔ Enabled self.now.setting self.now.world caller (step.Unlink t) }
    {
        caller == self.reaper() && matches!(self.stage_of(t), Stage::Ended(_))
    }

    /// Whether a caller may make Free of a ticket: the reaper, once it is Unlinked.
    pub fn may_free(&self, caller: u32, t: u32) -> bool
        ensures { IsTrue result ↔ Enabled self.now.setting self.now.world caller (step.Free t) }
    {
        caller == self.reaper() && matches!(self.stage_of(t), Stage::Unlinked)
    }

    /// Whether a caller may make ResetBus: the reaper, where the stop asks for it.
    pub fn may_reset_bus(&self, caller: u32) -> bool
        ensures { IsTrue result ↔ Enabled self.now.setting self.now.world caller step.ResetBus }
    {
        caller == self.reaper() && matches!(self.stop, Stop::MustReset)
    }

    /// Whether a caller may make Sense of a ticket: the reaper, while the chip runs and FRONT is idle.
    pub fn may_sense(&self, caller: u32, t: u32) -> bool
        ensures { IsTrue result ↔ Enabled self.now.setting self.now.world caller (step.Sense t) }
    {
        caller == self.reaper()
            && matches!(self.stop, Stop::Run)
            && matches!(self.stage_of(t), Stage::Check)
            && self.front() == FRONT_IDLE
    }

    /// Whether a caller may make Sweep of a ticket: the reaper, where the ticket is to be swept.
    pub fn may_sweep(&self, caller: u32, t: u32) -> bool
        ensures { IsTrue result ↔ Enabled self.now.setting self.now.world caller (step.Sweep t) }
    {
        caller == self.reaper() && self.may_be_swept(t)
    }

    /// Whether a caller may make Restart: the reaper, in Clear, once no ticket is to be swept.
    pub fn may_restart(&self, caller: u32) -> bool
        ensures { IsTrue result ↔ Enabled self.now.setting self.now.world caller step.Restart }
    {
        caller == self.reaper() && matches!(self.stop, Stop::Clear) && self.next_sweep().is_none()
    }

    /// Whether a caller may make TakeDone: the reaper, where the done slot has a ticket to take.
    pub fn may_take_done(&self, caller: u32) -> bool
        ensures { IsTrue result ↔ Enabled self.now.setting self.now.world caller step.TakeDone }
    {
        caller == self.reaper() && self.is_done()
    }

    /// Whether a caller may make Signal: a signal of it is due.
    pub fn may_signal(&self, caller: u32) -> bool
        ensures { IsTrue result ↔ Enabled self.now.setting self.now.world caller step.Signal }
    {
        self.due_of(caller) > 0
    }
}

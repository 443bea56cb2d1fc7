//! Whether a step is enabled, and what it makes: a step of each kind goes to its function.

ghost use Rattle.std.specs.Prelude.{◌≡◌, ◌<◌, ◌+◌, ◌^◌, ◌↔◌, IsTrue, length, sum};
ghost use Rattle.world_law.specs.Enabling.{Enabled};
ghost use Rattle.bench_state.specs.Counting.{IsCounted};
ghost use Rattle.bench_state.specs.LastLines.{OnlyLastIsHeld};
ghost use Rattle.bench_state.specs.Making.{Makes};

use crate::state::State;
use rig_types::Step;
use world_law::Reply;

impl State {
    /// Whether a caller may make a step.
    pub fn is_enabled(&self, caller: u32, step: Step) -> bool
        requires counted { IsCounted self.now.world }
        requires held { OnlyLastIsHeld self.now.world }
        ensures { IsTrue result ↔ Enabled self.now.setting self.now.world caller step }
    {
        match step {
            Step::Build(line) => self.may_build(caller, line),
            Step::Link(t) => self.may_link(caller, t),
            Step::Queue(t) => self.may_queue(caller, t),
            Step::Signal => self.may_signal(caller),
            Step::Chip(word) => self.may_run_chip(caller, word),
            Step::Fix => self.may_fix(caller),
            Step::Sweep(t) => self.may_sweep(caller, t),
            Step::Restart => self.may_restart(caller),
            Step::TakeDone => self.may_take_done(caller),
            Step::Unlink(t) => self.may_unlink(caller, t),
            Step::Free(t) => self.may_free(caller, t),
            Step::Act(k) => self.may_act(caller, k),
            Step::ResetBus => self.may_reset_bus(caller),
            Step::Sense(t) => self.may_sense(caller, t),
        }
    }

    /// Makes a step of a caller, which is enabled. Want of memory comes from Build, the acts that reset and ResetBus
    /// alone, and then nothing has changed.
    #[tactic(auto, using(crate::proofs::StepsMade::makes_done))]
    pub fn make(&mut self, caller: u32, step: Step) -> Reply
        requires enabled { Enabled self.old.setting self.old.world caller step }
        requires signals { sum self.old.world.desk.due + 1 < 2 ^ 32 }
        requires tickets { length self.old.world.desk.tickets + 1 < 2 ^ 32 }
        ensures setting { self.new.setting ≡ self.old.setting }
        ensures makes { Makes self.old.setting self.old.world caller step result self.new.world }
    {
        match step {
            Step::Build(line) => self.make_build(caller, line),
            Step::Link(t) => self.make_link(caller, t),
            Step::Queue(t) => self.make_queue(caller, t),
            Step::Signal => self.make_signal(caller),
            Step::Chip(word) => self.make_chip(caller, word),
            Step::Fix => self.make_fix(caller),
            Step::Sweep(t) => self.make_sweep(caller, t),
            Step::Restart => self.make_restart(caller),
            Step::TakeDone => self.make_take_done(caller),
            Step::Unlink(t) => self.make_unlink(caller, t),
            Step::Free(t) => self.make_free(caller, t),
            Step::Act(k) => self.make_act(caller, k),
            Step::ResetBus => self.make_reset_bus(caller),
            Step::Sense(t) => self.make_sense(caller, t),
        }
    }
}

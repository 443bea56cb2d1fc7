//! When all is done. Nothing here goes over lines, tickets or memory.

ghost use Rattle.std.specs.Prelude.{◌≡◌, ◌<◌, ◌≤◌, ◌==◌, ◌↔◌, IsTrue, length};
ghost use Rattle.rig_types.specs.declared.step.Step.TheVariants as step;
ghost use Rattle.std.specs.List.{list_any};
ghost use Rattle.desk_law.specs.Desk.{lives};
ghost use Rattle.world_law.specs.World.{commands_of, lines_of};
ghost use Rattle.world_law.specs.Lines.{is_run, all_decided, none_due, drained};
ghost use Rattle.world_law.specs.Enabling.{Enabled};

use crate::state::State;
use host_map::FRONT_IDLE;
use world_law::Stop;

impl State {
    /// Whether every line of one submitter is decided. The work has the submitter.
    #[tactic(auto, using(crate::proofs::LineLists::lines_at))]
    fn is_decided(&self, s: usize) -> bool
        requires { s < length self.now.world.lines }
        ensures { result ≡ (length (commands_of self.now.setting s) == length (lines_of self.now.world s)) }
    {
        let commands = &self.work.submitters.as_slice()[s];
        let lines = &self.lines[s];
        commands.as_slice().len() == lines.count() as usize
    }

    /// How many submitters the work has, at most 16.
    pub fn submitter_count(&self) -> u32
        ensures lines { result ≡ length self.now.world.lines }
        ensures submitters { result ≡ length self.now.setting.submitters }
        ensures desk { result ≡ self.now.world.desk.submitters }
        ensures few { result ≤ 16 }
    {
        let _ = &self.lines;
        self.aborter()
    }

    /// Whether every line of every submitter is decided.
    #[tactic(auto, using(crate::proofs::Decided::decided_all, crate::proofs::Decided::undecided_at))]
    fn are_lines_decided(&self) -> bool
        ensures { result ≡ all_decided self.now.setting.submitters self.now.world.lines }
    {
        for s in 0..self.submitter_count() {
            if !self.is_decided(s as usize) {
                return false;
            }
        }
        true
    }

    /// Whether a ticket lives.
    #[tactic(auto, using(crate::proofs::CountLaws::some_live))]
    fn has_live(&self) -> bool
        ensures { result ≡ list_any lives self.now.world.desk.tickets }
    {
        0 < self.live
    }

    /// Whether no signal is due of any caller.
    #[tactic(auto, using(crate::proofs::CountLaws::all_made, crate::proofs::CountLaws::one_due))]
    fn is_none_due(&self) -> bool
        ensures { result ≡ none_due self.now.world.desk.due }
    {
        for caller in 0..self.bus.tickets.desk.caller_count() {
            if self.bus.tickets.desk.due(caller) != 0 {
                return false;
            }
        }
        true
    }

    /// Whether the chip runs.
    fn is_run(&self) -> bool
        ensures { result ≡ is_run self.now.world.stop }
    {
        matches!(self.stop, Stop::Run)
    }

    /// Whether every line and act is decided, every ticket is freed, no signal is due, FRONT is idle and no stop waits.
    pub fn is_drained(&self) -> bool
        ensures { result ≡ drained self.now.setting self.now.world }
    {
        self.are_lines_decided()
            && self.work.acts.as_slice().len() == self.acts.len()
            && !self.has_live()
            && self.is_none_due()
            && self.front() == FRONT_IDLE
            && self.is_run()
    }

    /// Whether a caller may make Chip: the chip, while no stop waits and not all is done.
    pub fn may_run_chip(&self, caller: u32, word: u32) -> bool
        ensures { IsTrue result ↔ Enabled self.now.setting self.now.world caller (step.Chip word) }
    {
        caller == self.chip() && matches!(self.stop, Stop::Run) && !self.is_drained()
    }
}

//! Free: the report of a ticket is made.

ghost use Rattle.std.specs.Prelude.{◌≡◌};
ghost use Rattle.rig_types.specs.declared.step.Step.TheVariants as step;
ghost use Rattle.desk_law.specs.declared.stage.Stage.TheVariants.{Unlinked};
ghost use Rattle.desk_law.specs.Desk.{ticket, is_freed};
ghost use Rattle.world_law.specs.declared.reply.Reply.TheVariants.{Made};
ghost use Rattle.world_law.specs.Enabling.{Enabled};
ghost use Rattle.world_law.specs.Steps.{FreesTicket, Does};
ghost use Rattle.bench_state.specs.Held.{live_before};

use crate::state::State;
use desk_law::Stage;
use world_law::Reply;

impl State {
    /// Whether a ticket is freed.
    fn is_freed(&self, t: u32) -> bool
        ensures { result ≡ is_freed (ticket self.now.world.desk t).stage }
    {
        matches!(self.stage_of(t), Stage::Freed)
    }

    /// A ticket before which none lives: the first that lives, or the number of tickets.
    #[tactic(auto, using(crate::proofs::FreedTickets::none_at_all, crate::proofs::FreedTickets::one_more_freed))]
    fn first_live(&self) -> u32
        ensures { live_before result self.now.world.desk.tickets ≡ 0 }
    {
        if self.live == 0 {
            return self.ticket_count();
        }
        for t in self.first..self.ticket_count() {
            if !self.is_freed(t) {
                return t;
            }
        }
        self.first
    }

    /// Looks for the first ticket that lives, from the one on that was the first. What contracts see stays.
    fn pass_freed(&mut self)
        ensures { self.new ≡ self.old }
    {
        self.first = self.first_live();
    }

    /// Makes the report of a ticket that is Unlinked, and gives its chunks back.
    #[tactic(auto, using(crate::proofs::FreedTickets::unlinked_is_there, crate::proofs::FreedTickets::one_lives))]
    fn report_and_free(&mut self, t: u32)
        requires { (ticket self.old.world.desk t).stage ≡ Unlinked }
        ensures setting { self.new.setting ≡ self.old.setting }
        ensures frees { FreesTicket self.old.world t Made self.new.world }
    {
        let report = self.bus.tickets.desk.free(&self.words, t);
        self.reports.push_reserved(report);
        self.live -= 1;
    }

    /// Makes the report of a ticket that is Unlinked, and gives its chunks back. It takes no memory.
    pub fn free(&mut self, t: u32)
        requires { (ticket self.old.world.desk t).stage ≡ Unlinked }
        ensures setting { self.new.setting ≡ self.old.setting }
        ensures frees { FreesTicket self.old.world t Made self.new.world }
    {
        self.report_and_free(t);
        self.pass_freed();
    }
    /// Free: the report of a ticket is made.
    pub(crate) fn make_free(&mut self, caller: u32, t: u32) -> Reply
        requires { Enabled self.old.setting self.old.world caller (step.Free t) }
        ensures setting { self.new.setting ≡ self.old.setting }
        ensures does { Does self.old.setting self.old.world caller (step.Free t) result self.new.world }
    {
        self.free(t);
        Reply::Made
    }
}

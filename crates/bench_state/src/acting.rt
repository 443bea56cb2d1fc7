//! The acts of a work.

ghost use Rattle.std.specs.Prelude.{◌≡◌, ◌<◌, ◌↔◌, IsTrue, length};
ghost use Rattle.rig_types.specs.declared.step.Step.TheVariants as step;
ghost use Rattle.desk_law.specs.Desk.{ticket};
ghost use Rattle.world_law.specs.World.{decided};
ghost use Rattle.world_law.specs.Acts.{answers, is_late, marks, aborts};
ghost use Rattle.world_law.specs.Enabling.{aborts_open, Enabled};
ghost use Rattle.bench_state.specs.States.{with_world};
ghost use Rattle.bench_state.specs.Counting.{IsCounted};

use crate::state::State;
use desk_law::Stage;
use rig_types::{ActKind, Line};
use world_law::{Decided, Reply};

/// Whether an abort comes too late for a ticket in this stage.
fn is_late(stage: Stage) -> bool
    ensures { result ≡ is_late stage }
{
    match stage {
        Stage::Check | Stage::Sensing | Stage::Ended(_) | Stage::Unlinked | Stage::Freed => true,
        Stage::Built | Stage::Linked | Stage::Queued | Stage::Again => false,
    }
}

impl State {
    /// Whether an act is the abort of a line that is still open.
    fn aborts_open(&self, kind: ActKind) -> bool
        ensures { result ≡ aborts_open self.now.world kind }
    {
        match kind {
            ActKind::Abort(line) => matches!(self.line(line), Decided::Open),
            ActKind::Device(_) | ActKind::Bus => false,
        }
    }

    /// Whether a caller may make an act: the aborter the next one, once as many lines are settled as it asks for, its
    /// signals are made, and the line of an abort is decided.
    pub fn may_act(&self, caller: u32, k: u32) -> bool
        requires { IsCounted self.now.world }
        ensures { IsTrue result ↔ Enabled self.now.setting self.now.world caller (step.Act k) }
    {
        let Some(act) = self.work.acts.as_slice().get(k as usize) else {
            return false;
        };
        caller == self.aborter()
            && k as usize == self.acts.len()
            && act.after <= self.settled()
            && self.due_of(caller) == 0
            && !self.aborts_open(act.kind)
    }

    /// Decides the next act by an answer. The act is open.
    pub(crate) fn answer(&mut self, reply: Reply)
        requires { length self.old.world.acts < length self.old.setting.acts }
        ensures { self.new ≡ with_world self.old (answers self.old.world reply).world }
    {
        self.acts.push_reserved(reply);
    }

    /// Marks the block of a ticket that an abort names, unless it is too late, and answers which. The act is open.
    #[tactic(auto, using(crate::proofs::TicketLaws::is_there, crate::proofs::Stages::early_lives))]
    fn mark(&mut self, t: u32) -> Reply
        requires { length self.old.world.acts < length self.old.setting.acts }
        ensures answer { result ≡ (marks (is_late (ticket self.old.world.desk t).stage) self.old.world t).answer }
        ensures world { self.new ≡ with_world self.old
            (marks (is_late (ticket self.old.world.desk t).stage) self.old.world t).world }
    {
        if is_late(self.stage_of(t)) {
            self.answer(Reply::TooLate);
            return Reply::TooLate;
        }
        abort_reset::mark(&mut self.words, self.bus.tickets.desk.block(t));
        self.answer(Reply::Marked);
        Reply::Marked
    }

    /// Aborts the ticket of a line. The act is open.
    pub fn abort(&mut self, line: Line) -> Reply
        requires { length self.old.world.acts < length self.old.setting.acts }
        ensures answer { result ≡ (aborts self.old.world (decided self.old.world line)).answer }
        ensures world { self.new ≡ with_world self.old (aborts self.old.world (decided self.old.world line)).world }
    {
        match self.line(line) {
            Decided::Accepted(t) => self.mark(t),
            _ => {
                self.answer(Reply::NeverAccepted);
                Reply::NeverAccepted
            }
        }
    }
}

//! What a caller sees whose step isn't enabled.

ghost use Rattle.std.specs.Prelude.{◌≡◌, ◌<◌, length};
ghost use Rattle.desk_law.specs.Desk.{ticket};
ghost use Rattle.world_law.specs.Lines.{settled};
ghost use Rattle.world_law.specs.Seeing.{ticket_named, stage_of, seen};
ghost use Rattle.world_law.specs.Stops.{is_ended_by_script, is_done};
ghost use Rattle.bench_state.specs.Counting.{IsCounted};
ghost use Rattle.bench_state.specs.LastLines.{OnlyLastIsHeld};

use crate::state::State;
use cmd_block::{ENDED, Field, NO_TARGET, read};
use desk_law::Stage;
use rig_types::Step;
use world_law::Seen;

/// The ticket that a step names.
fn ticket_named(step: Step) -> Option<u32>
    ensures { result ≡ ticket_named step }
{
    match step {
        Step::Link(t)
        | Step::Queue(t)
        | Step::Sweep(t)
        | Step::Unlink(t)
        | Step::Free(t)
        | Step::Sense(t) => Some(t),
        _ => None,
    }
}

impl State {
    /// How many lines are settled: those that were refused, and as many as tickets are freed.
    #[tactic(auto, using(crate::proofs::CountLaws::freed_or_live))]
    pub fn settled(&self) -> u32
        requires { IsCounted self.now.world }
        ensures { result ≡ settled self.now.world }
    {
        self.refused + (self.bus.tickets.desk.ticket_count() - self.live)
    }

    /// The stage of a ticket, where the desk built one of this number.
    fn stage_if_built(&self, t: Option<u32>) -> Option<Stage>
        ensures { result ≡ stage_of self.now.world.desk t }
    {
        let t = t?;
        if t < self.bus.tickets.desk.ticket_count() {
            Some(self.bus.tickets.desk.stage(t))
        } else {
            None
        }
    }

    /// What a caller sees whose step isn't enabled.
    pub fn seen(&self, caller: u32, step: Step) -> Seen
        requires counted { IsCounted self.now.world }
        requires held { OnlyLastIsHeld self.now.world }
        ensures { result ≡ seen self.now.setting self.now.world caller step }
    {
        Seen {
            stage: self.stage_if_built(ticket_named(step)),
            next_line: self.next_line(caller),
            next_act: self.acts.len() as u32,
            due: self.due_of(caller),
            settled: self.settled(),
            blocking: self.blocking(caller),
            stop: self.stop,
            sweep: self.next_sweep(),
            done: self.is_done(),
            drained: self.is_drained(),
        }
    }

    /// Whether the script has ended a ticket that is Queued or Sensing.
    fn is_ended_by_script(&self, t: u32) -> bool
        requires { t < length self.now.world.desk.tickets }
        ensures { result ≡ is_ended_by_script self.now.world (ticket self.now.world.desk t) }
    {
        let state = read(&self.words, self.bus.tickets.desk.block(t), Field::State);
        matches!(
            self.bus.tickets.desk.stage(t),
            Stage::Queued | Stage::Sensing
        ) && ENDED <= state
            && state <= NO_TARGET
    }

    /// Whether the done slot holds the block of a ticket to take.
    #[tactic(auto, using(crate::proofs::TicketLaws::done_is_there))]
    pub fn is_done(&self) -> bool
        ensures { result ≡ is_done self.now.world }
    {
        match self
            .bus
            .tickets
            .desk
            .ticket_at(self.words.get(self.bus.tickets.desk.done_slot()))
        {
            Some(t) => self.is_ended_by_script(t),
            None => false,
        }
    }
}

//! The steps that the desk makes: Link, Queue, Signal, Sense, TakeDone and Unlink.

ghost use Rattle.std.specs.Prelude.{◌≡◌, ◌<◌, ◌+◌, ◌^◌, sum, IsSome};
ghost use Rattle.desk_law.specs.declared.stage.Stage.TheVariants.{Built, Check};
ghost use Rattle.desk_law.specs.Desk.{ticket, due, paid};
ghost use Rattle.desk_law.specs.Rings.{done_ticket};
ghost use Rattle.desk_law.specs.Calls.{links, link_memory, queues, queue_memory, signalled, senses, sense_memory, unlinks, unlink_memory};
ghost use Rattle.driver_desk.specs.Conditions.{MayQueue, IsEnded, next_done};
ghost use Rattle.world_law.specs.Steps.{taken};
ghost use Rattle.bench_state.specs.States.{with_world};

use crate::state::State;
use desk_law::Taken;

impl State {
    /// Enters the block of a ticket under its tag.
    #[tactic(auto, using(crate::proofs::TicketLaws::built_is_there, crate::proofs::TicketLaws::built_is_live, crate::proofs::CountLaws::live_count_stays, crate::proofs::CountLaws::live_before_stays, crate::proofs::CountLaws::due_within))]
    pub fn link(&mut self, t: u32)
        requires { (ticket self.old.world.desk t).stage ≡ Built }
        ensures { self.new ≡ with_world self.old (record self.old.world {
          memory = link_memory self.old.world.desk t self.old.world.memory;
          desk = links self.old.world.desk t;
        }) }
    {
        self.bus.tickets.desk.link(&mut self.words, t);
    }

    /// Puts the block of a ticket into the start ring, and makes a signal due.
    #[tactic(auto, using(crate::proofs::TicketLaws::queueable_is_there, crate::proofs::TicketLaws::queueable_is_live, crate::proofs::CountLaws::live_count_stays, crate::proofs::CountLaws::live_before_stays, crate::proofs::CountLaws::due_within))]
    pub fn queue(&mut self, t: u32)
        requires ready { MayQueue (ticket self.old.world.desk t).stage }
        requires few { sum self.old.world.desk.due + 1 < 2 ^ 32 }
        ensures { self.new ≡ with_world self.old (record self.old.world {
          memory = queue_memory self.old.world.desk t self.old.world.memory;
          desk = queues self.old.world.desk t;
        }) }
    {
        self.bus.tickets.desk.queue(&mut self.words, t);
    }

    /// Makes a signal that is due of the caller.
    #[tactic(auto, using(crate::proofs::TicketLaws::due_is_there))]
    pub fn signal(&mut self, caller: u32)
        requires { 0 < due self.old.world.desk caller }
        ensures { self.new ≡ with_world self.old (record self.old.world {
          regs = signalled self.old.world.regs;
          desk = paid self.old.world.desk caller;
        }) }
    {
        self.bus.tickets.desk.signal(&mut self.regs, caller);
    }

    /// Makes a REQUEST SENSE of the block of a ticket, at FRONT, and a signal of the reaper due.
    #[tactic(auto, using(crate::proofs::TicketLaws::checked_is_there, crate::proofs::TicketLaws::checked_is_live, crate::proofs::CountLaws::live_count_stays, crate::proofs::CountLaws::live_before_stays, crate::proofs::CountLaws::due_within))]
    pub fn sense(&mut self, t: u32)
        requires check { (ticket self.old.world.desk t).stage ≡ Check }
        requires few { sum self.old.world.desk.due + 1 < 2 ^ 32 }
        ensures { self.new ≡ with_world self.old (record self.old.world {
          memory = sense_memory self.old.world.desk t self.old.world.memory;
          desk = senses self.old.world.desk t;
        }) }
    {
        self.bus.tickets.desk.sense(&mut self.words, t);
    }

    /// Takes the ticket whose block stands in the done slot, and answers its number.
    pub fn take_done(&mut self) -> u32
        requires { IsSome (done_ticket self.old.world.memory self.old.world.desk) }
        ensures answer { result ≡ next_done self.old.world.memory self.old.world.desk }
        ensures taken { self.new ≡ with_world self.old (taken self.old.world (next_done self.old.world.memory self.old.world.desk)) }
    {
        match self
            .bus
            .tickets
            .desk
            .take_done(&mut self.words, &mut self.regs)
        {
            Taken::Again(t) | Taken::Check(t) | Taken::Ended(t) => t,
        }
    }

    /// Frees the tag entry of a ticket that ended.
    #[tactic(auto, using(crate::proofs::TicketLaws::ended_is_there, crate::proofs::TicketLaws::ended_is_live, crate::proofs::CountLaws::live_count_stays, crate::proofs::CountLaws::live_before_stays, crate::proofs::CountLaws::due_within))]
    pub fn unlink(&mut self, t: u32)
        requires { IsEnded (ticket self.old.world.desk t).stage }
        ensures { self.new ≡ with_world self.old (record self.old.world {
          memory = unlink_memory self.old.world.desk t self.old.world.memory;
          desk = unlinks self.old.world.desk t;
        }) }
    {
        self.bus.tickets.desk.unlink(&mut self.words, t);
    }
}

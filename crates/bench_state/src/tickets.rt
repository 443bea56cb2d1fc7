//! What the desk tells of any number: a freed ticket stands where none was built.

ghost use Rattle.std.specs.Prelude.{◌≡◌, length};
ghost use Rattle.desk_law.specs.Desk.{ticket, due};

use crate::state::State;
use desk_law::Stage;
use scsi_words::Direction;

impl State {
    /// How many tickets were built.
    pub(crate) fn ticket_count(&self) -> u32
        ensures { result ≡ length self.now.world.desk.tickets }
    {
        self.bus.tickets.desk.ticket_count()
    }

    /// The stage of a ticket; `Freed` where none was built.
    #[tactic(auto, using(crate::proofs::TicketLaws::none_there))]
    pub(crate) fn stage_of(&self, t: u32) -> Stage
        ensures { result ≡ (ticket self.now.world.desk t).stage }
    {
        if t < self.bus.tickets.desk.ticket_count() {
            self.bus.tickets.desk.stage(t)
        } else {
            Stage::Freed
        }
    }

    /// The submitter of a ticket; 0 where none was built.
    #[tactic(auto, using(crate::proofs::TicketLaws::none_there))]
    pub fn submitter_of(&self, t: u32) -> u32
        ensures { result ≡ (ticket self.now.world.desk t).line.submitter }
    {
        if t < self.bus.tickets.desk.ticket_count() {
            u32::from(self.bus.tickets.desk.line(t).submitter)
        } else {
            0
        }
    }

    /// The direction of a ticket's data; no data where none was built.
    #[tactic(auto, using(crate::proofs::TicketLaws::none_there))]
    pub fn direction_of(&self, t: u32) -> Direction
        ensures { result ≡ (ticket self.now.world.desk t).direction }
    {
        if t < self.bus.tickets.desk.ticket_count() {
            self.bus.tickets.desk.direction(t)
        } else {
            Direction::None
        }
    }

    /// How many signals of a caller are due; 0 where the work has no such caller.
    #[tactic(auto, using(crate::proofs::TicketLaws::none_due))]
    pub fn due_of(&self, caller: u32) -> u32
        ensures { result ≡ due self.now.world.desk caller }
    {
        if caller < self.bus.tickets.desk.caller_count() {
            self.bus.tickets.desk.due(caller)
        } else {
            0
        }
    }
}

//! What blocks a submitter's next Build, and whether it may be made.

ghost use Rattle.std.specs.Prelude.{◌≡◌, ◌<◌, ◌-◌, ◌↔◌, IsTrue, true, false, length, position, slice_index_or};
ghost use Rattle.rig_types.specs.declared.step.Step.TheVariants as step;
ghost use Rattle.desk_law.specs.Desk.{ticket};
ghost use Rattle.world_law.specs.declared.reply.Decided.TheVariants.{Open};
ghost use Rattle.world_law.specs.World.{commands_of, lines_of};
ghost use Rattle.world_law.specs.Lines.{blocks, next_command, waits_of, blocking};
ghost use Rattle.world_law.specs.Enabling.{Enabled};
ghost use Rattle.bench_state.specs.LastLines.{accepted_as, last_ticket, OnlyLastIsHeld};

use crate::state::{Lines, State};
use desk_law::Stage;
use rig_types::Line;
use world_law::Decided;

/// The ticket of a line that was accepted.
fn accepted_as(decided: Decided) -> Option<u32>
    ensures { result ≡ accepted_as decided }
{
    match decided {
        Decided::Accepted(t) => Some(t),
        Decided::Open | Decided::Refused(_) => None,
    }
}

impl Lines {
    /// What became of the last line that is decided; `Open` where none is.
    fn last(&self) -> Decided
        ensures { result ≡ slice_index_or self.now.decided.items (length self.now.decided.items - 1) Open }
    {
        self.at(self.count().saturating_sub(1))
    }
}

impl State {
    /// The next line of a submitter; 0 where the work has no such submitter.
    #[tactic(auto, using(crate::proofs::LineLists::lines_at, crate::proofs::LineLists::no_lines_at))]
    pub fn next_line(&self, submitter: u32) -> u32
        ensures { result ≡ length (lines_of self.now.world submitter) }
    {
        match self.lines.get(submitter as usize) {
            Some(lines) => lines.count(),
            None => 0,
        }
    }

    /// Whether a submitter's next command waits for its tickets.
    fn waits(&self, submitter: u32) -> bool
        ensures { result ≡ waits_of (next_command self.now.setting self.now.world submitter) }
    {
        match self.work.submitters.as_slice().get(submitter as usize) {
            Some(commands) => match commands.as_slice().get(self.next_line(submitter) as usize) {
                Some(command) => command.wait,
                None => false,
            },
            None => false,
        }
    }

    /// Whether a submitter has a line of this number.
    fn has_line(&self, line: Line) -> bool
        ensures { IsTrue result ↔ (line.number < length (commands_of self.now.setting line.submitter)) }
    {
        match self.work.submitters.as_slice().get(line.submitter as usize) {
            Some(commands) => (line.number as usize) < commands.as_slice().len(),
            None => false,
        }
    }

    /// Whether a ticket blocks a submitter's next Build.
    fn blocks(&self, t: u32, submitter: u32, waits: bool) -> bool
        requires { t < length self.now.world.desk.tickets }
        ensures { result ≡ blocks submitter waits (ticket self.now.world.desk t) }
    {
        u32::from(self.bus.tickets.desk.line(t).submitter) == submitter
            && match self.bus.tickets.desk.stage(t) {
                Stage::Built | Stage::Linked => true,
                Stage::Freed => false,
                _ => waits,
            }
    }

    /// The ticket of a submitter's last line that is decided, if that line was accepted.
    #[tactic(auto, using(crate::proofs::LineLists::lines_at, crate::proofs::LineLists::no_lines_at))]
    pub fn last_ticket(&self, submitter: u32) -> Option<u32>
        ensures { result ≡ last_ticket self.now.world submitter }
    {
        match self.lines.get(submitter as usize) {
            Some(lines) => accepted_as(lines.last()),
            None => None,
        }
    }

    /// Whether a ticket of any number is a submitter's, and one that it has still to enter or to queue.
    #[tactic(auto, using(crate::proofs::BlockingTickets::none_there_blocks))]
    fn is_held_by(&self, t: u32, submitter: u32) -> bool
        ensures { result ≡ blocks submitter false (ticket self.now.world.desk t) }
    {
        t < self.ticket_count() && self.blocks(t, submitter, false)
    }

    /// The ticket that a submitter has still to enter or to queue, if there is one: only that of its last line can be.
    #[tactic(auto, using(crate::proofs::BlockingTickets::last_held, crate::proofs::BlockingTickets::last_not_held, crate::proofs::BlockingTickets::no_last))]
    fn held_by(&self, submitter: u32) -> Option<u32>
        requires { OnlyLastIsHeld self.now.world }
        ensures { result ≡ position (blocks submitter false) self.now.world.desk.tickets }
    {
        match self.last_ticket(submitter) {
            Some(t) => {
                if self.is_held_by(t, submitter) {
                    Some(t)
                } else {
                    None
                }
            }
            None => None,
        }
    }

    /// The least live ticket of a submitter. Only tickets from the first that lives on are looked at.
    fn least_live_of(&self, submitter: u32) -> Option<u32>
        ensures { result ≡ position (blocks submitter true) self.now.world.desk.tickets }
    {
        for t in self.first..self.ticket_count() {
            if self.blocks(t, submitter, true) {
                return Some(t);
            }
        }
        None
    }

    /// The least ticket that blocks a submitter's next Build. Tickets are looked through only where the submitter's next
    /// command waits for them.
    pub fn blocking(&self, submitter: u32) -> Option<u32>
        requires { OnlyLastIsHeld self.now.world }
        ensures { result ≡ blocking self.now.setting self.now.world submitter }
    {
        if self.waits(submitter) {
            self.least_live_of(submitter)
        } else {
            self.held_by(submitter)
        }
    }

    /// Whether a caller may make Build of a line: it is the caller's next, its signals are made, and no ticket blocks.
    pub fn may_build(&self, caller: u32, line: Line) -> bool
        requires { OnlyLastIsHeld self.now.world }
        ensures { IsTrue result ↔ Enabled self.now.setting self.now.world caller (step.Build line) }
    {
        caller == u32::from(line.submitter)
            && line.number == self.next_line(caller)
            && self.has_line(line)
            && self.due_of(caller) == 0
            && self.blocking(caller).is_none()
    }
}

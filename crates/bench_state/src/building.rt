//! Build: a line is handed to the desk.

ghost use Rattle.std.specs.Prelude.{◌≡◌, ◌<◌, ◌≤◌, ◌+◌, ◌^◌, ◌++◌, ◌∷◌, [], length, not, vec_capacity, slice_get, slice_index_or, Some, true, MatchOption};
ghost use Rattle.rig_types.specs.declared.step.Step.TheVariants as step;
ghost use Rattle.unit_law.specs.Request.{plain};
ghost use Rattle.desk_law.specs.Desk.{no_unit};
ghost use Rattle.desk_law.specs.Building.{Builds};
ghost use Rattle.world_law.specs.declared.reply.Decided.TheVariants as outcome;
ghost use Rattle.world_law.specs.declared.reply.Reply.TheVariants as reply;
ghost use Rattle.world_law.specs.World.{commands_of, lines_of, command_at};
ghost use Rattle.world_law.specs.Enabling.{Enabled};
ghost use Rattle.world_law.specs.Builds.{decides, refuses, BuildsOf};
ghost use Rattle.world_law.specs.Answers.{AcceptsOf};
ghost use Rattle.world_law.specs.Runs.{is_recorded};
ghost use Rattle.bench_state.specs.States.{with_world, decided_of, rooms_of};
ghost use Rattle.bench_state.specs.Making.{Makes};
ghost use Rattle.bench_state.specs.Building.{RefusedFor, IsNotRefused, with_room_for, one_decided, MayDecide};

use crate::driver::Driver;
use crate::state::{Lines, State};
use bench_words::Words;
use desk_law::Refused;
use rig_types::{Command, Line, Report, Request, Rig, Work};
use target_bus::LiveBus;
use world_law::{Decided, Reply};

impl Lines {
    /// Decides the next line. There is room for it.
    pub(crate) fn decide(&mut self, decided: Decided)
        requires room { length self.old.decided.items < vec_capacity self.old.decided }
        requires few { length self.old.decided.items < 2147483648 }
        ensures decided { self.new.decided.items ≡ self.old.decided.items ++ decided ∷ [] }
        ensures room { vec_capacity self.new.decided ≡ vec_capacity self.old.decided }
    {
        self.decided.push_reserved(decided);
    }
}

/// Decides a submitter's next line. There is room for it.
#[tactic(auto, using(crate::proofs::NextLines::there, crate::proofs::NextLines::next_decided, crate::proofs::NextLines::rooms_stay))]
fn decide_line(lines: &mut Vec<Lines>, submitter: u16, decided: Decided)
    requires { MayDecide (decided_of lines.old.items) (rooms_of lines.old.items) submitter }
    ensures decided { decided_of lines.new.items ≡ one_decided (decided_of lines.old.items) submitter decided }
    ensures rooms { rooms_of lines.new.items ≡ rooms_of lines.old.items }
{
    lines[submitter as usize].decide(decided);
}

/// The command of a line. The work has the line.
#[tactic(auto, using(crate::proofs::NextLines::has_commands))]
fn command_of(work: &Work, line: Line) -> &Command
    requires { line.number < length (slice_index_or work.now.submitters line.submitter []) }
    ensures { slice_get (slice_index_or work.now.submitters line.submitter []) line.number ≡ Some result.now }
{
    let commands = &work.submitters.as_slice()[line.submitter as usize];
    &commands.as_slice()[line.number as usize]
}

/// The target of a unit of the rig; 0 where there is none.
#[tactic(auto, using(crate::proofs::BuiltLines::target_within))]
fn target_of(rig: &Rig, unit: u8) -> u8
    ensures target { result ≡ (slice_index_or rig.now.units unit no_unit).target }
    ensures within { result < 7 }
{
    match rig.units.as_slice().get(unit as usize) {
        Some(unit) => unit.target,
        None => 0,
    }
}

/// Makes room for one report more than those that were made and those of the live tickets. False where memory is
/// wanting.
fn reserve_report(reports: &mut Vec<Report>, live: u32) -> bool
    requires { live + 1 < 2 ^ 32 }
    ensures items { reports.new.items ≡ reports.old.items }
    ensures kept { vec_capacity reports.old ≤ vec_capacity reports.new }
    ensures there { result ≡ true → length reports.new.items + (live + 1) ≤ vec_capacity reports.new }
{
    reports.reserve((live + 1) as usize).is_ok()
}

/// Builds the ticket of a request that nothing refuses, with room in the logs of its target. With `None` memory is
/// wanting, and nothing has changed.
fn build_ticket(
    bus: &mut LiveBus<Driver>,
    words: &mut Words,
    line: Line,
    request: &Request,
) -> Option<u32>
    requires memory { length words.old ≡ 0x400000 }
    requires line { line.submitter < bus.old.tickets.desk.submitters }
    requires few { length bus.old.tickets.desk.tickets + 1 < 2 ^ 32 }
    requires units { bus.old.tickets.desk.units ≡ bus.old.tickets.rig.units }
    requires accepted { IsNotRefused bus.old.tickets.desk (plain request.now) }
    ensures rig { bus.new.tickets.rig ≡ bus.old.tickets.rig }
    ensures size { length words.new ≡ length words.old }
    ensures built { MatchOption result
        ((bus.new ≡ bus.old) × (words.new ≡ words.old))
        (λ t. Builds bus.old.tickets.desk words.old line (plain request.now) t bus.new.tickets.desk words.new
        × (bus.new.bus ≡ with_room_for bus.old.tickets.desk (plain request.now) bus.old.bus)) }
{
    let target = target_of(&bus.tickets.rig, request.unit);
    let rooms = bus.bus.rooms_at(target);
    if bus.bus.reserve_at(target).is_err() {
        return None;
    }
    match bus.tickets.desk.build(words, line, request) {
        Ok(t) => Some(t),
        Err(_) => {
            bus.bus.give_back(target, &rooms);
            None
        }
    }
}

impl State {
    /// Why the desk refuses a line, which the work has. Nothing changes.
    fn refusal(&mut self, line: Line) -> Option<Refused>
        requires { line.number < length (commands_of self.old.setting line.submitter) }
        ensures same { self.new ≡ self.old }
        ensures reason { MatchOption result
            (AcceptsOf (command_at self.old.setting line) self.old.world)
            (λ r. RefusedFor (command_at self.old.setting line) self.old.world r) }
    {
        let command = command_of(&self.work, line);
        self.bus.tickets.desk.refusal(&command.request)
    }

    /// Decides a submitter's next line by a refusal.
    fn decide_refused(&mut self, line: Line, reason: Refused)
        requires next { line.number ≡ length (lines_of self.old.world line.submitter) }
        requires there { line.number < length (commands_of self.old.setting line.submitter) }
        ensures { self.new ≡ with_world self.old (decides self.old.world line (outcome.Refused reason)) }
    {
        self.refused += 1;
        decide_line(&mut self.lines, line.submitter, Decided::Refused(reason));
    }

    /// Refuses a submitter's next line: it is decided, unless it is tried again.
    fn refuse(&mut self, line: Line, reason: Refused)
        requires next { line.number ≡ length (lines_of self.old.world line.submitter) }
        requires there { line.number < length (commands_of self.old.setting line.submitter) }
        ensures { self.new ≡ with_world self.old
            (refuses (not (is_recorded self.old.setting (step.Build line) (reply.Refused reason))) self.old.world line reason) }
    {
        if self.decides(line, Reply::Refused(reason)) {
            self.decide_refused(line, reason);
        }
    }

    /// Accepts a submitter's next line, which nothing refuses: it answers the number of its ticket. With `None` memory is
    /// wanting, and nothing has changed.
    fn accept(&mut self, line: Line) -> Option<u32>
        requires next { line.number ≡ length (lines_of self.old.world line.submitter) }
        requires there { line.number < length (commands_of self.old.setting line.submitter) }
        requires few { length self.old.world.desk.tickets + 1 < 2 ^ 32 }
        requires accepted { AcceptsOf (command_at self.old.setting line) self.old.world }
        ensures setting { self.new.setting ≡ self.old.setting }
        ensures built { MatchOption result
            (self.new.world ≡ self.old.world)
            (λ t. BuildsOf (command_at self.old.setting line) self.old.world line (reply.Built t) self.new.world) }
    {
        if !reserve_report(&mut self.reports, self.live) {
            return None;
        }
        let command = command_of(&self.work, line);
        let t = build_ticket(&mut self.bus, &mut self.words, line, &command.request)?;
        self.live += 1;
        self.first = self.first.min(t);
        decide_line(&mut self.lines, line.submitter, Decided::Accepted(t));
        Some(t)
    }

    /// Build: a line is refused or accepted.
    pub(crate) fn make_build(&mut self, caller: u32, line: Line) -> Reply
        requires enabled { Enabled self.old.setting self.old.world caller (step.Build line) }
        requires few { length self.old.world.desk.tickets + 1 < 2 ^ 32 }
        ensures setting { self.new.setting ≡ self.old.setting }
        ensures makes { Makes self.old.setting self.old.world caller (step.Build line) result self.new.world }
    {
        if let Some(reason) = self.refusal(line) {
            self.refuse(line, reason);
            return Reply::Refused(reason);
        }
        match self.accept(line) {
            Some(t) => Reply::Built(t),
            None => Reply::OutOfMemory,
        }
    }
}

//! One more line of a submitter.

ghost use Rattle.std.specs.Prelude.{◌≡◌, ◌<◌, ◌≤◌, ◌+◌, ℕ, [], length, sum, vec_capacity, slice_index_or, IfOk, OnOk, OnErr};
ghost use Rattle.rig_types.specs.Works.{IsCommand, counts_of};
ghost use Rattle.world_law.specs.World.{commands_of};
ghost use Rattle.world_law.specs.Laws.{longer};
ghost use Rattle.bench_state.specs.States.{decided_of, rooms_of};

use crate::state::{Lines, State};
use rig_types::{Command, Line, Work};
use std::alloc::AllocError;

impl Lines {
    /// Makes room for so many lines. With `Err`, which is want of memory, the room stays.
    fn reserve(&mut self, count: usize) -> Result<(), AllocError>
        ensures decided { self.new.decided.items ≡ self.old.decided.items }
        ensures kept { vec_capacity self.old.decided ≤ vec_capacity self.new.decided }
        ensures ok { OnOk result (count ≤ vec_capacity self.new.decided) }
    {
        self.decided
            .reserve(count.saturating_sub(self.decided.len()))
    }
}

/// Makes room for so many lines of a submitter. What was decided stays.
#[tactic(auto, using(crate::proofs::NextLines::there, crate::proofs::MoreLines::decided_stay, crate::proofs::MoreLines::rooms_grow, crate::proofs::MoreLines::room_there))]
fn reserve_lines(lines: &mut Vec<Lines>, submitter: u16, count: usize) -> Result<(), AllocError>
    requires { submitter < length lines.old.items }
    ensures decided { decided_of lines.new.items ≡ decided_of lines.old.items }
    ensures kept { (s : ℕ) → slice_index_or (rooms_of lines.old.items) s 0 ≤ slice_index_or (rooms_of lines.new.items) s 0 }
    ensures ok { OnOk result (count ≤ slice_index_or (rooms_of lines.new.items) submitter 0) }
{
    lines[submitter as usize].reserve(count)
}

/// How many lines a submitter has. The work has the submitter.
fn line_count(work: &Work, submitter: u16) -> usize
    requires { submitter < length work.now.submitters }
    ensures { result ≡ length (slice_index_or work.now.submitters submitter []) }
{
    work.submitters.as_slice()[submitter as usize]
        .as_slice()
        .len()
}

impl State {
    /// Adds a last line to a submitter, and answers it. The world stays. Its one error is want of memory, and nothing has
    /// changed.
    ///
    /// Condition: the submitter is there, the command keeps the ranges of a work's command, and the work has fewer than
    /// 2^31 commands.
    pub fn extend(&mut self, submitter: u16, command: Command) -> Result<Line, AllocError>
        requires submitter { submitter < length self.old.setting.submitters }
        requires command { IsCommand command }
        requires few { sum (counts_of self.old.setting.submitters) < 2147483648 }
        ensures line { IfOk result (λ l. l ≡ record { submitter = submitter; number = length (commands_of self.old.setting submitter) }) }
        ensures setting { OnOk result (self.new.setting ≡ longer self.old.setting submitter command) }
        ensures world { self.new.world ≡ self.old.world }
        ensures err { OnErr result (self.new ≡ self.old) }
    {
        let count = line_count(&self.work, submitter) + 1;
        reserve_lines(&mut self.lines, submitter, count)?;
        self.work.extend(submitter, command)
    }
}

//! The tickets of each stage that the reaper waits for, by number.

ghost use Rattle.std.specs.Prelude.{◌≡◌, ℕ, ◌+◌, ◌^◌, ◌<◌, ◌≤◌, Bool, [], length, false, slice_index_or, slice_set, IfOk};
ghost use Rattle.driver_desk.specs.Stages.{is_again, is_check, is_ended, is_unlinked};
ghost use Rattle.driver_desk.specs.StageSets.{HasNumbers, Marks, IsFlagged, AreFlagged};

use desk_law::Stage;
use number_set::NumberSet;
use std::alloc::{AllocError, Global};

/// Sets of numbers of tickets, one for each of four stages.
#[derive(Drop)]
pub(crate) struct StageSets {
    /// Those that are to be queued again.
    pub again: NumberSet,
    /// Those whose sense is to be asked for.
    pub check: NumberSet,
    /// Those that ended.
    pub ended: NumberSet,
    /// Those that were unlinked.
    pub unlinked: NumberSet,
}

/// Makes room for number `n`, which has room already or is the next one.
fn reach(set: &mut NumberSet, n: u32) -> Result<(), AllocError>
    requires { n ≤ length set.old }
    ensures flags { IsFlagged set.old set.new }
    ensures room { IfOk result (λ _. n < length set.new) }
{
    if set.len() == n as usize {
        set.grow()?;
    }
    Ok(())
}

/// Says whether a number is in a set.
fn flag(set: &mut NumberSet, n: u32, holds: bool)
    requires { n < length set.old }
    ensures { set.new ≡ slice_set set.old n holds }
{
    if holds {
        set.insert(n);
    } else if set.contains(n) {
        set.remove(n);
    }
}

impl StageSets {
    /// Sets of no number.
    pub fn new(alloc: Global) -> Result<Self, AllocError>
        ensures again { IfOk result (λ s. s.again ≡ []) }
        ensures check { IfOk result (λ s. s.check ≡ []) }
        ensures ended { IfOk result (λ s. s.ended ≡ []) }
        ensures unlinked { IfOk result (λ s. s.unlinked ≡ []) }
    {
        Ok(StageSets {
            again: NumberSet::new(alloc)?,
            check: NumberSet::new(alloc)?,
            ended: NumberSet::new(alloc)?,
            unlinked: NumberSet::new(alloc)?,
        })
    }

    /// Makes room for ticket `t`, whose number is the next one, in no set. After want of memory some sets may have room.
    pub fn reach(&mut self, t: u32) -> Result<(), AllocError>
        requires { HasNumbers t self.old }
        ensures flags { AreFlagged self.old self.new }
        ensures room { IfOk result (λ _. HasNumbers (t + 1) self.new) }
    {
        reach(&mut self.again, t)?;
        reach(&mut self.check, t)?;
        reach(&mut self.ended, t)?;
        reach(&mut self.unlinked, t)
    }

    /// Enters a ticket under its stage.
    pub fn mark(&mut self, t: u32, stage: Stage)
        requires { HasNumbers (t + 1) self.old }
        ensures { Marks self.old t stage self.new }
    {
        flag(&mut self.again, t, matches!(stage, Stage::Again));
        flag(&mut self.check, t, matches!(stage, Stage::Check));
        flag(&mut self.ended, t, matches!(stage, Stage::Ended(_)));
        flag(&mut self.unlinked, t, matches!(stage, Stage::Unlinked));
    }
}

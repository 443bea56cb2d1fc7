//! What submitters do where there is no room.

ghost use Rattle.std.specs.Prelude.{◌≡◌, ◌≤◌, List, IfOk, length, sum};
ghost use Rattle.rig_types.specs.declared.commands.WhenFull.{WhenFull};
ghost use Rattle.rig_types.specs.Works.{counts_of};
ghost use Rattle.pool_run.specs.Callers.{line_choices, choices_of};

use rig_types::{Command, Commands, WhenFull, Work};
use std::alloc::{AllocError, Global};
use std::marker::Model;

/// What a submitter does at each of its commands. A work has at most 2^31 commands.
#[derive(Drop)]
pub(crate) struct LineChoices {
    held: Vec<WhenFull>,
}

impl Model for LineChoices {
    ghost Value = { List WhenFull };

    ghost view = { λ choices. choices.held.items };

    ghost invariant = { λ choices. length choices.held.items ≤ 2147483648 };
}

impl LineChoices {
    /// The choices of commands. The one error is want of memory.
    fn of(alloc: Global, commands: &[Command]) -> Result<LineChoices, AllocError>
        requires { length commands.now ≤ 2147483648 }
        ensures { IfOk result (λ choices. choices ≡ line_choices commands.now) }
    {
        let mut held = Vec::with_capacity(alloc, commands.len())?;
        for command in commands {
            held.push(command.when_full)?;
        }
        Ok(LineChoices { held })
    }

    /// The choices, by number of the line.
    pub(crate) fn as_slice(&self) -> &[WhenFull]
        ensures choices { result.now ≡ self.now }
        ensures few { length result.now ≤ 2147483648 }
    {
        self.held.as_slice()
    }
}

/// The choices of all submitters.
#[derive(Drop)]
pub(crate) struct Choices {
    held: Vec<LineChoices>,
}

impl Model for Choices {
    ghost Value = { List (List WhenFull) };

    ghost view = { λ choices. choices.held.items };
}

impl Choices {
    /// The choices of a work. The one error is want of memory.
    pub(crate) fn of(alloc: Global, work: &Work) -> Result<Choices, AllocError>
        ensures { IfOk result (λ choices. choices ≡ choices_of work.now.submitters) }
    {
        let submitters = work.submitters.as_slice();
        let held = all_of(alloc, submitters)?;
        Ok(Choices { held })
    }

    /// The choices, by submitter.
    pub(crate) fn as_slice(&self) -> &[LineChoices]
        ensures { result.now ≡ self.now }
    {
        self.held.as_slice()
    }
}

/// The choices of each of these submitters.
fn all_of(alloc: Global, submitters: &[Commands]) -> Result<Vec<LineChoices>, AllocError>
    requires { sum (counts_of submitters.now) ≤ 2147483648 }
    ensures { IfOk result (λ choices. choices.items ≡ choices_of submitters.now) }
{
    let mut held = Vec::with_capacity(alloc, submitters.len())?;
    for commands in submitters {
        held.push(LineChoices::of(alloc, commands.as_slice())?)?;
    }
    Ok(held)
}

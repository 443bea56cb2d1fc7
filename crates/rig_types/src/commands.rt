//! What the submitters ask for.

ghost use Rattle.std.specs.Prelude.{◌≡◌, ◌<◌, ◌++◌, ◌∷◌, [], List, length, OnOk, OnErr};
ghost use Rattle.rig_types.specs.declared.commands.Command.{Command};
ghost use Rattle.rig_types.specs.Works.{extended};

use crate::request::Request;
use std::alloc::AllocError;
use std::marker::Model;

/// What a submitter does where its unit or the buffer region is full.
#[derive(Clone, Copy, Debug, PartialEq, Eq)]
pub enum WhenFull {
    /// It tries again.
    Wait,
    /// The line is refused.
    Skip,
}

/// A request, and how it is submitted.
#[derive(Drop)]
pub struct Command {
    /// What is asked.
    pub request: Request,
    /// What is done where there is no room.
    pub when_full: WhenFull,
    /// It is built only when the submitter's earlier tickets are freed.
    pub wait: bool,
}

/// The commands of one submitter, in its order.
#[derive(Drop)]
pub struct Commands {
    held: Vec<Command>,
}

impl Model for Commands {
    ghost Value = { List Command };

    ghost view = { λ commands. commands.held.items };
}

impl Commands {
    /// The list of a vector.
    pub fn of(held: Vec<Command>) -> Self
        ensures { result ≡ held.items }
    {
        Commands { held }
    }

    /// The commands that it holds.
    pub fn as_slice(&self) -> &[Command]
        ensures { result.now ≡ self.now }
    {
        self.held.as_slice()
    }

    /// The vector, given back.
    pub fn into_vec(self) -> Vec<Command>
        ensures { result.items ≡ self }
    {
        self.held
    }

    /// Adds a last command. Its one error is want of memory, and then nothing has changed.
    pub fn push(&mut self, command: Command) -> Result<(), AllocError>
        ensures ok { OnOk result (self.new ≡ self.old ++ command ∷ []) }
        ensures err { OnErr result (self.new ≡ self.old) }
    {
        self.held.push(command)?;
        Ok(())
    }
}

/// The submitters, each with its commands.
#[derive(Drop)]
pub struct Submitters {
    held: Vec<Commands>,
}

impl Model for Submitters {
    ghost Value = { List (List Command) };

    ghost view = { λ submitters. submitters.held.items };
}

impl Submitters {
    /// The list of a vector.
    pub fn of(held: Vec<Commands>) -> Self
        ensures { result ≡ held.items }
    {
        Submitters { held }
    }

    /// The submitters that it holds.
    pub fn as_slice(&self) -> &[Commands]
        ensures { result.now ≡ self.now }
    {
        self.held.as_slice()
    }

    /// The vector, given back.
    pub fn into_vec(self) -> Vec<Commands>
        ensures { result.items ≡ self }
    {
        self.held
    }

    /// Adds a last command of a submitter, which is there. Its one error is want of memory, and then nothing has changed.
    pub fn push(&mut self, submitter: u16, command: Command) -> Result<(), AllocError>
        requires { submitter < length self.old }
        ensures ok { OnOk result (self.new ≡ extended self.old submitter command) }
        ensures err { OnErr result (self.new ≡ self.old) }
    {
        self.held[submitter as usize].push(command)
    }
}

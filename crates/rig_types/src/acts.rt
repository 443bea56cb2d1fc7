//! The acts that are made beside the commands.

ghost use Rattle.std.specs.Prelude.{◌≡◌, List};
ghost use Rattle.rig_types.specs.declared.acts.Act.{Act};

use crate::step::Line;
use std::marker::Model;

/// What an act does.
#[derive(Clone, Copy, Debug, PartialEq, Eq)]
pub enum ActKind {
    /// It aborts the ticket of this line.
    Abort(Line),
    /// It resets the target of this SCSI ID, 0 to 6, by a message.
    Device(u8),
    /// It resets the bus.
    Bus,
}

/// An act, and when it may be made.
#[derive(Clone, Copy, Debug, PartialEq, Eq)]
pub struct Act {
    /// What it does.
    pub kind: ActKind,
    /// So many lines are refused or have a freed ticket before it is made.
    pub after: u32,
}

/// The acts of a work, in the order in which they are made.
#[derive(Drop)]
pub struct Acts {
    held: Vec<Act>,
}

impl Model for Acts {
    ghost Value = { List Act };

    ghost view = { λ acts. acts.held.items };
}

impl Acts {
    /// The list of a vector.
    pub fn of(held: Vec<Act>) -> Self
        ensures { result ≡ held.items }
    {
        Acts { held }
    }

    /// The acts that it holds.
    pub fn as_slice(&self) -> &[Act]
        ensures { result.now ≡ self.now }
    {
        self.held.as_slice()
    }

    /// The vector, given back.
    pub fn into_vec(self) -> Vec<Act>
        ensures { result.items ≡ self }
    {
        self.held
    }
}

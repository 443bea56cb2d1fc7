//! The work as a whole.

ghost use Rattle.std.specs.Prelude.{◌≡◌, ◌<◌, [], length, sum, slice_index_or, IfOk, OnOk, OnErr};
ghost use Rattle.rig_types.specs.Works.{IsWork, IsCommand, counts_of, extended};

use crate::acts::Acts;
use crate::commands::{Command, Submitters};
use crate::step::Line;
use std::alloc::AllocError;

/// A work. Its type keeps the ranges of its commands and acts, and each act names a line or a target
/// that may be there. It has at most 16 submitters, 2^31 commands and 64 acts.
#[derive(Drop)]
pub struct Work {
    /// The submitters with their commands.
    pub submitters: Submitters,
    /// The acts.
    pub acts: Acts,
    ghost valid: { IsWork submitters acts },
}

impl Work {
    /// Adds a last line to a submitter, and tells which it is. Its one error is want of memory, and then nothing has
    /// changed.
    ///
    /// Condition: the submitter is there, the command is in range, and the work has fewer than 2^31 commands.
    pub fn extend(&mut self, submitter: u16, command: Command) -> Result<Line, AllocError>
        requires there { submitter < length self.old.submitters }
        requires in_range { IsCommand command }
        requires few { sum (counts_of self.old.submitters) < 2147483648 }
        ensures line { IfOk result (λ l. l ≡ record { submitter = submitter; number = length (slice_index_or self.old.submitters submitter []) }) }
        ensures ok { OnOk result (self.new.submitters ≡ extended self.old.submitters submitter command) }
        ensures err { OnErr result (self.new.submitters ≡ self.old.submitters) }
        ensures acts { self.new.acts ≡ self.old.acts }
    {
        let commands = &self.submitters.as_slice()[submitter as usize];
        let number = commands.as_slice().len() as u32;
        self.submitters.push(submitter, command)?;
        Ok(Line { submitter, number })
    }
}

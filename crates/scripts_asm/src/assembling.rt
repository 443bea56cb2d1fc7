//! What assembling a text gives.
ghost use Rattle.std.specs.Prelude.{◌≡◌, List};
ghost use Rattle.scripts_asm.specs.Image as spec;

use scsi_words::{Counts, Text};
use std::alloc::AllocError;
use std::marker::Model;

/// A label: its name, at most 31 characters, and the address of the next instruction, in bytes from the first.
#[derive(Drop)]
pub struct Label {
    pub name: Text,
    pub address: u32,
}

/// The labels of a text, in its order.
#[derive(Drop)]
pub struct Labels {
    held: Vec<Label>,
}

impl Model for Labels {
    ghost use Rattle.std.specs.Prelude.{List};
    ghost use Rattle.scripts_asm.specs.declared.assembling.Label.{Label};

    ghost Value = { List Label };

    ghost view = { λ l. l.held.items };
}

impl Labels {
    /// The list of a vector's labels.
    pub fn of(held: Vec<Label>) -> Self
        ensures { result ≡ held.items }
    {
        Labels { held }
    }

    /// The labels.
    pub fn as_slice(&self) -> &[Label]
        ensures { result.now ≡ self.now }
    {
        self.held.as_slice()
    }
}

/// The words of a text, two or three for each of at most 1,024 instructions, and its labels.
#[derive(Drop)]
pub struct Image {
    pub words: Counts,
    pub labels: Labels,
}

/// The first fault of a text: the number of its line, from 1, and the text of that line without its end.
///
/// Of several faults in a line the first counts, in the order BadToken, BadForm, TwiceLabel, UnknownLabel, TooWide,
/// TooLong.
#[derive(Drop)]
pub enum AsmFault {
    /// A character or number that no token has.
    BadToken { line: u32, shown: Text },
    /// No form, or one with a register, a count or a mask that the instruction table doesn't allow.
    BadForm { line: u32, shown: Text },
    /// A name that no line gives.
    UnknownLabel { line: u32, shown: Text },
    /// A name that was given before.
    TwiceLabel { line: u32, shown: Text },
    /// A number or value that its field can't hold.
    TooWide { line: u32, shown: Text },
    /// The 1,025th instruction.
    TooLong { line: u32, shown: Text },
    OutOfMemory,
}

impl AsmFault {
    /// The number of the fault, 1 to 6 in the order of the variants; None for want of memory.
    pub fn number(&self) -> Option<u8>
        ensures { result ≡ spec.number_of self.now }
    {
        match self {
            AsmFault::BadToken { .. } => Some(1),
            AsmFault::BadForm { .. } => Some(2),
            AsmFault::UnknownLabel { .. } => Some(3),
            AsmFault::TwiceLabel { .. } => Some(4),
            AsmFault::TooWide { .. } => Some(5),
            AsmFault::TooLong { .. } => Some(6),
            AsmFault::OutOfMemory => None,
        }
    }

    /// The number of the fault's line, from 1; None for want of memory.
    pub fn line(&self) -> Option<u32>
        ensures { result ≡ spec.line_of self.now }
    {
        match self {
            AsmFault::BadToken { line, .. }
            | AsmFault::BadForm { line, .. }
            | AsmFault::UnknownLabel { line, .. }
            | AsmFault::TwiceLabel { line, .. }
            | AsmFault::TooWide { line, .. }
            | AsmFault::TooLong { line, .. } => Some(*line),
            AsmFault::OutOfMemory => None,
        }
    }
}

impl From<AllocError> for AsmFault {
    ghost use Rattle.scripts_asm.specs.declared.assembling.AsmFault.TheVariants.{OutOfMemory};

    ghost from_gives = { λ _ e. e ≡ OutOfMemory };

    fn from(_: AllocError) -> Self {
        AsmFault::OutOfMemory
    }
}

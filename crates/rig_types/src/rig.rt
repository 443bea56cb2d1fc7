//! The rig: its units and its limits.

ghost use Rattle.std.specs.Prelude.{◌≡◌, List};
ghost use Rattle.rig_types.specs.Ranges.{IsRig};
ghost use Rattle.rig_types.specs.declared.rig.Unit.{Unit};

use std::marker::Model;

/// What the blocks of a unit hold at the opening.
#[derive(Clone, Copy, Debug, PartialEq, Eq)]
pub enum Pattern {
    /// Zeros.
    Zero,
    /// Byte `i` of block `b` is `(b + i) mod 256`.
    Count,
}

/// A logical unit of a rig. The ranges hold for the units of a `Rig`.
#[derive(Clone, Copy, Debug, PartialEq, Eq)]
pub struct Unit {
    /// The SCSI ID of its target, 0 to 6. The host has ID 7.
    pub target: u8,
    /// Its logical unit number, 0 to 7.
    pub lun: u8,
    /// Its blocks of 512 bytes, 1 to 4,096.
    pub blocks: u32,
    /// What they hold at the opening.
    pub pattern: Pattern,
    /// How many of its tickets may live at once: 1 to 64 in version 1, 1 to 256 in version 2.
    pub depth: u16,
    /// How often one of its tasks may leave the bus or move its data pointer, 0 to 8.
    pub disconnects: u8,
    /// How often it may refuse one ticket by BUSY or QUEUE FULL, 0 to 8.
    pub refusals: u8,
    /// No target answers.
    pub absent: bool,
    /// It breaks the rules of the bus.
    pub rogue: bool,
}

/// The units of a rig, in its order.
#[derive(Drop)]
pub struct Units {
    held: Vec<Unit>,
}

impl Model for Units {
    ghost Value = { List Unit };

    ghost view = { λ units. units.held.items };
}

impl Units {
    /// The list of a vector.
    pub fn of(held: Vec<Unit>) -> Self
        ensures { result ≡ held.items }
    {
        Units { held }
    }

    /// The units that it holds.
    pub fn as_slice(&self) -> &[Unit]
        ensures { result.now ≡ self.now }
    {
        self.held.as_slice()
    }

    /// The vector, given back.
    pub fn into_vec(self) -> Vec<Unit>
        ensures { result.items ≡ self }
    {
        self.held
    }
}

/// A rig. Its type keeps the ranges of its numbers and excludes clashes of its units: a target and
/// LUN stand once, the units of one target are equally absent and equally rogue, none is both, and
/// the depths are together at most 256.
#[derive(Drop)]
pub struct Rig {
    /// 1, where tags are multiples of 4, or 2, where every byte is a tag.
    pub version: u8,
    /// 1 to 16 units.
    pub units: Units,
    /// How often a refused command is queued again, 0 to 8.
    pub retries: u8,
    /// How many entries a list of steps may have, 1 to 4,194,304.
    pub step_limit: u32,
    /// After CHECK CONDITION the driver asks for the sense by itself.
    pub autosense: bool,
    ghost valid: { IsRig version units retries step_limit },
}

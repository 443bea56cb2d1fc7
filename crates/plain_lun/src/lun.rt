//! A unit: what it holds, and its opening.

ghost use Rattle.std.specs.Prelude.{◌≡◌, ◌*◌, ◌<◌, ◌≤◌, length, IfOk};
ghost use Rattle.plain_lun.specs.Unit.{UnitState, blocks_of, opened, filled_disk, pattern_byte};
ghost use Rattle.plain_lun.specs.Performing.{blocks_at, sense_now, sense_to_give};

use crate::sense::SenseCode;
use rig_types::Pattern;
use std::alloc::{AllocError, Global};
use std::marker::Model;

/// The bytes of a block.
pub const BLOCK_BYTES: usize = 512;

/// A logical unit.
#[derive(Drop)]
pub struct Lun {
    pub(crate) disk: Vec<u8>,
    pub(crate) sense: Option<SenseCode>,
    pub(crate) attention: bool,
}

impl Model for Lun {
    ghost Value = { UnitState };

    ghost view = { λ u. record { disk = u.disk.items; sense = u.sense; attention = u.attention } };

    ghost invariant = { λ u. (512 ≤ length u.disk.items) × (length u.disk.items ≤ 2097152) };
}

impl Lun {
    /// A unit of so many blocks that hold the pattern, without sense or attention.
    ///
    /// Condition: 1 to 4,096 blocks.
    pub fn new(alloc: Global, blocks: u32, pattern: Pattern) -> Result<Lun, AllocError>
        requires some { 1 ≤ blocks }
        requires most { blocks ≤ 4096 }
        ensures { IfOk result (λ unit. unit ≡ opened blocks pattern) }
    {
        Ok(Lun {
            disk: filled(alloc, pattern, blocks as usize * BLOCK_BYTES)?,
            sense: None,
            attention: false,
        })
    }

    /// Copies a block.
    ///
    /// Condition: the block is the unit's, and `into` has 512 bytes.
    #[tactic(auto, unfolding(crate::specs::Performing::blocks_at))]
    pub fn block(&self, n: u32, into: &mut [u8])
        requires there { n < blocks_of self.now }
        requires size { length into.old ≡ 512 }
        ensures { into.new ≡ blocks_at self.now.disk n 1 }
    {
        let at = n as usize * BLOCK_BYTES;
        into.copy_from_slice(&self.disk[at..at + BLOCK_BYTES]);
    }

    /// Writes the 18 bytes that REQUEST SENSE would give now.
    ///
    /// Condition: `into` has 18 bytes.
    #[tactic(auto, unfolding(crate::specs::Performing::sense_now))]
    pub fn sense_now(&self, into: &mut [u8])
        requires { length into.old ≡ 18 }
        ensures { into.new ≡ sense_now self.now }
    {
        into.copy_from_slice(&self.sense_to_give().bytes());
    }

    /// The sense that REQUEST SENSE would give now.
    pub(crate) fn sense_to_give(&self) -> SenseCode
        ensures { result ≡ sense_to_give self.now.sense self.now.attention }
    {
        match self.sense {
            Some(sense) => sense,
            None if self.attention => SenseCode::reset_occurred(),
            None => SenseCode::no_sense(),
        }
    }
}

/// So many bytes of the pattern.
fn filled(alloc: Global, pattern: Pattern, bytes: usize) -> Result<Vec<u8>, AllocError>
    requires { bytes ≤ 2097152 }
    ensures { IfOk result (λ disk. disk.items ≡ filled_disk pattern bytes) }
{
    let mut disk = Vec::with_capacity(alloc, bytes)?;
    for k in 0..bytes {
        disk.push(pattern_byte(pattern, k / BLOCK_BYTES, k % BLOCK_BYTES))?;
    }
    Ok(disk)
}

/// Byte `i`, below 512, of block `b`, below 4,096, of a unit of this pattern at its opening.
pub fn pattern_byte(pattern: Pattern, b: usize, i: usize) -> u8
    requires block { b < 4096 }
    requires byte { i < 512 }
    ensures { result ≡ pattern_byte pattern b i }
{
    match pattern {
        Pattern::Zero => 0,
        Pattern::Count => ((b + i) % 256) as u8,
    }
}

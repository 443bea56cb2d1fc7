//! What all tasks of a logical unit share: the unit by itself, and its log.
#![tactic(auto)]

ghost use Rattle.std.specs.Prelude.{◌≡◌, ◌≤◌, [], IfOk};
ghost use Rattle.plain_lun.specs.Unit.{opened};

use plain_lun::Lun;
use rig_types::Unit;
use std::alloc::{AllocError, Global};
use unit_log::UnitLog;

#[cfg(test)]
mod tests;

/// A logical unit without its tasks.
#[derive(Drop)]
pub struct Core {
    /// The unit by itself.
    pub lun: Lun,
    /// Its log.
    pub log: UnitLog,
}

impl Core {
    /// The unit as it is at its opening, with an empty log that has room for no entry.
    ///
    /// Condition: 1 to 4,096 blocks.
    pub fn open(alloc: Global, unit: &Unit) -> Result<Core, AllocError>
        requires some { 1 ≤ unit.now.blocks }
        requires most { unit.now.blocks ≤ 4096 }
        ensures lun { IfOk result (λ core. core.lun ≡ opened unit.now.blocks unit.now.pattern) }
        ensures log { IfOk result (λ core. core.log ≡ record { entries = []; room = 0 }) }
    {
        Ok(Core {
            lun: Lun::new(alloc, unit.blocks, unit.pattern)?,
            log: UnitLog::new(alloc),
        })
    }
}

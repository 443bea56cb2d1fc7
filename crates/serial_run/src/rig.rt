//! The generated rig.

ghost use Rattle.std.specs.Prelude.{◌≡◌, IfOk};
ghost use Rattle.serial_run.specs.Generated.{IsGeneratedRig, unit_of};

use rig_types::{Pattern, Rig, Unit, Units};
use std::alloc::{AllocError, Global};

/// Two targets, each with one unit of 4,096 blocks and a depth of 32 that leaves the bus at most once for a command; the
/// limit of steps is the greatest.
pub fn generated_rig(alloc: Global) -> Result<Rig, AllocError>
    ensures { IfOk result IsGeneratedRig }
{
    let units = [unit_of(0), unit_of(1)].to_vec(alloc)?;
    Ok(Rig {
        version: 1,
        units: Units::of(units),
        retries: 0,
        step_limit: 4_194_304,
        autosense: false,
    })
}

fn unit_of(target: u8) -> Unit
    ensures { result ≡ unit_of target }
{
    Unit {
        target,
        lun: 0,
        blocks: 4096,
        pattern: Pattern::Count,
        depth: 32,
        disconnects: 1,
        refusals: 0,
        absent: false,
        rogue: false,
    }
}

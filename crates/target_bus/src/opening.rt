//! The opening of the bus.

ghost use Rattle.std.specs.Prelude.{◌≡◌, IfOk, vec_len};
ghost use Rattle.bus_law.specs.Bus.{units_of, bus_opened, device_at};

use crate::bus::TargetBus;
use rig_types::{Rig, Unit};
use scsi_target::Device;
use std::alloc::{AllocError, Global};

impl TargetBus {
    /// The free bus with every unit of the rig at its opening, and logs that have room for no entry. It takes the memory of
    /// all disks, and of 65,536 bytes for each task of each unit's depth.
    pub fn open(alloc: Global, rig: &Rig) -> Result<TargetBus, AllocError>
        ensures { IfOk result (λ bus. bus ≡ bus_opened rig.now.units) }
    {
        let mut devices = Vec::new(alloc);
        for id in 0..7 {
            let units = units_of(alloc, rig.units.as_slice(), id)?;
            let device = Device::open(alloc, units.as_slice())?;
            devices.push(device)?;
        }
        Ok(TargetBus {
            devices,
            connected: None,
            atn: false,
            ack: false,
            asked: None,
        })
    }
}

/// The units of a target, in the order of the rig.
fn units_of(alloc: Global, units: &[Unit], id: u8) -> Result<Vec<Unit>, AllocError>
    ensures { IfOk result (λ found. found.items ≡ units_of units.now id) }
{
    units
        .iter()
        .filter(|unit| unit.target == id)
        .copied()
        .collect(alloc)
}

//! What can be read of the units: their logs and their disks.

ghost use Rattle.std.specs.Prelude.{◌≡◌, ◌<◌, length, slice_get};
ghost use Rattle.plain_lun.specs.Unit.{blocks_of};
ghost use Rattle.target_law.specs.Target.{unit_at};
ghost use Rattle.target_law.specs.Lawful.{IsThere};
ghost use Rattle.bus_law.specs.Bus.{device_at};
ghost use Rattle.world_law.specs.World.{log_by, log_of};
ghost use Rattle.bench_state.specs.Reading.{disk_of, block_at};

use crate::state::State;
use scsi_target::Device;
use unit_law::LogEntry;

/// The n-th entry of the log of a device's unit, counted from 0, `None` exactly past the end and where there is no such
/// unit.
#[tactic(auto, using(crate::proofs::UnitReading::entry_there, crate::proofs::UnitReading::entry_nowhere))]
fn entry_of(device: &Device, lun: u8, n: u32) -> Option<LogEntry>
    ensures { result ≡ slice_get (log_by (unit_at device.now.target.units lun)) n }
{
    match device.unit(lun) {
        Some(_) => device.log_entry(lun, n),
        None => None,
    }
}

impl State {
    /// The n-th entry of a unit's log, counted from 0, `None` exactly past the end. The rig has the unit.
    pub fn log(&self, unit: u8, n: u32) -> Option<LogEntry>
        requires { unit < length self.now.setting.units }
        ensures { result ≡ slice_get (log_of self.now.world unit) n }
    {
        let place = self.bus.tickets.rig.units.as_slice()[unit as usize];
        entry_of(self.bus.bus.device(place.target), place.lun, n)
    }

    /// Copies a block of the disk of a unit that stands at this target and LUN. `into` has 512 bytes.
    #[tactic(auto, using(crate::proofs::UnitReading::block_there))]
    pub fn block(&self, target: u8, lun: u8, n: u32, into: &mut [u8])
        requires target { target < 7 }
        requires there { IsThere (unit_at (device_at self.now.world.bus target).target.units lun) (λ u. n < blocks_of u.plain) }
        requires size { length into.old ≡ 512 }
        ensures { into.new ≡ block_at (disk_of (unit_at (device_at self.now.world.bus target).target.units lun)) n }
    {
        self.bus.bus.device(target).block(lun, n, into);
    }
}

//! The bus reset.

ghost use Rattle.std.specs.Prelude.{◌≡◌, ◌<◌, ℕ, map, vec_len, slice_index_or, OnOk, OnErr};
ghost use Rattle.scsi_target.specs.Devices.{KeepsPlaces};
ghost use Rattle.bus_law.specs.Bus.{BusState, no_device, device_reset, bus_reset};
ghost use Rattle.bus_law.specs.Rooms.{with_all_room};

use crate::bus::TargetBus;
use scsi_target::Device;
use std::alloc::AllocError;

impl TargetBus {
    /// Makes room in every log, resets the units of every target, absent ones too, and frees the bus. With `Err`, which is
    /// want of memory, nothing has changed.
    pub fn reset(&mut self) -> Result<(), AllocError>
        ensures ok { OnOk result (self.new ≡ bus_reset (with_all_room self.old)) }
        ensures err { OnErr result (self.new ≡ self.old) }
    {
        self.reserve_all()?;
        self.reset_reserved();
        Ok(())
    }

    /// Resets the units of every target once there is room for that.
    fn reset_reserved(&mut self)
        requires { (old : BusState) × (self.old ≡ with_all_room old) }
        ensures { self.new ≡ bus_reset self.old }
    {
        reset_all(&mut self.devices);
        self.connected = None;
        self.atn = false;
        self.ack = false;
        self.asked = None;
    }
}

/// Resets the units of every device, where each log of it has room for that.
fn reset_all(devices: &mut Vec<Device>)
    ensures devices { devices.new.items ≡ map device_reset devices.old.items }
    ensures count { vec_len devices.new ≡ vec_len devices.old }
    ensures places { (id : ℕ) → id < vec_len devices.old → KeepsPlaces (slice_index_or devices.old.items id no_device) }
{
    for i in 0..devices.len() {
        devices[i].reset();
    }
}

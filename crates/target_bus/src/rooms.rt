//! The room of the units' logs: it is made in all logs that are asked for, or in none.

ghost use Rattle.std.specs.Prelude.{◌≡◌, ◌+◌, ◌*◌, ◌-◌, ◌<◌, ◌≤◌, vec_len, OnOk, OnErr, MatchResult, Some};
ghost use Rattle.target_law.specs.Target.{LogicalUnit, unit_at};
ghost use Rattle.target_law.specs.Devices.{DeviceState, room_at};
ghost use Rattle.bus_law.specs.Bus.{BusState, device_at};
ghost use Rattle.bus_law.specs.Rooms.{reserve_of, with_room, with_room_at, with_all_room};
ghost use Rattle.target_bus.specs.Rooms.{with_rooms_from, RoomMade, AreRoomsOf, IsRoomOf, WasReserved};

use crate::bus::TargetBus;
use rig_types::Unit;
use scsi_target::Device;
use std::alloc::AllocError;

/// How many logs a bus may have: one for each LUN of each SCSI ID of a target.
const LOGS: u8 = 56;

impl TargetBus {
    /// Makes room in the logs of a target's units for all that their live tickets may log, and for two resets. With `Err`,
    /// which is want of memory, nothing has changed.
    ///
    /// Condition: the ID is 0 to 6.
    pub fn reserve_at(&mut self, target: u8) -> Result<(), AllocError>
        requires { target < 7 }
        ensures ok { OnOk result (self.new ≡ with_room_at self.old target) }
        ensures err { OnErr result (self.new ≡ self.old) }
    {
        let first = target * 8;
        reserve_from(&mut self.devices, first, first + 8)
    }

    /// The rooms of a target's logs by LUN, by which `give_back` undoes a later `reserve_at`. Where there is no unit it is 0.
    ///
    /// Condition: the ID is 0 to 6.
    pub fn rooms_at(&self, target: u8) -> [usize; 8]
        requires { target < 7 }
        ensures { AreRoomsOf (device_at self.now target) result }
    {
        let device = &self.devices[target as usize];
        let mut rooms = [0; 8];
        for lun in 0..8 {
            rooms[lun as usize] = room_of(device, lun);
        }
        rooms
    }

    /// Gives back the room that `reserve_at` made since the rooms were these: the bus is as it was then.
    ///
    /// Condition: nothing else has changed since then.
    pub fn give_back(&mut self, target: u8, rooms: &[usize; 8])
        requires target { target < 7 }
        requires reserved { (old : BusState) × WasReserved old target rooms.now self.old }
        ensures { (old : BusState) → WasReserved old target rooms.now self.old → self.new ≡ old }
    {
        give_back_all(&mut self.devices[target as usize], rooms);
    }

    /// Makes room in the logs of every target.
    pub(crate) fn reserve_all(&mut self) -> Result<(), AllocError>
        ensures ok { OnOk result (self.new ≡ with_all_room self.old) }
        ensures err { OnErr result (self.new ≡ self.old) }
    {
        reserve_from(&mut self.devices, 0, LOGS)
    }
}

/// Makes room in the logs from this place up to that one, of those that are there: in all of them, or with `Err` in none.
fn reserve_from(devices: &mut Vec<Device>, place: u8, end: u8) -> Result<(), AllocError>
    requires seven { vec_len devices.old ≡ 7 }
    requires order { place ≤ end }
    requires end { end ≤ 56 }
    ensures ok { OnOk result (devices.new.items ≡ with_rooms_from devices.old.items place (end - place)) }
    ensures err { OnErr result (devices.new.items ≡ devices.old.items) }
    ensures count { vec_len devices.new ≡ vec_len devices.old }
{
    if place == end {
        return Ok(());
    }
    let id = (place / 8) as usize;
    let lun = place % 8;
    let room = reserve_one(&mut devices[id], lun)?;
    let rest = reserve_from(devices, place + 1, end);
    if rest.is_err() {
        give_back_one(&mut devices[id], lun, room);
    }
    rest
}

/// Makes room in the log of a LUN, if there is a unit. The room that it had before.
fn reserve_one(device: &mut Device, lun: u8) -> Result<usize, AllocError>
    ensures { MatchResult result (λ room. RoomMade device.old lun room device.new) (λ e. device.new ≡ device.old) }
{
    let Some(unit) = device.unit(lun) else {
        return Ok(0);
    };
    let room = device.room(lun);
    device.reserve(lun, reserve_of(&unit))?;
    Ok(room)
}

/// Gives back the room that was made in a log since it was this.
fn give_back_one(device: &mut Device, lun: u8, room: usize)
    requires { (old : DeviceState) × RoomMade old lun room device.old }
    ensures { (old : DeviceState) → RoomMade old lun room device.old → device.new ≡ old }
{
    match device.unit(lun) {
        Some(_) => device.lower_room(lun, room),
        None => {}
    }
}

/// Gives back the room that was made in each log of a device since the rooms were these.
fn give_back_all(device: &mut Device, rooms: &[usize; 8])
    requires { (old : DeviceState) × AreRoomsOf old rooms.now × (device.old ≡ with_room old) }
    ensures { (old : DeviceState) → AreRoomsOf old rooms.now → device.old ≡ with_room old → device.new ≡ old }
{
    for made in 0..8 {
        let lun: u8 = 7 - made;
        give_back_one(device, lun, rooms[lun as usize]);
    }
}

/// The room of the log of a LUN, 0 where there is no unit.
fn room_of(device: &Device, lun: u8) -> usize
    ensures { IsRoomOf device.now lun result }
{
    match device.unit(lun) {
        Some(_) => device.room(lun),
        None => 0,
    }
}

/// How many entries a unit's log is to have room for, beyond those that it has.
fn reserve_of(unit: &Unit) -> u32
    ensures { result ≡ reserve_of unit.now }
{
    unit.depth as u32 * (unit.refusals as u32 + 3) + 2
}

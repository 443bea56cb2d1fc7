//! The device: its opening, and what can be read of it.

ghost use Rattle.std.specs.Prelude.{◌≡◌, ◌<◌, ◌≤◌, ◌+◌, ℕ, Some, None, true, false, not, length, map, replicate, vec_len, slice_get, IfOk, IfSome, OnOk, OnErr};
ghost use Rattle.std.specs.List.{list_any};
ghost use Rattle.plain_lun.specs.Unit.{blocks_of};
ghost use Rattle.plain_lun.specs.Performing.{blocks_at};
ghost use Rattle.target_law.specs.Target.{unit_at};
ghost use Rattle.target_law.specs.Calls.{is_free, is_rogue, is_rogue_connected, is_absent, answers, link_phase, nexus_of, candidates};
ghost use Rattle.target_law.specs.Beginning.{has_place};
ghost use Rattle.target_law.specs.Devices.{room_at, device_opened, device_reserved, device_lowered};
ghost use Rattle.target_law.specs.Lawful.{IsThere};
ghost use Rattle.target_law.specs.Rigs.{rig_of};
ghost use Rattle.scsi_target.specs.Devices.{IsOneTarget, IsPresent, first_is_rogue, HasUnit, place_for};
ghost use Rattle.scsi_target.specs.Slots.{slot_of, has_unit_in, answers_in};

use crate::connection_state::ConnectionState;
use rig_types::Unit;
use scsi_words::Phase;
use std::alloc::{AllocError, Global};
use std::marker::Model;
use target_law::Nexus;
use unit_law::LogEntry;
use unit_tasks::QueuedUnit;

/// A target with its logical units, their tasks and their logs. Contracts see the state of the target, and how
/// many entries each log has room for.
#[derive(Drop)]
pub struct Device {
    /// The units by LUN.
    pub(crate) units: Vec<Option<QueuedUnit>>,
    pub(crate) link: ConnectionState,
    /// Its units break the rules of the bus.
    pub(crate) rogue: bool,
}

impl Model for Device {
    ghost use Rattle.std.specs.Prelude.{vec_len};
    ghost use Rattle.target_law.specs.Devices.{DeviceState};
    ghost use Rattle.scsi_target.specs.Held.{IsHeldDevice};
    ghost use Rattle.scsi_target.specs.Views.{device_of};

    ghost Value = { DeviceState };

    ghost view = { λ d. device_of d.units.items d.link };

    ghost invariant = { λ d. IsHeldDevice (vec_len d.units) d.units.items d.link d.rogue };
}

impl Device {
    /// A target with these units at their opening, not connected, and with logs that have room for no entry. It
    /// takes the memory of 65,536 bytes for each task of each unit's depth.
    ///
    /// Condition: the units are those of one target of a rig.
    pub fn open(alloc: Global, units: &[Unit]) -> Result<Device, AllocError>
        requires { (version : ℕ) × IsOneTarget version units.now }
        ensures { IfOk result (λ device. device ≡ device_opened units.now) }
    {
        let rogue = first_is_rogue(units);
        let mut slots = empty_slots(alloc)?;
        for unit in units {
            slots[unit.lun as usize] = Some(QueuedUnit::open(alloc, unit)?);
        }
        Ok(Device {
            units: slots,
            link: ConnectionState::BusFree,
            rogue,
        })
    }

    /// Makes room in a unit's log, so that `n` more entries fit, and no more than that; nothing else changes. An `Err`
    /// leaves the device as it was; it is want of memory, and never comes where the entries fitted before.
    ///
    /// Condition: the LUN is there.
    pub fn reserve(&mut self, lun: u8, n: u32) -> Result<(), AllocError>
        requires { HasUnit self.old lun }
        ensures ok { OnOk result (self.new ≡ device_reserved self.old lun n) }
        ensures err { OnErr result (self.new ≡ self.old) }
        ensures full { OnErr result (IsThere (unit_at self.old.target.units lun) (λ u. room_at self.old lun < length u.log + n)) }
    {
        match &mut self.units[lun as usize] {
            Some(unit) => unit.core.log.reserve(n),
            None => unreachable!(),
        }
    }

    /// How many entries a unit's log has room for in all.
    ///
    /// Condition: the LUN is there.
    pub fn room(&self, lun: u8) -> usize
        requires { HasUnit self.now lun }
        ensures room { result ≡ room_at self.now lun }
        ensures fits { IsThere (unit_at self.now.target.units lun) (λ u. length u.log ≤ result) }
    {
        match &self.units[lun as usize] {
            Some(unit) => unit.core.log.room(),
            None => unreachable!(),
        }
    }

    /// Lowers the room of a unit's log to this many entries in all; nothing else changes. The memory stays with the log.
    ///
    /// Condition: the LUN is there, its entries fit in the room, and that is no more than it was.
    pub fn lower_room(&mut self, lun: u8, room: usize)
        requires { IsThere (unit_at self.old.target.units lun) (λ u. (length u.log ≤ room) × (room ≤ room_at self.old lun)) }
        ensures { self.new ≡ device_lowered self.old lun room }
    {
        match &mut self.units[lun as usize] {
            Some(unit) => unit.core.log.lower_room(room),
            None => unreachable!(),
        }
    }

    /// Whether the target is connected.
    pub fn connected(&self) -> bool
        ensures { result ≡ not (is_free self.now.target.link) }
    {
        !matches!(self.link, ConnectionState::BusFree)
    }

    /// The phase that the target shows, `None` exactly where it isn't connected or is to choose.
    pub fn shown(&self) -> Option<Phase>
        ensures { result ≡ link_phase self.now.target.link }
    {
        match &self.link {
            ConnectionState::BusFree => None,
            ConnectionState::Selected(_) => Some(Phase::MsgOut),
            ConnectionState::TakingCommand(..) => Some(Phase::Command),
            ConnectionState::TaskConnected(connection) => connection.phase(),
            ConnectionState::RogueConnected(shown, _) => rogue_target::phase_of(*shown),
        }
    }

    /// The nexus of this connection, `None` exactly where neither a message nor a reselection named one.
    pub fn nexus(&self) -> Option<Nexus>
        ensures nexus { result ≡ nexus_of self.now.target.link }
        ensures lun { IfSome result (λ n. n.lun < 8) }
    {
        match &self.link {
            ConnectionState::BusFree | ConnectionState::Selected(_) => None,
            ConnectionState::TakingCommand(nexus, _) => Some(*nexus),
            ConnectionState::TaskConnected(connection) => Some(Nexus {
                lun: connection.lun(),
                tag: connection.tag(),
            }),
            ConnectionState::RogueConnected(_, named) => *named,
        }
    }

    /// How many candidates for a reselection a unit has: its tasks that aren't connected, or one where it breaks
    /// the rules.
    ///
    /// Condition: the LUN is there.
    pub fn can_reselect(&self, lun: u8) -> u32
        requires { HasUnit self.now lun }
        ensures { IsThere (unit_at self.now.target.units lun) (λ u. result ≡ candidates u) }
    {
        match &self.units[lun as usize] {
            Some(unit) => unit.candidates() as u32,
            None => unreachable!(),
        }
    }

    /// What the rig says of the unit with a LUN, `None` exactly where there is none.
    pub fn unit(&self, lun: u8) -> Option<Unit>
        ensures { result ≡ rig_of (unit_at self.now.target.units lun) }
    {
        rig_at(&self.units, lun)
    }

    /// Whether `begin_task` may be called with a ticket: the named unit has a task of that tag, so that none begins, or
    /// fewer tasks than its depth. It is true where no nexus is named.
    pub fn has_place(&self) -> bool
        ensures { result ≡ place_for self.now.target (nexus_of self.now.target.link) }
    {
        match self.nexus() {
            Some(nexus) => self.has_place_for(nexus),
            None => true,
        }
    }

    fn has_place_for(&self, nexus: Nexus) -> bool
        requires { nexus.lun < 8 }
        ensures { result ≡ place_for self.now.target (Some nexus) }
    {
        has_place_in(&self.units[nexus.lun as usize], nexus.tag)
    }

    /// Whether its units break the rules of the bus. Only then may such units be connected, and may a reselection of a
    /// unit show any tag.
    pub fn is_rogue(&self) -> bool
        ensures rogue { result ≡ is_rogue self.now.target }
        ensures link { result ≡ false → is_rogue_connected self.now.target.link ≡ false }
    {
        self.rogue
    }

    /// Whether units that break the rules are connected.
    pub fn is_rogue_connected(&self) -> bool
        ensures { result ≡ is_rogue_connected self.now.target.link }
    {
        matches!(self.link, ConnectionState::RogueConnected(..))
    }

    /// Whether the target is absent: it has units, and none of them answers.
    pub fn is_absent(&self) -> bool
        ensures { result ≡ is_absent self.now.target }
    {
        let some = has_units(&self.units);
        let none_answers = !answers(&self.units);
        some & none_answers
    }

    /// Whether the target answers a selection: it has a unit that isn't absent.
    pub fn answers(&self) -> bool
        ensures answers { result ≡ answers self.now.target }
        ensures present { result ≡ true → IsPresent self.now }
    {
        answers(&self.units)
    }

    /// Copies a block of a unit's disk.
    ///
    /// Condition: the LUN and the block are there, and `into` has 512 bytes.
    pub fn block(&self, lun: u8, n: u32, into: &mut [u8])
        requires there { IsThere (unit_at self.now.target.units lun) (λ u. n < blocks_of u.plain) }
        requires size { length into.old ≡ 512 }
        ensures { IsThere (unit_at self.now.target.units lun) (λ u. into.new ≡ blocks_at u.plain.disk n 1) }
    {
        match &self.units[lun as usize] {
            Some(unit) => unit.core.lun.block(n, into),
            None => unreachable!(),
        }
    }

    /// The n-th entry of a unit's log, from 0, `None` exactly past the end.
    ///
    /// Condition: the LUN is there.
    pub fn log_entry(&self, lun: u8, n: u32) -> Option<LogEntry>
        requires { HasUnit self.now lun }
        ensures { IsThere (unit_at self.now.target.units lun) (λ u. result ≡ slice_get u.log n) }
    {
        match &self.units[lun as usize] {
            Some(unit) => unit.core.log.entry(n),
            None => unreachable!(),
        }
    }
}

/// Whether the unit in a place, if there is one, has a place for a task of the tag.
fn has_place_in(unit: &Option<QueuedUnit>, tag: u8) -> bool
    ensures { result ≡ has_place (slot_of unit.now) tag }
{
    match unit {
        Some(unit) => unit.tasks.has_tag(tag) || unit.tasks.len() < unit.rig.depth as usize,
        None => false,
    }
}

/// What the rig says of the unit with a LUN, if there is one.
fn rig_at(units: &Vec<Option<QueuedUnit>>, lun: u8) -> Option<Unit>
    ensures { result ≡ rig_of (unit_at (map slot_of units.now.items) lun) }
{
    if units.len() <= lun as usize {
        return None;
    }
    rig_in(&units[lun as usize])
}

/// What the rig says of the unit in a place, if there is one.
fn rig_in(unit: &Option<QueuedUnit>) -> Option<Unit>
    ensures { result ≡ rig_of (slot_of unit.now) }
{
    match unit {
        Some(unit) => Some(unit.rig),
        None => None,
    }
}

/// Whether there is a unit.
fn has_units(units: &[Option<QueuedUnit>]) -> bool
    ensures { result ≡ list_any has_unit_in units.now }
{
    units.iter().any(|unit| unit.is_some())
}

/// Whether a unit isn't absent.
fn answers(units: &[Option<QueuedUnit>]) -> bool
    ensures { result ≡ list_any answers_in units.now }
{
    units.iter().any(|unit| is_present(unit))
}

fn is_present(unit: &Option<QueuedUnit>) -> bool
    ensures { result ≡ answers_in unit.now }
{
    match unit {
        Some(unit) => !unit.rig.absent,
        None => false,
    }
}

/// Places for the units of a target, none of which is there.
fn empty_slots(alloc: Global) -> Result<Vec<Option<QueuedUnit>>, AllocError>
    ensures items { IfOk result (λ slots. slots.items ≡ replicate 8 None) }
    ensures count { IfOk result (λ slots. vec_len slots ≡ 8) }
{
    Ok(Vec::from_array(alloc, [None, None, None, None, None, None, None, None])?)
}

/// Whether the first unit breaks the rules, and so all do.
fn first_is_rogue(units: &[Unit]) -> bool
    ensures { result ≡ first_is_rogue units.now }
{
    match units.first() {
        Some(unit) => unit.rogue,
        None => false,
    }
}

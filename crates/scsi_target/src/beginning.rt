//! The beginning of a task.

ghost use Rattle.std.specs.Prelude.{◌≡◌, ◌<◌, Bool, true, false, not, map, vec_len, Some, IsSome};
ghost use Rattle.cdb_codec.specs.Blocks.{cdb_of};
ghost use Rattle.cdb_codec.specs.Forms.{FitsForm};
ghost use Rattle.target_law.specs.Beginning.{where_placed, begins, target_took};
ghost use Rattle.target_law.specs.Calls.{is_whole, whole_by, link_takes, begun_with, target_begun};
ghost use Rattle.unit_tasks.specs.Units.{unit_of};
ghost use Rattle.scsi_target.specs.Beginnings.{makes_none, link_begun, HasPlaceFor};
ghost use Rattle.scsi_target.specs.Devices.{HasPlace};
ghost use Rattle.scsi_target.specs.TaskExits.{IsOnlyHere};
ghost use Rattle.scsi_target.specs.Slots.{room_of, At};
ghost use Rattle.scsi_target.specs.Views.{link_of, device_of, IsSlot, IsDevice};
ghost use Rattle.scsi_target.specs.declared.connection_state.ConnectionState.TheVariants as held;

use crate::connection_state::{Block, ConnectionState};
use crate::device::Device;
use cdb_codec::{Cdb, need, read_cdb};
use std::mem;
use target_law::Nexus;
use target_session::Connection;
use unit_tasks::{QueuedUnit, TaskList};

/// The most bytes that a command may need.
const MOST_BYTES: u32 = 65_536;

impl Device {
    /// Makes the task of a whole command, with the live ticket of its tag. The bus goes free instead where there is
    /// no such ticket, where the unit has a task of the tag already, or where the command needs more than 65,536
    /// bytes.
    ///
    /// Condition: the command is whole; where a ticket is given and no task of the unit has the tag, the unit has
    /// fewer tasks than its depth.
    pub fn begin_task(&mut self, ticket: Option<u32>)
        requires whole { whole_by self.old.target.link ≡ true }
        requires place { IsSome ticket → HasPlace self.old }
        ensures { self.new ≡ record { target = target_begun self.old.target ticket; rooms = self.old.rooms } }
    {
        let link = mem::replace(&mut self.link, ConnectionState::BusFree);
        self.link = begin_from_link(&mut self.units, link, ticket);
    }

    /// Takes a byte from the initiator as `byte_out` does. Where it is the last one of a command descriptor block, the
    /// task begins in this very call, with the live ticket of the connection's nexus; the bus goes free instead where
    /// there is no such ticket, where the unit has a task of the tag already or no place for one more, or where the
    /// command needs more than 65,536 bytes. So no whole command ever waits for its task.
    pub fn take_byte(&mut self, b: u8, ticket: Option<u32>) -> bool
        ensures taken { result ≡ link_takes self.old.target.link }
        ensures state { self.new ≡ record { target = target_took (λ n. ticket) self.old.target b; rooms = self.old.rooms } }
    {
        if !self.byte_out(b) {
            return false;
        }
        self.begin_where_whole(ticket);
        true
    }

    /// Makes the task of a command that is whole, if it is.
    fn begin_where_whole(&mut self, ticket: Option<u32>)
        ensures { self.new ≡ record { target = begins (λ n. ticket) self.old.target; rooms = self.old.rooms } }
    {
        if !self.cdb_whole() {
            return;
        }
        let placed = where_placed(self.has_place(), ticket);
        self.begin_task(placed);
    }
}

/// The ticket where there is a place for its task.
fn where_placed(place: bool, ticket: Option<u32>) -> Option<u32>
    ensures { result ≡ where_placed place ticket }
{
    if place { ticket } else { None }
}

/// The link after the beginning of a task.
fn begin_from_link(
    units: &mut Vec<Option<QueuedUnit>>,
    link: ConnectionState,
    ticket: Option<u32>,
) -> ConnectionState
    requires device { (rogue : Bool) × IsDevice (vec_len units.old) units.old.items link rogue }
    requires whole { whole_by (link_of link) ≡ true }
    requires place { IsSome ticket → HasPlace (device_of units.old.items link) }
    ensures state { device_of units.new.items result ≡ record {
      target = target_begun (device_of units.old.items link).target ticket;
      rooms = map room_of units.old.items;
    } }
    ensures device { (rogue : Bool) → IsDevice (vec_len units.old) units.old.items link rogue →
        IsDevice (vec_len units.new) units.new.items result rogue }
{
    match link {
        ConnectionState::TakingCommand(nexus, block) => begin_for_nexus(
            units, nexus, block, ticket,
        ),
        _ => unreachable!(),
    }
}

/// The link after the command of a nexus, with the live ticket of its tag, if there is one.
fn begin_for_nexus(
    units: &mut Vec<Option<QueuedUnit>>,
    nexus: Nexus,
    block: Block,
    ticket: Option<u32>,
) -> ConnectionState
    requires device { IsDevice (vec_len units.old) units.old.items (held.TakingCommand nexus block) false }
    requires whole { is_whole block.bytes.items ≡ true }
    requires place { IsSome ticket → HasPlace (device_of units.old.items (held.TakingCommand nexus block)) }
    ensures state { device_of units.new.items result ≡ record {
      target = begun_with (device_of units.old.items (held.TakingCommand nexus block)).target nexus (cdb_of block.bytes.items) ticket;
      rooms = map room_of units.old.items;
    } }
    ensures device { IsDevice (vec_len units.new) units.new.items result false }
{
    match ticket {
        Some(ticket) => begin_for_ticket(units, nexus, &block, ticket),
        None => ConnectionState::BusFree,
    }
}

/// The link after the command of a nexus with a live ticket.
fn begin_for_ticket(
    units: &mut Vec<Option<QueuedUnit>>,
    nexus: Nexus,
    block: &Block,
    ticket: u32,
) -> ConnectionState
    requires device { IsDevice (vec_len units.old) units.old.items (held.TakingCommand nexus block.now) false }
    requires whole { is_whole block.now.bytes.items ≡ true }
    requires place { At units.old.items nexus.lun (λ q. HasPlaceFor nexus (unit_of q)) }
    ensures state { device_of units.new.items result ≡ record {
      target = begun_with (device_of units.old.items (held.TakingCommand nexus block.now)).target nexus (cdb_of block.now.bytes.items) (Some ticket);
      rooms = map room_of units.old.items;
    } }
    ensures device { IsDevice (vec_len units.new) units.new.items result false }
{
    match &mut units[nexus.lun as usize] {
        Some(unit) => begin_in_unit(unit, nexus, block, ticket),
        None => unreachable!(),
    }
}

/// The link after the command of a unit's tag.
fn begin_in_unit(unit: &mut QueuedUnit, nexus: Nexus, block: &Block, ticket: u32) -> ConnectionState
    requires slot { IsSlot false (held.TakingCommand nexus block.now) nexus.lun unit.old }
    requires whole { is_whole block.now.bytes.items ≡ true }
    requires place { HasPlaceFor nexus (unit_of unit.old) }
    requires lun { nexus.lun < 8 }
    ensures unit { unit_of unit.new ≡ unit_of unit.old }
    ensures room { unit.new.core.log.room ≡ unit.old.core.log.room }
    ensures link { link_of result ≡ link_begun nexus (cdb_of block.now.bytes.items) (unit_of unit.old) ticket }
    ensures slot { IsSlot false result nexus.lun unit.new }
    ensures only { IsOnlyHere nexus.lun unit.new result }
{
    let cdb = read_cdb(block.as_slice());
    if makes_none(&unit.tasks, nexus.tag, &cdb) {
        return ConnectionState::BusFree;
    }
    let task = unit.begin(nexus.tag, ticket, cdb);
    ConnectionState::TaskConnected(Connection::begin(nexus.lun, task))
}

/// Whether no task is made of the command.
fn makes_none(tasks: &TaskList, tag: u8, cdb: &Cdb) -> bool
    requires { FitsForm cdb.now }
    ensures { result ≡ makes_none tasks.now.tasks tag cdb.now }
{
    tasks.has_tag(tag) || need(cdb).bytes > MOST_BYTES
}

//! Messages of both directions, and resets.

ghost use Rattle.std.specs.Prelude.{◌≡◌, ℕ, Bool, false, Some, map, vec_len};
ghost use Rattle.scsi_words.specs.declared.phases.kinds.Phase.TheVariants.{MsgOut};
ghost use Rattle.target_law.specs.Target.{target_reset, unit_at};
ghost use Rattle.target_law.specs.Calls.{link_phase, WaitsForAck, target_messaged, target_acked};
ghost use Rattle.target_session.specs.Sessions.{heard_on};
ghost use Rattle.target_law.specs.Devices.{where_room};
ghost use Rattle.scsi_target.specs.Devices.{KeepsPlaces};
ghost use Rattle.scsi_target.specs.TaskExits.{exit_of};
ghost use Rattle.scsi_target.specs.Messages.{exit_for, link_named};
ghost use Rattle.scsi_target.specs.Slots.{slot_of};
ghost use Rattle.scsi_target.specs.Views.{busy, device_of, link_of, HoldsOn, IsDevice, IsLinked};
ghost use Rattle.scsi_target.specs.declared.connection_state.ConnectionState.TheVariants as held;

use crate::connection_state::{Block, ConnectionState, MessageBuffer};
use crate::device::Device;
use crate::initiator_message::{InitiatorMessage, read_message};
use crate::resetting::{reset, reset_with, reset_without};
use crate::task_exit::{TaskExit, part};
use std::mem;
use target_law::{Nexus, RoguePhase, TargetMessage, TaskPhase};
use target_session::Connection;
use unit_tasks::QueuedUnit;

impl Device {
    /// ATN is released while MSG_OUT is shown: the message is whole, and acts. After a selection IDENTIFY with the
    /// disconnect privilege, SIMPLE QUEUE TAG and a tag lead to COMMAND where the unit is there. BUS DEVICE RESET resets
    /// the target, and ABORT TAG after a reselection drops the task. Any other message frees the bus. Units that break the
    /// rules ignore the message, and the target is to choose again. Where a log has no room for the entries of that,
    /// nothing changes.
    ///
    /// Condition: MSG_OUT is shown.
    pub fn end_message(&mut self)
        requires { link_phase self.old.target.link ≡ Some MsgOut }
        ensures { self.new ≡ where_room self.old (target_messaged self.old.target) }
    {
        let link = mem::replace(&mut self.link, ConnectionState::BusFree);
        self.link = messaged(&mut self.units, link);
    }

    /// Resets every unit of the target, for any cause, and frees the bus. Where a log has no room for the entries
    /// of that, nothing changes; they are no more than one for each task of the depth and one more, since no unit
    /// has more tasks.
    pub fn reset(&mut self)
        ensures state { self.new ≡ where_room self.old (target_reset self.old.target) }
        ensures places { KeepsPlaces self.old }
    {
        let link = mem::replace(&mut self.link, ConnectionState::BusFree);
        self.link = reset(&mut self.units, link);
    }

    /// ACK is released after a message byte, which acts. Where a log has no room for an entry of that, nothing
    /// changes.
    ///
    /// Condition: a byte of MSG_IN was sent and isn't acknowledged yet.
    pub fn end_ack(&mut self)
        requires { WaitsForAck self.old.target.link }
        ensures { self.new ≡ where_room self.old (target_acked self.old.target) }
    {
        let link = mem::replace(&mut self.link, ConnectionState::BusFree);
        self.link = acked(&mut self.units, link);
    }
}

/// A message byte is acknowledged. The link after that.
fn acked(units: &mut Vec<Option<QueuedUnit>>, link: ConnectionState) -> ConnectionState
    requires device { (rogue : Bool) × IsDevice (vec_len units.old) units.old.items link rogue }
    ensures state { device_of units.new.items result ≡
        where_room (device_of units.old.items link) (target_acked (device_of units.old.items link).target) }
    ensures device { (rogue : Bool) → IsDevice (vec_len units.old) units.old.items link rogue →
        IsDevice (vec_len units.new) units.new.items result rogue }
{
    match link {
        ConnectionState::TaskConnected(connection) => acked_connected(units, connection),
        ConnectionState::RogueConnected(shown, named) => ConnectionState::RogueConnected(
            rogue_target::heard(shown),
            named,
        ),
        other => other,
    }
}

/// A message of a connected task is acknowledged.
fn acked_connected(units: &mut Vec<Option<QueuedUnit>>, connection: Connection) -> ConnectionState
    requires { IsDevice (vec_len units.old) units.old.items (held.TaskConnected connection) false }
    ensures state { device_of units.new.items result ≡ where_room (device_of units.old.items (held.TaskConnected connection))
        (target_acked (device_of units.old.items (held.TaskConnected connection)).target) }
    ensures device { IsDevice (vec_len units.new) units.new.items result false }
{
    match exit_of(connection.shows()) {
        Some(how) => part(units, connection, how),
        None => ConnectionState::TaskConnected(gone_on(connection)),
    }
}

/// How the task leaves the bus once what it shows was acknowledged, if it does.
fn exit_of(shown: TaskPhase) -> Option<TaskExit>
    ensures { result ≡ exit_of shown }
{
    match shown {
        TaskPhase::MessageIn {
            message: TargetMessage::CommandComplete(_),
            ..
        } => Some(TaskExit::Completed),
        TaskPhase::MessageIn {
            message: TargetMessage::Disconnect,
            ..
        } => Some(TaskExit::Disconnected),
        _ => None,
    }
}

/// A connected task goes on after a message.
fn gone_on(connection: Connection) -> Connection
    ensures connection { result ≡ heard_on connection.shows connection }
    ensures held { HoldsOn (held.TaskConnected connection) (held.TaskConnected result) }
{
    let mut connection = connection;
    connection.go_on();
    connection
}

/// A message of the initiator is whole, and acts. The link after that.
fn messaged(units: &mut Vec<Option<QueuedUnit>>, link: ConnectionState) -> ConnectionState
    requires device { (rogue : Bool) × IsDevice (vec_len units.old) units.old.items link rogue }
    ensures state { device_of units.new.items result ≡
        where_room (device_of units.old.items link) (target_messaged (device_of units.old.items link).target) }
    ensures device { (rogue : Bool) → IsDevice (vec_len units.old) units.old.items link rogue →
        IsDevice (vec_len units.new) units.new.items result rogue }
{
    match link {
        ConnectionState::Selected(heard) => greet(units, heard),
        ConnectionState::TaskConnected(connection) => tell(units, connection),
        ConnectionState::RogueConnected(_, named) => ConnectionState::RogueConnected(
            RoguePhase::ToChoose,
            named,
        ),
        other => other,
    }
}

/// The message after a selection acts.
fn greet(units: &mut Vec<Option<QueuedUnit>>, heard: MessageBuffer) -> ConnectionState
    requires { IsDevice (vec_len units.old) units.old.items (held.Selected heard) false }
    ensures state { device_of units.new.items result ≡ where_room (device_of units.old.items (held.Selected heard))
        (target_messaged (device_of units.old.items (held.Selected heard)).target) }
    ensures device { IsDevice (vec_len units.new) units.new.items result false }
{
    match read_message(heard.as_slice()) {
        InitiatorMessage::Names(nexus) => commanded(units, nexus),
        InitiatorMessage::Resets => reset_without(units, ConnectionState::Selected(heard)),
        InitiatorMessage::AbortsTag | InitiatorMessage::Other => ConnectionState::BusFree,
    }
}

/// The link after a message that names a nexus: it is to take a command where the unit is there.
fn commanded(units: &Vec<Option<QueuedUnit>>, nexus: Nexus) -> ConnectionState
    ensures link { link_of result ≡ link_named (unit_at (map slot_of units.now.items) nexus.lun) nexus }
    ensures linked { IsLinked result units.now.items false }
    ensures idle { (k : ℕ) → busy result k ≡ 0 }
{
    if units.len() <= nexus.lun as usize {
        return ConnectionState::BusFree;
    }
    match &units[nexus.lun as usize] {
        Some(_) => ConnectionState::TakingCommand(nexus, Block::new()),
        None => ConnectionState::BusFree,
    }
}

/// The message to a connected task acts.
fn tell(units: &mut Vec<Option<QueuedUnit>>, connection: Connection) -> ConnectionState
    requires { IsDevice (vec_len units.old) units.old.items (held.TaskConnected connection) false }
    ensures state { device_of units.new.items result ≡ where_room (device_of units.old.items (held.TaskConnected connection))
        (target_messaged (device_of units.old.items (held.TaskConnected connection)).target) }
    ensures device { IsDevice (vec_len units.new) units.new.items result false }
{
    match read_message(connection.heard()) {
        InitiatorMessage::Resets => reset_with(units, connection),
        other => {
            let how = exit_for(other, connection.is_reselected());
            part(units, connection, how)
        }
    }
}

/// How a connected task leaves the bus after a message that isn't a reset.
fn exit_for(told: InitiatorMessage, reselected: bool) -> TaskExit
    ensures { result ≡ exit_for told reselected }
{
    match told {
        InitiatorMessage::AbortsTag if reselected => TaskExit::Aborted,
        _ => TaskExit::Disconnected,
    }
}

//! How a connected task leaves the bus.

ghost use Rattle.std.specs.Prelude.{◌≡◌, ◌<◌, ◌-◌, false, not, nat_lt, ◌||◌, length, vec_len};
ghost use Rattle.target_law.specs.Target.{BusFree, unit_left, drops, unit_after, session};
ghost use Rattle.target_session.specs.Sessions.{closed_on};
ghost use Rattle.unit_tasks.specs.Units.{unit_of};
ghost use Rattle.target_law.specs.Devices.{where_room};
ghost use Rattle.scsi_target.specs.Views.{device_of, IsSlot, IsConnected, IsDevice};
ghost use Rattle.scsi_target.specs.TaskExits.{unit_by, target_by, IsLast, May, IsMade};
ghost use Rattle.scsi_target.specs.declared.connection_state.ConnectionState.TheVariants as held;
ghost use Rattle.scsi_target.specs.declared.task_exit.TaskExit.TheVariants.{Disconnected, Aborted, Completed};

use crate::connection_state::ConnectionState;
use target_session::Connection;
use unit_core::Core;
use unit_task::Task;
use unit_tasks::QueuedUnit;

/// How a connected task leaves the bus.
#[derive(Clone, Copy)]
pub(crate) enum TaskExit {
    /// It waits among the others.
    Disconnected,
    /// It is dropped.
    Aborted,
    /// It ends with COMMAND COMPLETE.
    Completed,
}

/// The connected task leaves its unit's connection, where the log has room for an entry of that. The link after it.
pub(crate) fn part(
    units: &mut Vec<Option<QueuedUnit>>,
    connection: Connection,
    how: TaskExit,
) -> ConnectionState
    requires device { IsDevice (vec_len units.old) units.old.items (held.TaskConnected connection) false }
    requires may { May how connection.shows }
    ensures state { device_of units.new.items result ≡
        where_room (device_of units.old.items (held.TaskConnected connection)) (target_by how (device_of units.old.items (held.TaskConnected connection)).target connection) }
    ensures device { IsDevice (vec_len units.new) units.new.items result false }
{
    match &mut units[connection.lun() as usize] {
        Some(unit) => part_by(unit, connection, how),
        None => unreachable!(),
    }
}

fn part_by(unit: &mut QueuedUnit, connection: Connection, how: TaskExit) -> ConnectionState
    requires slot { IsSlot false (held.TaskConnected connection) connection.lun unit.old }
    requires connected { IsConnected false connection unit.old }
    requires may { May how connection.shows }
    ensures { IsMade connection.lun unit.old unit.new (held.TaskConnected connection) result (unit_by how (unit_of unit.old) connection) BusFree }
{
    match how {
        TaskExit::Disconnected => leave(unit, connection),
        TaskExit::Aborted => drop_task(unit, connection),
        TaskExit::Completed => end(unit, connection),
    }
}

/// A connected task goes among the others.
fn leave(unit: &mut QueuedUnit, connection: Connection) -> ConnectionState
    requires slot { IsSlot false (held.TaskConnected connection) connection.lun unit.old }
    requires connected { IsConnected false connection unit.old }
    ensures { IsMade connection.lun unit.old unit.new (held.TaskConnected connection) result (unit_left (unit_of unit.old) connection.task) BusFree }
{
    unit.tasks.insert(connection.into_task());
    ConnectionState::BusFree
}

/// A connected task is dropped.
fn drop_task(unit: &mut QueuedUnit, connection: Connection) -> ConnectionState
    requires slot { IsSlot false (held.TaskConnected connection) connection.lun unit.old }
    requires connected { IsConnected false connection unit.old }
    ensures { IsMade connection.lun unit.old unit.new (held.TaskConnected connection) result (drops (unit_of unit.old) connection.task) BusFree }
{
    if !can_drop(&unit.core, connection.task()) {
        return ConnectionState::TaskConnected(connection);
    }
    unit.drop_task(connection.task());
    unit.tasks.give_back(connection.into_task());
    ConnectionState::BusFree
}

/// Whether the log has room for the drop of a task.
fn can_drop(core: &Core, task: &Task) -> bool
    ensures { result ≡ (task.now.senses || nat_lt 0 (core.now.log.room - length core.now.log.entries)) }
{
    task.senses() || core.log.spare() > 0
}

/// A connected task ends.
fn end(unit: &mut QueuedUnit, connection: Connection) -> ConnectionState
    requires slot { IsSlot false (held.TaskConnected connection) connection.lun unit.old }
    requires connected { IsConnected false connection unit.old }
    requires last { IsLast connection.shows }
    ensures { IsMade connection.lun unit.old unit.new (held.TaskConnected connection) result (unit_after (unit_of unit.old) (closed_on connection.shows (session (unit_of unit.old) connection))) BusFree }
{
    if unit.core.log.spare() == 0 {
        return ConnectionState::TaskConnected(connection);
    }
    connection.close(&mut unit.core);
    unit.tasks.give_back(connection.into_task());
    ConnectionState::BusFree
}

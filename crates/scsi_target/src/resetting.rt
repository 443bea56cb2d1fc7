//! Resets of all units of a target.

ghost use Rattle.std.specs.Prelude.{◌≡◌, ◌≤◌, ℕ, Bool, true, false, map, length, slice_get, vec_len, Some};
ghost use Rattle.target_law.specs.Target.{target_reset};
ghost use Rattle.unit_tasks.specs.Resets.{can_reset};
ghost use Rattle.unit_tasks.specs.declared.queued.QueuedUnit.{QueuedUnit};
ghost use Rattle.target_law.specs.Devices.{lie_within, where_room};
ghost use Rattle.scsi_target.specs.Resettings.{with_task, HasNoTask};
ghost use Rattle.scsi_target.specs.Slots.{room_of, slot_after, slot_can_reset, all_can_reset};
ghost use Rattle.scsi_target.specs.Views.{device_of, IsDevice};
ghost use Rattle.scsi_target.specs.declared.connection_state.ConnectionState.TheVariants as held;

use crate::connection_state::ConnectionState;
use crate::task_exit::{TaskExit, part};
use target_session::Connection;
use unit_task::Task;
use unit_tasks::QueuedUnit;

/// Resets all units where each log has room for that, a connected task among the others. The link after that.
pub(crate) fn reset(units: &mut Vec<Option<QueuedUnit>>, link: ConnectionState) -> ConnectionState
    requires device { (rogue : Bool) × IsDevice (vec_len units.old) units.old.items link rogue }
    ensures state { device_of units.new.items result ≡
        where_room (device_of units.old.items link) (target_reset (device_of units.old.items link).target) }
    ensures device { (rogue : Bool) → IsDevice (vec_len units.old) units.old.items link rogue →
        IsDevice (vec_len units.new) units.new.items result rogue }
{
    match link {
        ConnectionState::TaskConnected(connection) => reset_with(units, connection),
        other => reset_without(units, other),
    }
}

/// The same where no task is connected.
pub(crate) fn reset_without(
    units: &mut Vec<Option<QueuedUnit>>,
    link: ConnectionState,
) -> ConnectionState
    requires device { (rogue : Bool) × IsDevice (vec_len units.old) units.old.items link rogue }
    requires none { HasNoTask link }
    ensures state { device_of units.new.items result ≡
        where_room (device_of units.old.items link) (target_reset (device_of units.old.items link).target) }
    ensures device { (rogue : Bool) → IsDevice (vec_len units.old) units.old.items link rogue →
        IsDevice (vec_len units.new) units.new.items result rogue }
{
    if !can_reset_all(units) {
        return link;
    }
    reset_all(units);
    ConnectionState::BusFree
}

/// The same of a connected task.
pub(crate) fn reset_with(
    units: &mut Vec<Option<QueuedUnit>>,
    connection: Connection,
) -> ConnectionState
    requires { IsDevice (vec_len units.old) units.old.items (held.TaskConnected connection) false }
    ensures state { device_of units.new.items result ≡ where_room (device_of units.old.items (held.TaskConnected connection))
        (target_reset (device_of units.old.items (held.TaskConnected connection)).target) }
    ensures device { IsDevice (vec_len units.new) units.new.items result false }
{
    if !can_reset_with(units, &connection) {
        return ConnectionState::TaskConnected(connection);
    }
    let _ = part(units, connection, TaskExit::Disconnected);
    reset_all(units);
    ConnectionState::BusFree
}

/// Whether each log has room for a reset, with a connected task among the others.
fn can_reset_with(units: &Vec<Option<QueuedUnit>>, connection: &Connection) -> bool
    requires { IsDevice (vec_len units.now) units.now.items (held.TaskConnected connection.now) false }
    ensures { result ≡ lie_within (target_reset (device_of units.now.items (held.TaskConnected connection.now)).target).units (map room_of units.now.items) }
{
    let others = can_reset_all(units);
    let here = can_reset_at(units, connection);
    others && here
}

/// Whether the log of a connected task's unit has room for a reset, with that task among the others.
fn can_reset_at(units: &Vec<Option<QueuedUnit>>, connection: &Connection) -> bool
    requires { IsDevice (vec_len units.now) units.now.items (held.TaskConnected connection.now) false }
    ensures { (q : QueuedUnit) → slice_get units.now.items connection.now.lun ≡ Some (Some q) →
        result ≡ can_reset (with_task q connection.now.task) }
{
    match &units[connection.lun() as usize] {
        Some(unit) => has_room_with(unit, connection.task()),
        None => unreachable!(),
    }
}

/// Whether a unit's log has room for a reset, with one more task.
fn has_room_with(unit: &QueuedUnit, task: &Task) -> bool
    ensures { result ≡ can_reset (with_task unit.now task.now) }
{
    if task.senses() {
        unit.can_reset()
    } else {
        unit.entries_of_reset() < unit.core.log.spare()
    }
}

/// Whether each log has room for a reset.
fn can_reset_all(units: &Vec<Option<QueuedUnit>>) -> bool
    ensures { result ≡ all_can_reset units.now.items }
{
    for unit in units {
        if !can_reset_slot(unit) {
            return false;
        }
    }
    true
}

fn can_reset_slot(unit: &Option<QueuedUnit>) -> bool
    ensures { result ≡ slot_can_reset unit.now }
{
    match unit {
        Some(unit) => unit.can_reset(),
        None => true,
    }
}

/// Resets all units.
fn reset_all(units: &mut Vec<Option<QueuedUnit>>)
    requires { all_can_reset units.old.items ≡ true }
    ensures units { units.new.items ≡ map slot_after units.old.items }
    ensures len { vec_len units.new ≡ vec_len units.old }
{
    for i in 0..units.len() {
        reset_slot(&mut units[i]);
    }
}

fn reset_slot(unit: &mut Option<QueuedUnit>)
    requires { slot_can_reset unit.old ≡ true }
    ensures { unit.new ≡ slot_after unit.old }
{
    if let Some(unit) = unit {
        unit.reset();
    }
}

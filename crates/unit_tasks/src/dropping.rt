//! What becomes of a unit as its tasks are dropped.

ghost use Rattle.std.specs.Prelude.{◌≡◌, ◌+◌, ◌<◌, ◌≤◌, false, length, fold};
ghost use Rattle.target_law.specs.Session.{Task as TaskOf};
ghost use Rattle.target_law.specs.Sound.{IsWaiting};
ghost use Rattle.unit_tasks.specs.Resets.{logs_drop, drop_entries, core_drops, core_cleared};

use unit_core::Core;
use unit_law::LogEntry;
use unit_task::Task;

/// Whether the task's drop logs an entry.
pub(crate) fn logs_drop(task: &Task) -> bool
    ensures { result ≡ logs_drop task.now }
{
    !task.senses()
}

/// Drops a task of the unit.
///
/// Condition: the log has room for the entry of that, if there is one.
pub(crate) fn drop_one(core: &mut Core, task: &Task)
    requires { task.now.senses ≡ false → length core.old.log.entries < core.old.log.room }
    ensures core { core.new ≡ core_drops core.old task.now }
    ensures others { (k : TaskOf) → IsWaiting core.old.lun k → IsWaiting core.new.lun k }
{
    if logs_drop(task) {
        task.drop_from(&mut core.lun);
        core.log.push(LogEntry::Drop(task.ticket(), task.high()));
    }
}

/// Drops tasks of the unit, one after the other.
///
/// Condition: the log has room for the entries of that.
pub(crate) fn drop_each(core: &mut Core, tasks: &[Task])
    requires { length core.old.log.entries + drop_entries tasks.now ≤ core.old.log.room }
    ensures { core.new ≡ fold core_drops core.old tasks.now }
{
    for task in tasks {
        drop_one(core, task);
    }
}

/// Clears a unit, and logs that.
///
/// Condition: the log has room for the entry.
pub(crate) fn clear(core: &mut Core)
    requires { length core.old.log.entries < core.old.log.room }
    ensures { core.new ≡ core_cleared core.old }
{
    core.lun.clear();
    core.log.push(LogEntry::Clear);
}

//! A logical unit with its tasks.

ghost use Rattle.std.specs.Prelude.{◌≡◌, ◌+◌, ◌-◌, ◌<◌, ◌≤◌, false, length, IfOk};
ghost use Rattle.plain_lun.specs.Unit.{UnitState};
ghost use Rattle.cdb_codec.specs.Forms.{FitsForm, need_of};
ghost use Rattle.target_law.specs.Session.{Task as TaskOf, began};
ghost use Rattle.target_law.specs.Sound.{IsWaiting};
ghost use Rattle.target_law.specs.Target.{unit_opened, drops};
ghost use Rattle.target_law.specs.Calls.{has_ended, candidates};
ghost use Rattle.unit_tasks.specs.Units.{unit_of, holding};
ghost use Rattle.unit_tasks.specs.Resets.{reset_entries, can_reset, reset_by};

use crate::dropping::{clear, drop_each, drop_one, logs_drop};
use crate::task_list::TaskList;
use cdb_codec::Cdb;
use rig_types::Unit;
use std::alloc::{AllocError, Global};
use unit_core::Core;
use unit_task::Task;

/// A logical unit that holds its tasks but for one that is connected.
#[derive(Drop)]
pub struct QueuedUnit {
    /// What the rig says of the unit.
    pub rig: Unit,
    /// The unit by itself, and its log.
    pub core: Core,
    /// Its tasks that aren't connected, and the idle places for tasks.
    pub tasks: TaskList,
}

impl QueuedUnit {
    /// The unit as it is at its opening, with an idle place for each task of its depth and a log that has room for
    /// no entry.
    ///
    /// Condition: 1 to 4,096 blocks.
    pub fn open(alloc: Global, unit: &Unit) -> Result<QueuedUnit, AllocError>
        requires some { 1 ≤ unit.now.blocks }
        requires most { unit.now.blocks ≤ 4096 }
        ensures state { IfOk result (λ q. unit_of q ≡ unit_opened unit.now) }
        ensures room { IfOk result (λ q. q.core.log.room ≡ 0) }
        ensures idle { IfOk result (λ q. q.tasks.idle ≡ unit.now.depth) }
        ensures depth { IfOk result (λ q. q.tasks.depth ≡ unit.now.depth) }
    {
        Ok(QueuedUnit {
            rig: *unit,
            core: Core::open(alloc, unit)?,
            tasks: TaskList::open(alloc, unit.depth)?,
        })
    }

    /// How many candidates for a reselection the unit has: its tasks that aren't connected, or one where it breaks
    /// the rules of the bus.
    pub fn candidates(&self) -> u32
        ensures { result ≡ candidates (unit_of self.now) }
    {
        if self.rig.rogue {
            1
        } else {
            self.tasks.len() as u32
        }
    }

    /// Makes a fresh task of a command, in an idle place.
    ///
    /// Condition: there is an idle place.
    pub fn begin(&mut self, tag: u8, ticket: u32, cdb: Cdb) -> Task
        requires { 0 < self.old.tasks.idle }
        ensures task { let ended = has_ended self.old.core.log.entries ticket in
            result ≡ began tag ticket cdb self.old.rig.disconnects ended }
        ensures after { self.new ≡ holding self.old (unit_of self.old) (self.old.tasks.idle - 1) }
        ensures waits { FitsForm cdb → (need_of cdb).bytes ≤ 65536 → (u : UnitState) → IsWaiting u result }
    {
        let ended = self.core.log.has_ended(ticket);
        let mut task = self.tasks.take_place();
        task.begin(tag, ticket, cdb, self.rig.disconnects, ended);
        task
    }

    /// Drops a task of the unit that isn't among the others: a write stores its whole blocks, and the drop is
    /// logged unless the task asks for sense.
    ///
    /// Condition: the log has room for the entry, if there is one.
    pub fn drop_task(&mut self, task: &Task)
        requires { task.now.senses ≡ false → length self.old.core.log.entries < self.old.core.log.room }
        ensures after { self.new ≡ holding self.old (drops (unit_of self.old) task.now) self.old.tasks.idle }
        ensures others { (k : TaskOf) → IsWaiting self.old.core.lun k → IsWaiting self.new.core.lun k }
    {
        drop_one(&mut self.core, task);
    }

    /// How many entries a reset logs: one for each task that asks for no sense, and one more.
    pub fn entries_of_reset(&self) -> usize
        ensures { result ≡ reset_entries self.now.tasks.tasks }
    {
        self.tasks
            .tasks()
            .iter()
            .filter(|task| logs_drop(task))
            .count()
            + 1
    }

    /// Whether the log has room for the entries of a reset.
    pub fn can_reset(&self) -> bool
        ensures { result ≡ can_reset self.now }
    {
        self.entries_of_reset() <= self.core.log.spare()
    }

    /// Resets the unit: its tasks are dropped by rising tag, their places are idle, and the unit is cleared. Where
    /// the log has no room for the entries of that, nothing changes.
    pub fn reset(&mut self)
        ensures { self.new ≡ reset_by (can_reset self.old) self.old }
    {
        if !self.can_reset() {
            return;
        }
        drop_each(&mut self.core, self.tasks.tasks());
        self.tasks.clear();
        clear(&mut self.core);
    }
}

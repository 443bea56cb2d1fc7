//! The tasks of a unit that aren't connected, by rising tag.

ghost use Rattle.std.specs.Prelude.{◌≡◌, ◌+◌, ◌-◌, ◌^◌, ◌<◌, ◌≤◌, [], length, remove, slice_get, Some, IfOk};
ghost use Rattle.plain_lun.specs.Unit.{UnitState};
ghost use Rattle.target_law.specs.Sound.{IsSoundTask, IsWaiting};
ghost use Rattle.target_law.specs.Bytes.{away};
ghost use Rattle.target_law.specs.Target.{by_tag};
ghost use Rattle.target_law.specs.Calls.{has_tag};
ghost use Rattle.unit_tasks.specs.Queue.{AllWait};

use std::alloc::{AllocError, Global};
use std::marker::Model;
use unit_task::Task;

/// The tasks of a unit that aren't connected, by rising tag, and the idle places for tasks. Together they are at
/// most as many as the depth.
#[derive(Drop)]
pub struct TaskList {
    tasks: Vec<Task>,
    idle: Vec<Task>,
    depth: u16,
}

impl Model for TaskList {
    ghost use Rattle.std.specs.Prelude.{vec_len, vec_capacity};
    ghost use Rattle.unit_tasks.specs.Queue.{Queue, IsQueue};

    ghost Value = { Queue };

    ghost view = { λ l. record { tasks = l.tasks.items; idle = vec_len l.idle; depth = l.depth } };

    ghost invariant = { λ l.
        IsQueue l.depth l.tasks.items (vec_len l.idle) (vec_capacity l.tasks) (vec_capacity l.idle) };
}

impl TaskList {
    /// No task, and as many idle places as the depth, each with memory for a task's data.
    pub fn open(alloc: Global, depth: u16) -> Result<TaskList, AllocError>
        ensures { IfOk result (λ list. list ≡ record { tasks = []; idle = depth; depth = depth }) }
    {
        let tasks = Vec::with_capacity(alloc, depth as usize)?;
        let mut idle = Vec::with_capacity(alloc, depth as usize)?;
        for _ in 0..depth {
            idle.push(Task::idle(alloc)?)?;
        }
        Ok(TaskList { tasks, idle, depth })
    }

    /// How many tasks there are.
    pub fn len(&self) -> usize
        ensures count { result ≡ length self.now.tasks }
        ensures few { result < 2 ^ 16 }
        ensures places { length self.now.tasks + self.now.idle ≤ self.now.depth }
    {
        self.tasks.len()
    }

    /// The tasks, by rising tag.
    pub(crate) fn tasks(&self) -> &[Task]
        ensures { result.now ≡ self.now.tasks }
    {
        self.tasks.as_slice()
    }

    /// Whether a task has the tag.
    pub fn has_tag(&self, tag: u8) -> bool
        ensures { result ≡ has_tag self.now.tasks tag }
    {
        self.tasks
            .binary_search_by_key(&tag, |task| task.tag())
            .is_ok()
    }

    /// Takes an idle place. What the task in it says doesn't count.
    ///
    /// Condition: there is an idle place.
    pub fn take_place(&mut self) -> Task
        requires { 0 < self.old.idle }
        ensures { self.new ≡ record self.old { idle = self.old.idle - 1 } }
    {
        self.idle.pop().unwrap()
    }

    /// Gives a place back: its task is gone.
    ///
    /// Condition: with this place there are no more tasks and idle places than the depth.
    pub fn give_back(&mut self, place: Task)
        requires { length self.old.tasks + self.old.idle < self.old.depth }
        ensures { self.new ≡ record self.old { idle = self.old.idle + 1 } }
    {
        self.idle.push_reserved(place);
    }

    /// A task leaves the bus: it goes back to its saved position, and among the others by its tag, behind any of
    /// the same tag.
    ///
    /// Condition: with this task there are no more tasks and idle places than the depth.
    pub fn insert(&mut self, task: Task)
        requires { length self.old.tasks + self.old.idle < self.old.depth }
        ensures after { self.new ≡ record self.old { tasks = by_tag (away task) self.old.tasks } }
        ensures len { length self.new.tasks ≡ length self.old.tasks + 1 }
        ensures waiting { (u : UnitState) → IsSoundTask u task → AllWait u self.old.tasks →
            AllWait u self.new.tasks }
    {
        let mut task = task;
        task.leave();
        let tag = task.tag();
        let at = self.tasks.partition_point(|other| other.tag() <= tag);
        self.tasks.insert(at, task).unwrap();
    }

    /// Takes out the n-th task by rising tag, counted from 0.
    ///
    /// Condition: n is below the number of tasks.
    pub fn take_out(&mut self, n: usize) -> Task
        requires { n < length self.old.tasks }
        ensures task { slice_get self.old.tasks n ≡ Some result }
        ensures after { self.new ≡ record self.old { tasks = remove self.old.tasks n } }
        ensures len { length self.new.tasks + 1 ≡ length self.old.tasks }
        ensures waiting { (u : UnitState) → AllWait u self.old.tasks → IsWaiting u result }
        ensures others { (u : UnitState) → AllWait u self.old.tasks → AllWait u self.new.tasks }
    {
        self.tasks.remove(n)
    }

    /// All tasks are gone, and their places idle.
    pub(crate) fn clear(&mut self)
        ensures { self.new ≡
            record self.old { tasks = []; idle = self.old.idle + length self.old.tasks } }
    {
        self.idle.append(&mut self.tasks).unwrap();
    }
}

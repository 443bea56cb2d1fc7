//! What a task and its unit make of each other.

ghost use Rattle.std.specs.Prelude.{◌≡◌, ◌-◌, ◌≤◌, true, [], ◌++◌, length, drop, Some, None};
ghost use Rattle.scsi_words.specs.declared.phases.kinds.Direction.TheVariants.{In};
ghost use Rattle.cdb_codec.specs.Forms.{need_of};
ghost use Rattle.plain_lun.specs.Performing.{perform, sense_now};
ghost use Rattle.plain_lun.specs.Losing.{dropped};
ghost use Rattle.target_law.specs.Session.{Task as TaskOf, total, status_of};
ghost use Rattle.target_law.specs.Sound.{IsSoundTask, IsWaiting};
ghost use Rattle.unit_task.specs.Ending.{unit_ended};

use crate::task::{SENSE_BYTES, Task};
use cdb_codec::Cdb;
use plain_lun::{Answer, Lun};
use scsi_words::Status;

impl Task {
    /// How many bytes of its data are still to move.
    pub fn remaining(&self, unit: &Lun) -> u32
        ensures { result ≡ total unit.now self.now - self.now.position }
    {
        let total = match self.kept {
            Some(answer) => answer.sent,
            None => unit.wants(&self.cdb).bytes,
        };
        total.saturating_sub(self.position)
    }

    /// The status of its answer: of the one that is kept, or of the one that the unit would give now.
    pub fn status(&self, unit: &Lun) -> Status
        ensures { result ≡ status_of unit.now self.now }
    {
        match self.kept {
            Some(answer) => answer.status,
            None => unit.status_now(&self.cdb),
        }
    }

    /// Its command, which sends, is performed, and the answer kept.
    ///
    /// Condition: it wasn't performed yet.
    pub fn look(&mut self, unit: &mut Lun)
        requires sound { IsSoundTask unit.old self.old }
        requires sends { (need_of self.old.cdb).direction ≡ In }
        requires first { self.old.kept ≡ None }
        ensures unit { unit.new ≡ (perform unit.old self.old.cdb []).unit }
        ensures task { self.new ≡ record self.old { kept = Some (perform unit.old self.old.cdb []).answer } }
        ensures sound { IsSoundTask unit.new self.new }
        ensures others { (k : TaskOf) → IsWaiting unit.old k → IsWaiting unit.new k }
    {
        self.keep_answer(unit);
    }

    fn keep_answer(&mut self, unit: &mut Lun)
        requires small { (need_of self.old.cdb).bytes ≤ 65536 }
        requires sends { (need_of self.old.cdb).direction ≡ In }
        requires nothing { self.old.received ≡ [] }
        ensures unit { unit.new ≡ (perform unit.old self.old.cdb []).unit }
        ensures task { self.new ≡ record self.old { kept = Some (perform unit.old self.old.cdb []).answer } }
    {
        let answer = unit.perform(&self.cdb, &[], &mut self.buffer);
        self.kept = Some(answer);
    }

    /// A sense task keeps the sense data. The unit keeps its sense until the task ends.
    ///
    /// Condition: it keeps none yet.
    pub fn look_at_sense(&mut self, unit: &Lun)
        requires sound { IsSoundTask unit.now self.old }
        requires senses { self.old.senses ≡ true }
        requires sends { (need_of self.old.cdb).direction ≡ In }
        requires first { self.old.kept ≡ None }
        ensures task { self.new ≡ record self.old { kept = Some (perform unit.now self.old.cdb []).answer } }
        ensures sound { IsSoundTask unit.now self.new }
    {
        self.keep_sense(unit);
    }

    fn keep_sense(&mut self, unit: &Lun)
        requires senses { self.old.senses ≡ true }
        requires nothing { self.old.received ≡ [] }
        ensures { self.new ≡ record self.old { kept = Some (perform unit.now self.old.cdb []).answer } }
    {
        write_sense(unit, &mut self.buffer);
        self.kept = Some(Answer {
            status: Status::Good,
            sent: SENSE_BYTES as u32,
        });
    }

    /// Ends it: the unit performs a command that it hasn't performed, and gives up the sense that a sense task sent.
    ///
    /// Condition: all its data have moved.
    pub fn end(&self, unit: &mut Lun)
        requires sound { IsSoundTask unit.old self.now }
        requires all_moved { total unit.old self.now - self.now.position ≡ 0 }
        ensures unit { unit.new ≡ unit_ended unit.old self.now }
        ensures others { (k : TaskOf) → IsWaiting unit.old k → IsWaiting unit.new k }
    {
        self.end_by_kind(unit);
    }

    fn end_by_kind(&self, unit: &mut Lun)
        requires sound { IsSoundTask unit.old self.now }
        requires all_moved { total unit.old self.now - self.now.position ≡ 0 }
        ensures { unit.new ≡ unit_ended unit.old self.now }
    {
        if self.senses {
            let sense = Cdb::RequestSense { len: SENSE_BYTES };
            unit.perform(&sense, &[], &mut [0; SENSE_BYTES as usize]);
        } else if self.kept.is_none() {
            unit.perform(&self.cdb, &self.buffer[..self.got as usize], &mut []);
        }
    }

    /// Drops it before its end: a write stores the whole blocks that it received.
    pub fn drop_from(&self, unit: &mut Lun)
        ensures unit { unit.new ≡ dropped unit.old self.now.cdb self.now.received }
        ensures others { (k : TaskOf) → IsWaiting unit.old k → IsWaiting unit.new k }
    {
        unit.drop_command(&self.cdb, &self.buffer[..self.got as usize]);
    }
}

/// Writes the sense data to the front of the buffer.
fn write_sense(unit: &Lun, buffer: &mut [u8])
    requires { 18 ≤ length buffer.old }
    ensures { buffer.new ≡ sense_now unit.now ++ drop 18 buffer.old }
{
    unit.sense_now(&mut buffer[..SENSE_BYTES as usize]);
}

//! What a move makes of a connected task and its unit.

ghost use Rattle.std.specs.Prelude.{◌≡◌, ℕ, ◌-◌, ◌<◌, false, length};
ghost use Rattle.scsi_words.specs.declared.phases.kinds.Direction.TheVariants.{In};
ghost use Rattle.cdb_codec.specs.Forms.{need_of};
ghost use Rattle.target_law.specs.declared.moves.Move.TheVariants.{Go};
ghost use Rattle.target_law.specs.declared.task_phase.TaskPhase.TheVariants as task_phase;
ghost use Rattle.target_law.specs.declared.task_phase.TaskPhase.TheVariants.{MessageIn};
ghost use Rattle.target_law.specs.Session.{Task, Can, acted, looked};
ghost use Rattle.target_law.specs.Sound.{IsSound, IsSoundTask, IsWaiting};
ghost use Rattle.target_law.specs.Target.{connection_after};
ghost use Rattle.target_session.specs.Sessions.{session_of, core_after};

use crate::connection::Connection;
use scsi_words::{Direction, Status};
use target_law::{Completion, Move, TargetMessage, TaskPhase};
use unit_core::Core;
use unit_law::LogEntry;

impl Connection {
    /// Makes a lawful move. It logs Look at most, and takes no memory.
    ///
    /// Condition: the move is lawful, and the log has room for an entry that is added.
    pub fn act(&mut self, core: &mut Core, m: Move)
        requires sound { IsSound (session_of core.old self.old) }
        requires lawful { (limit : ℕ) × ((refused : ℕ) × Can m (session_of core.old self.old) limit refused) }
        requires room { length core.old.log.entries < length (acted m (session_of core.old self.old)).log →
            length core.old.log.entries < core.old.log.room }
        ensures connection { self.new ≡ connection_after self.old (acted m (session_of core.old self.old)) }
        ensures core { core.new ≡ core_after core.old (acted m (session_of core.old self.old)) }
        ensures sound { IsSound (session_of core.new self.new) }
        ensures others { (k : Task) → IsWaiting core.old.lun k → IsWaiting core.new.lun k }
    {
        self.act_by_kind(core, m);
    }

    #[tactic(auto, unfolding(target_law::specs::Session::acted))]
    fn act_by_kind(&mut self, core: &mut Core, m: Move)
        requires sound { IsSoundTask core.old.lun self.old.task }
        requires lawful { (limit : ℕ) × ((refused : ℕ) × Can m (session_of core.old self.old) limit refused) }
        requires room { length core.old.log.entries < length (acted m (session_of core.old self.old)).log →
            length core.old.log.entries < core.old.log.room }
        ensures connection { self.new ≡ connection_after self.old (acted m (session_of core.old self.old)) }
        ensures core { core.new ≡ core_after core.old (acted m (session_of core.old self.old)) }
    {
        match m {
            Move::Go { bytes } => self.go(core, bytes),
            Move::Busy => self.tell(Completion::Refused(Status::Busy)),
            Move::QueueFull => self.tell(Completion::Refused(Status::QueueFull)),
            Move::Leave => self.spend(TargetMessage::Disconnect),
            Move::SaveLeave => self.spend(TargetMessage::SaveThenDisconnect),
            Move::Save => self.spend(TargetMessage::SaveDataPointer),
            Move::Restore => self.spend(TargetMessage::RestorePointers),
            Move::Rogue { .. } => {}
        }
    }

    /// A move of the four that spend: it says a message.
    fn spend(&mut self, message: TargetMessage)
        requires { 0 < self.old.task.budget }
        ensures { self.new ≡ record self.old {
          task = record self.old.task { budget = self.old.task.budget - 1; fresh = false; just_moved = false };
          shows = MessageIn message false;
        } }
    {
        self.task.spend();
        self.shows = TaskPhase::MessageIn {
            message,
            sent: false,
        };
    }

    /// It tells a status.
    fn tell(&mut self, completion: Completion)
        ensures { self.new ≡ record self.old {
          task = record self.old.task { fresh = false; just_moved = false };
          shows = task_phase.Status completion;
        } }
    {
        self.task.turn();
        self.shows = TaskPhase::Status(completion);
    }

    /// A data phase, or the status where nothing is left.
    #[tactic(auto, unfolding(target_law::specs::Session::acted))]
    fn go(&mut self, core: &mut Core, bytes: u32)
        requires sound { IsSoundTask core.old.lun self.old.task }
        requires room { length core.old.log.entries < length (acted (Go bytes) (session_of core.old self.old)).log →
            length core.old.log.entries < core.old.log.room }
        ensures connection { self.new ≡ connection_after self.old (acted (Go bytes) (session_of core.old self.old)) }
        ensures core { core.new ≡ core_after core.old (acted (Go bytes) (session_of core.old self.old)) }
    {
        if self.task.remaining(&core.lun) == 0 {
            let status = self.task.status(&core.lun);
            self.tell(Completion::Answered(status));
            return;
        }
        match self.task.direction() {
            Direction::In => {
                self.look(core);
                self.task.move_data();
                self.shows = TaskPhase::DataIn(bytes);
            }
            Direction::Out => {
                self.task.move_data();
                self.shows = TaskPhase::DataOut(bytes);
            }
            Direction::None => {}
        }
    }

    /// A command that sends is performed at its first data phase. A sense task has the sense data for its answer.
    fn look(&mut self, core: &mut Core)
        requires sound { IsSoundTask core.old.lun self.old.task }
        requires sends { (need_of self.old.task.cdb).direction ≡ In }
        requires room { length core.old.log.entries <
            length (looked self.old.task.kept (session_of core.old self.old)).log →
            length core.old.log.entries < core.old.log.room }
        ensures connection { self.new ≡
            connection_after self.old (looked self.old.task.kept (session_of core.old self.old)) }
        ensures core { core.new ≡ core_after core.old (looked self.old.task.kept (session_of core.old self.old)) }
    {
        if self.task.has_answer() {
            return;
        }
        if self.task.senses() {
            self.task.look_at_sense(&core.lun);
        } else {
            self.task.look(&mut core.lun);
            core.log.push(LogEntry::Look(self.task.ticket()));
        }
    }
}

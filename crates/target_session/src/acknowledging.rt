//! What the messages of a connected task do when ACK is released after them.

ghost use Rattle.std.specs.Prelude.{◌≡◌, ◌<◌, length};
ghost use Rattle.unit_core.specs.declared.Core.{Core};
ghost use Rattle.target_law.specs.Session.{Task, closed, says};
ghost use Rattle.target_law.specs.Sound.{Ends, IsSound, IsSoundTask, IsWaiting};
ghost use Rattle.target_session.specs.Sessions.{session_of, core_after, heard_on, closed_on, end_entry};

use crate::connection::Connection;
use target_law::{Completion, ReselectByte, TargetMessage, TaskPhase};
use unit_core::Core;
use unit_law::LogEntry;

impl Connection {
    /// ACK is released after the message that it shows. COMMAND COMPLETE and DISCONNECT do nothing here: after them
    /// the task leaves the connection.
    pub fn go_on(&mut self)
        ensures connection { self.new ≡ heard_on self.old.shows self.old }
        ensures sound { (core : Core) → IsSound (session_of core self.old) → IsSound (session_of core self.new) }
    {
        self.go_on_by_message();
    }

    fn go_on_by_message(&mut self)
        ensures { self.new ≡ heard_on self.old.shows self.old }
    {
        let TaskPhase::MessageIn { message, .. } = self.shows else {
            return;
        };
        self.shows = match message {
            TargetMessage::Reselection(ReselectByte::Identify) => says(TargetMessage::Reselection(
                ReselectByte::SimpleQueueTag,
            )),
            TargetMessage::Reselection(ReselectByte::SimpleQueueTag) => says(
                TargetMessage::Reselection(ReselectByte::Tag),
            ),
            TargetMessage::Reselection(ReselectByte::Tag) => TaskPhase::ToChoose,
            TargetMessage::SaveThenDisconnect => {
                self.task.save();
                says(TargetMessage::Disconnect)
            }
            TargetMessage::SaveDataPointer => {
                self.task.save();
                TaskPhase::ToChoose
            }
            TargetMessage::RestorePointers => {
                self.task.restore();
                TaskPhase::ToChoose
            }
            TargetMessage::CommandComplete(_) | TargetMessage::Disconnect => return,
        };
    }

    /// ACK is released after COMMAND COMPLETE: the unit performs what it hasn't performed, and logs Refuse, End or
    /// Sense. Where another message or none is shown, nothing changes.
    ///
    /// Condition: the log has room for an entry.
    pub fn close(&self, core: &mut Core)
        requires sound { IsSound (session_of core.old self.now) }
        requires room { length core.old.log.entries < core.old.log.room }
        ensures core { core.new ≡ core_after core.old (closed_on self.now.shows (session_of core.old self.now)) }
        ensures others { (k : Task) → IsWaiting core.old.lun k → IsWaiting core.new.lun k }
    {
        if let TaskPhase::MessageIn {
            message: TargetMessage::CommandComplete(completion),
            ..
        } = self.shows
        {
            self.close_by(core, completion);
        }
    }

    #[tactic(auto, unfolding(target_law::specs::Session::closed))]
    fn close_by(&self, core: &mut Core, completion: Completion)
        requires sound { IsSoundTask core.old.lun self.now.task }
        requires ends { Ends completion (session_of core.old self.now) }
        requires room { length core.old.log.entries < core.old.log.room }
        ensures core { core.new ≡ core_after core.old (closed completion (session_of core.old self.now)) }
        ensures others { (k : Task) → IsWaiting core.old.lun k → IsWaiting core.new.lun k }
    {
        let ticket = self.task.ticket();
        match completion {
            Completion::Refused(status) => core.log.push(LogEntry::Refuse(ticket, status)),
            Completion::Answered(_) => {
                self.task.end(&mut core.lun);
                core.log.push(self.end_entry());
            }
        }
    }

    fn end_entry(&self) -> LogEntry
        ensures { result ≡ end_entry self.now.task.senses self.now.task.ticket }
    {
        if self.task.senses() {
            LogEntry::Sense(self.task.ticket())
        } else {
            LogEntry::End(self.task.ticket())
        }
    }
}

/// It shows a message byte that isn't sent yet.
fn says(message: TargetMessage) -> TaskPhase
    ensures { result ≡ says message }
{
    TaskPhase::MessageIn {
        message,
        sent: false,
    }
}

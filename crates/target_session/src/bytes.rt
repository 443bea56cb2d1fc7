//! The bytes of a connected task's phases.

ghost use Rattle.std.specs.Prelude.{◌≡◌, ◌<◌, ℕ, Some};
ghost use Rattle.unit_core.specs.declared.Core.{Core};
ghost use Rattle.target_law.specs.Bytes.{byte_by, hears, message_in_byte, sent_by, status_told, takes_by, took_by};
ghost use Rattle.scsi_words.specs.Statuses.{status_code};
ghost use Rattle.target_law.specs.Sound.{IsSound};
ghost use Rattle.target_session.specs.Sessions.{session_of, sent_where};

use crate::connection::Connection;
use arrayvec::ArrayVec;
use scsi_words::{Message, message_byte};
use target_law::{Completion, ReselectByte, TargetMessage, TaskPhase};

impl Connection {
    /// The byte that it has for the initiator, if it has one.
    pub fn byte(&self) -> Option<u8>
        ensures { result ≡ byte_by self.now.shows self.now.task self.now.lun }
    {
        match self.shows {
            TaskPhase::ToChoose | TaskPhase::MessageOut | TaskPhase::DataOut(_) => None,
            TaskPhase::DataIn(_) => self.task.byte(),
            TaskPhase::Status(completion) => Some(status_byte(completion)),
            TaskPhase::MessageIn { sent: true, .. } => None,
            TaskPhase::MessageIn { message, .. } => Some(message_in_byte(
                message,
                self.lun,
                self.task.tag(),
            )),
        }
    }

    /// Gives the byte that it has for the initiator, if it has one, and goes on. Where it has none it stays as it is.
    pub fn byte_in(&mut self) -> Option<u8>
        ensures byte { result ≡ byte_by self.old.shows self.old.task self.old.lun }
        ensures connection { self.new ≡
            sent_where (byte_by self.old.shows self.old.task self.old.lun) self.old }
        ensures sound { (core : Core) → IsSound (session_of core self.old) → IsSound (session_of core self.new) }
    {
        let byte = self.byte()?;
        self.send();
        Some(byte)
    }

    /// Takes a byte where it takes one, and says whether it does.
    pub fn byte_out(&mut self, b: u8) -> bool
        requires { (core : Core) × IsSound (session_of core self.old) }
        ensures takes { result ≡ takes_by self.old.shows }
        ensures connection { self.new ≡ took_by self.old.shows self.old b }
        ensures sound { (core : Core) → IsSound (session_of core self.old) → IsSound (session_of core self.new) }
    {
        self.take(b)
    }

    /// A byte that it has was sent.
    fn send(&mut self)
        requires { (b : ℕ) × (byte_by self.old.shows self.old.task self.old.lun ≡ Some b) }
        ensures { self.new ≡ sent_by self.old.shows self.old }
    {
        match self.shows {
            TaskPhase::ToChoose | TaskPhase::MessageOut | TaskPhase::DataOut(_) => {}
            TaskPhase::DataIn(left) => {
                self.task.advance();
                self.shows = if left > 1 {
                    TaskPhase::DataIn(left - 1)
                } else {
                    TaskPhase::ToChoose
                };
            }
            TaskPhase::Status(completion) => self.shows = TaskPhase::MessageIn {
                message: TargetMessage::CommandComplete(completion),
                sent: false,
            },
            TaskPhase::MessageIn { message, .. } => self.shows = TaskPhase::MessageIn {
                message,
                sent: true,
            },
        }
    }

    fn take(&mut self, b: u8) -> bool
        requires { (core : Core) × IsSound (session_of core self.old) }
        ensures takes { result ≡ takes_by self.old.shows }
        ensures connection { self.new ≡ took_by self.old.shows self.old b }
    {
        match self.shows {
            TaskPhase::MessageOut => {
                hear_byte(&mut self.heard, b);
                true
            }
            TaskPhase::DataOut(left) => {
                self.task.receive(b);
                self.shows = if left > 1 {
                    TaskPhase::DataOut(left - 1)
                } else {
                    TaskPhase::ToChoose
                };
                true
            }
            _ => false,
        }
    }
}

/// A further byte of a message, of which only the first four are kept.
fn hear_byte(heard: &mut ArrayVec<u8, 4>, b: u8)
    ensures { heard.new.items ≡ hears heard.old.items b }
{
    if heard.is_full() {
        return;
    }
    heard.push(b);
}

/// The byte of the status that is told.
fn status_byte(completion: Completion) -> u8
    ensures { result ≡ status_code (status_told completion) }
{
    match completion {
        Completion::Answered(status) | Completion::Refused(status) => status.byte(),
    }
}

/// The byte of a message.
fn message_in_byte(message: TargetMessage, lun: u8, tag: u8) -> u8
    requires { lun < 8 }
    ensures { result ≡ message_in_byte message lun tag }
{
    match message {
        TargetMessage::Reselection(ReselectByte::Identify) => message_byte(&Message::Identify {
            may_leave: false,
            lun,
        }),
        TargetMessage::Reselection(ReselectByte::SimpleQueueTag) => message_byte(
            &Message::SimpleTag,
        ),
        TargetMessage::Reselection(ReselectByte::Tag) => tag,
        TargetMessage::CommandComplete(_) => message_byte(&Message::Complete),
        TargetMessage::SaveThenDisconnect | TargetMessage::SaveDataPointer => message_byte(
            &Message::Save,
        ),
        TargetMessage::RestorePointers => message_byte(&Message::Restore),
        TargetMessage::Disconnect => message_byte(&Message::Leave),
    }
}

//! A connection: its beginning and its parts.

ghost use Rattle.std.specs.Prelude.{◌≡◌, ◌<◌, [], true, false};
ghost use Rattle.unit_core.specs.declared.Core.{Core};
ghost use Rattle.target_law.specs.declared.task_phase.ReselectByte.TheVariants as part;
ghost use Rattle.target_law.specs.declared.task_phase.TargetMessage.TheVariants.{Reselection};
ghost use Rattle.target_law.specs.declared.task_phase.TaskPhase.TheVariants.{ToChoose, MessageOut, MessageIn};
ghost use Rattle.target_law.specs.Bytes.{phase_of};
ghost use Rattle.target_law.specs.Sound.{IsSound, IsWaiting};
ghost use Rattle.target_session.specs.Sessions.{session_of};

use arrayvec::ArrayVec;
use scsi_words::Phase;
use std::marker::Model;
use target_law::{ReselectByte, TargetMessage, TaskPhase};
use unit_task::Task;

/// A connected task of the unit with this LUN, and what it shows.
#[derive(Drop)]
pub struct Connection {
    pub(crate) lun: u8,
    reselected: bool,
    pub(crate) heard: ArrayVec<u8, 4>,
    pub(crate) task: Task,
    pub(crate) shows: TaskPhase,
}

impl Model for Connection {
    ghost use Rattle.target_law.specs.Bytes.{Connection};

    ghost Value = { Connection };

    ghost view = { λ c. record {
      lun = c.lun;
      reselected = c.reselected;
      heard = c.heard.items;
      task = c.task;
      shows = c.shows;
    } };

    ghost use Rattle.std.specs.Prelude.{◌<◌};

    ghost invariant = { λ c. c.lun < 8 };
}

impl Connection {
    /// A task begins a connection after its command was taken: it is to choose.
    ///
    /// Condition: the LUN is 0 to 7.
    pub fn begin(lun: u8, task: Task) -> Connection
        requires { lun < 8 }
        ensures connection { result ≡
            record { lun = lun; reselected = false; heard = []; task = task; shows = ToChoose } }
        ensures sound { (core : Core) → IsWaiting core.lun task → IsSound (session_of core result) }
    {
        Connection {
            lun,
            reselected: false,
            heard: ArrayVec::new(),
            task,
            shows: TaskPhase::ToChoose,
        }
    }

    /// A task reselects: it names its nexus first.
    ///
    /// Condition: the LUN is 0 to 7.
    pub fn reselect(lun: u8, task: Task) -> Connection
        requires { lun < 8 }
        ensures connection { result ≡
            record { lun = lun; reselected = true; heard = []; task = task; shows = MessageIn (Reselection part.Identify) false } }
        ensures sound { (core : Core) → IsWaiting core.lun task → IsSound (session_of core result) }
    {
        Connection {
            lun,
            reselected: true,
            heard: ArrayVec::new(),
            task,
            shows: TaskPhase::MessageIn {
                message: TargetMessage::Reselection(ReselectByte::Identify),
                sent: false,
            },
        }
    }

    /// The LUN of its unit.
    pub fn lun(&self) -> u8
        ensures { result ≡ self.now.lun }
    {
        self.lun
    }

    /// The tag of its task.
    pub fn tag(&self) -> u8
        ensures { result ≡ self.now.task.tag }
    {
        self.task.tag()
    }

    /// A reselection began it.
    pub fn is_reselected(&self) -> bool
        ensures { result ≡ self.now.reselected }
    {
        self.reselected
    }

    /// What it shows.
    pub fn shows(&self) -> TaskPhase
        ensures { result ≡ self.now.shows }
    {
        self.shows
    }

    /// The phase that it shows, if it shows one.
    pub fn phase(&self) -> Option<Phase>
        ensures { result ≡ phase_of self.now.shows }
    {
        match self.shows {
            TaskPhase::ToChoose => None,
            TaskPhase::MessageOut => Some(Phase::MsgOut),
            TaskPhase::DataIn(_) => Some(Phase::DataIn),
            TaskPhase::DataOut(_) => Some(Phase::DataOut),
            TaskPhase::Status(_) => Some(Phase::Status),
            TaskPhase::MessageIn { .. } => Some(Phase::MsgIn),
        }
    }

    /// The bytes of the message that it hears, at most the first four.
    pub fn heard(&self) -> &[u8]
        ensures { result.now ≡ self.now.heard }
    {
        self.heard.as_slice()
    }

    /// Its task.
    pub fn task(&self) -> &Task
        ensures { result.now ≡ self.now.task }
    {
        &self.task
    }

    /// Its task, which leaves the connection.
    pub fn into_task(self) -> Task
        ensures { result ≡ self.task }
    {
        self.task
    }

    /// ATN is asserted while it is to choose: it hears a message.
    pub fn ask_message(&mut self)
        ensures connection { self.new ≡ record self.old { heard = []; shows = MessageOut } }
        ensures sound { (core : Core) → IsSound (session_of core self.old) → IsSound (session_of core self.new) }
    {
        self.heard = ArrayVec::new();
        self.shows = TaskPhase::MessageOut;
    }
}

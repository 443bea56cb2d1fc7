//! Selection, reselection, choices and moves.

ghost use Rattle.std.specs.Prelude.{◌≡◌, ◌<◌, ◌≤◌, Bool, false, length, vec_len};
ghost use Rattle.target_law.specs.Session.{Task, acted};
ghost use Rattle.target_law.specs.Sound.{IsSound, IsWaiting};
ghost use Rattle.target_law.specs.RoguePhases.{rogue_chosen};
ghost use Rattle.target_law.specs.Target.{BusFree, session, unit_at, linked, parted};
ghost use Rattle.unit_tasks.specs.Units.{unit_of};
ghost use Rattle.target_law.specs.Calls.{IsToChoose, is_rogue_connected, asked_by, link_or_free, candidates, selected_by, target_selected, target_reselected, target_acted};
ghost use Rattle.target_law.specs.Lawful.{CanOf, IsThere, May, Named};
ghost use Rattle.target_law.specs.Devices.{where_room};
ghost use Rattle.scsi_target.specs.Devices.{IsFree, IsPresent};
ghost use Rattle.scsi_target.specs.Moves.{has_room, unit_moved, connection_moved};
ghost use Rattle.scsi_target.specs.Views.{device_of, link_of, IsDevice};

use crate::connection_state::{ConnectionState, MessageBuffer};
use crate::device::Device;
use crate::task_exit::{TaskExit, part};
use std::mem;
use target_law::{Move, Nexus, ReselectByte, RoguePhase};
use target_session::Connection;
use unit_tasks::QueuedUnit;

impl Device {
    /// The target is selected: it shows MSG_OUT.
    ///
    /// Condition: it isn't absent, and isn't connected.
    pub fn select(&mut self)
        requires free { IsFree self.old }
        requires present { IsPresent self.old }
        ensures { self.new ≡ record { target = target_selected self.old.target; rooms = self.old.rooms } }
    {
        self.link = selected(self.rogue);
    }

    /// The n-th candidate of a unit reselects, by rising tag from 0: it shows MSG_IN with its name. A unit that breaks
    /// the rules shows `tag`.
    ///
    /// Condition: the target isn't connected, the LUN is there, and `n` is below the number of the unit's candidates.
    pub fn reselect(&mut self, lun: u8, n: u32, tag: u8)
        requires free { IsFree self.old }
        requires candidate { IsThere (unit_at self.old.target.units lun) (λ u. n < candidates u) }
        ensures { self.new ≡ record { target = target_reselected self.old.target lun n tag; rooms = self.old.rooms } }
    {
        if self.rogue {
            let shown = RoguePhase::Reselection {
                part: ReselectByte::Identify,
                sent: false,
            };
            self.link = ConnectionState::RogueConnected(shown, Some(Nexus { lun, tag }));
            return;
        }
        if let Some(unit) = &mut self.units[lun as usize] {
            let task = unit.tasks.take_out(n as usize);
            self.link = ConnectionState::TaskConnected(Connection::reselect(lun, task));
        }
    }

    /// The lawful move that the word names; of units that break the rules the move by the word.
    ///
    /// Condition: the target is connected and is to choose.
    pub fn choose(&self, word: u32) -> Move
        requires { IsToChoose self.now.target.link }
        ensures named { Named self.now.target word result }
        ensures lawful { May self.now.target result }
    {
        match &self.link {
            ConnectionState::TaskConnected(connection) =>
                match &self.units[connection.lun() as usize] {
                    Some(unit) => connection.choose(&unit.core, unit.rig.refusals, word),
                    None => unreachable!(),
                },
            _ => Move::Rogue { word },
        }
    }

    /// A word by which `choose` gives this move.
    ///
    /// Condition: the move is lawful.
    pub fn word_for(&self, m: &Move) -> u32
        requires { May self.now.target m.now }
        ensures { Named self.now.target result m.now }
    {
        match &self.link {
            ConnectionState::TaskConnected(connection) =>
                match &self.units[connection.lun() as usize] {
                    Some(unit) => connection.word_for(&unit.core, unit.rig.refusals, m),
                    None => unreachable!(),
                },
            _ => match *m {
                Move::Rogue { word } => word,
                _ => unreachable!(),
            },
        }
    }

    /// Makes a move. Where it logs and the log has no room, nothing changes.
    ///
    /// Condition: the move is lawful.
    pub fn act(&mut self, m: Move)
        requires { May self.old.target m }
        ensures { self.new ≡ where_room self.old (target_acted self.old.target m) }
    {
        match &mut self.link {
            ConnectionState::TaskConnected(connection) => {
                if let Some(unit) = &mut self.units[connection.lun() as usize] {
                    move_on(unit, connection, m);
                }
            }
            ConnectionState::RogueConnected(_, named) => {
                let named = *named;
                if let Move::Rogue { word } = m {
                    self.link = rogue_on(named, word);
                }
            }
            _ => {}
        }
    }

    /// ATN is asserted, and a connected task shows MSG_OUT. Where no task is connected, nothing changes.
    ///
    /// Condition: no units that break the rules are connected.
    pub fn ask_message(&mut self)
        requires { is_rogue_connected self.old.target.link ≡ false }
        ensures { self.new ≡ record { target = linked self.old.target (asked_by self.old.target.link); rooms = self.old.rooms } }
    {
        if let ConnectionState::TaskConnected(connection) = &mut self.link {
            connection.ask_message();
        }
    }

    /// The target leaves the bus. A connected task waits among the others then, as after DISCONNECT.
    pub fn leave(&mut self)
        ensures { self.new ≡ record { target = linked (parted self.old.target.link self.old.target) BusFree; rooms = self.old.rooms } }
    {
        let link = mem::replace(&mut self.link, ConnectionState::BusFree);
        self.link = left(&mut self.units, link);
    }
}

/// The link of a target that leaves the bus, with its task away.
fn left(units: &mut Vec<Option<QueuedUnit>>, link: ConnectionState) -> ConnectionState
    requires device { (rogue : Bool) × IsDevice (vec_len units.old) units.old.items link rogue }
    ensures state { let d = device_of units.old.items link in
        device_of units.new.items result ≡ record { target = linked (parted d.target.link d.target) BusFree; rooms = d.rooms } }
    ensures device { (rogue : Bool) → IsDevice (vec_len units.old) units.old.items link rogue →
        IsDevice (vec_len units.new) units.new.items result rogue }
{
    match link {
        ConnectionState::TaskConnected(connection) => part(
            units,
            connection,
            TaskExit::Disconnected,
        ),
        _ => ConnectionState::BusFree,
    }
}

/// The link of a target that is selected.
fn selected(rogue: bool) -> ConnectionState
    ensures { link_of result ≡ selected_by rogue }
{
    if rogue {
        ConnectionState::RogueConnected(RoguePhase::MessageOut, None)
    } else {
        ConnectionState::Selected(MessageBuffer::new())
    }
}

/// Makes the move of a connected task at its unit. Where it logs and the log has no room, nothing changes.
///
/// Condition: the move is lawful.
fn move_on(unit: &mut QueuedUnit, connection: &mut Connection, m: Move)
    requires sound { IsSound (session (unit_of unit.old) connection.old) }
    requires lawful { CanOf (unit_of unit.old) connection.old m }
    requires log { length unit.old.core.log.entries ≤ unit.old.core.log.room }
    ensures unit { let s = acted m (session (unit_of unit.old) connection.old) in
        unit.new ≡ unit_moved (has_room unit.old s) unit.old s }
    ensures connection { let s = acted m (session (unit_of unit.old) connection.old) in
        connection.new ≡ connection_moved (has_room unit.old s) connection.old s }
    ensures sound { IsSound (session (unit_of unit.new) connection.new) }
    ensures others { (k : Task) → IsWaiting unit.old.core.lun k → IsWaiting unit.new.core.lun k }
{
    if connection.logs(&unit.core, &m) && unit.core.log.spare() == 0 {
        return;
    }
    connection.act(&mut unit.core, m);
}

/// The link of a target that breaks the rules after its move by a word.
fn rogue_on(named: Option<Nexus>, word: u32) -> ConnectionState
    ensures { link_of result ≡ link_or_free (rogue_chosen word) named }
{
    match rogue_target::chosen(word) {
        Some(shown) => ConnectionState::RogueConnected(shown, named),
        None => ConnectionState::BusFree,
    }
}

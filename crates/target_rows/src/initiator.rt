//! The initiator of the tests.

ghost use Rattle.std.specs.Prelude.{◌≡◌, ◌↔◌, ◌&&◌, nat_lt, if◌then◌else◌, IfOk, IfSome, IsTrue, IsSome, is_some, Some, false, true, [], ◌∷◌, not, slice_get};
ghost use Rattle.scsi_words.specs.declared.phases.kinds.Phase.TheVariants.{MsgOut};
ghost use Rattle.target_law.specs.declared.moves.Move.{Move};
ghost use Rattle.target_law.specs.Target.{unit_at, target_opened, linked, target_reset};
ghost use Rattle.target_law.specs.Calls.{is_free, link_phase, nexus_of, candidates, IsToChoose, is_rogue, target_selected, target_reselected, asked_by, target_messaged, target_acked, link_byte, link_takes};
ghost use Rattle.target_law.specs.Beginning.{target_took};
ghost use Rattle.target_law.specs.Lawful.{IsThere, Named};
ghost use Rattle.target_law.specs.Devices.{where_room, room_at};
ghost use Rattle.target_rows.specs.Calls.{after_byte, is_message_in, message_byte, ActsBy};
ghost use Rattle.target_rows.specs.Rigs.{IsPresent};

use rig_types::Unit;
use scsi_target::Device;
use scsi_words::Phase;
use std::alloc::{AllocError, Global};
use std::marker::Model;
use target_law::{Move, Nexus};
use unit_law::LogEntry;

/// An initiator for tests, with a target whose one unit is there. It makes each call of the target only where the
/// call's condition holds.
#[derive(Drop)]
pub struct Initiator {
    device: Device,
    unit: Unit,
}

impl Model for Initiator {
    ghost use Rattle.target_law.specs.Devices.{DeviceState};
    ghost use Rattle.target_rows.specs.Rigs.{IsHeld};

    ghost Value = { DeviceState };

    ghost view = { λ i. i.device };

    ghost invariant = { λ i. IsHeld i.device.target.units i.unit };
}

impl Initiator {
    /// A target with this unit alone, whose log has room for so many entries.
    ///
    /// Condition: the unit is in range, has LUN 3, and isn't absent.
    pub fn open(alloc: Global, unit: &Unit, room: u32) -> Result<Initiator, AllocError>
        requires { IsPresent unit.now }
        ensures target { IfOk result (λ i. i.target ≡ target_opened (unit.now ∷ [])) }
        ensures room { IfOk result (λ i. room_at i 3 ≡ room) }
    {
        let mut device = Device::open(alloc, &[*unit])?;
        device.reserve(unit.lun, room)?;
        Ok(Initiator {
            device,
            unit: *unit,
        })
    }

    /// The phase that the target shows.
    pub fn shown(&self) -> Option<Phase>
        ensures { result ≡ link_phase self.now.target.link }
    {
        self.device.shown()
    }

    /// Whether the target is connected.
    pub fn connected(&self) -> bool
        ensures { result ≡ not (is_free self.now.target.link) }
    {
        self.device.connected()
    }

    /// The nexus of the connection.
    pub fn nexus(&self) -> Option<Nexus>
        ensures { result ≡ nexus_of self.now.target.link }
    {
        self.device.nexus()
    }

    /// How many candidates for a reselection there are.
    pub fn candidates(&self) -> u32
        ensures { IsThere (unit_at self.now.target.units 3) (λ u. result ≡ candidates u) }
    {
        self.device.can_reselect(self.unit.lun)
    }

    /// The n-th entry of the unit's log, from 0.
    pub fn log_entry(&self, n: u32) -> Option<LogEntry>
        ensures { IsThere (unit_at self.now.target.units 3) (λ u. result ≡ slice_get u.log n) }
    {
        self.device.log_entry(self.unit.lun, n)
    }

    /// Selects the target. False exactly where it is connected.
    pub fn select(&mut self) -> bool
        ensures selects { result ≡ is_free self.old.target.link }
        ensures state { self.new ≡ (if result then record { target = target_selected self.old.target; rooms = self.old.rooms } else self.old) }
    {
        if self.device.connected() {
            return false;
        }
        self.device.select();
        true
    }

    /// The n-th candidate reselects. False exactly where the target is connected, or has no such candidate.
    pub fn reselect(&mut self, n: u32, tag: u8) -> bool
        ensures reselects { IsThere (unit_at self.old.target.units 3) (λ u. result ≡ (is_free self.old.target.link && nat_lt n (candidates u))) }
        ensures state { self.new ≡ (if result then record { target = target_reselected self.old.target 3 n tag; rooms = self.old.rooms } else self.old) }
    {
        if self.device.connected() || n >= self.device.can_reselect(self.unit.lun) {
            return false;
        }
        self.device.reselect(self.unit.lun, n, tag);
        true
    }

    /// Whether the target is connected and shows no phase.
    fn is_to_choose(&self) -> bool
        ensures { IsTrue result ↔ IsToChoose self.now.target.link }
    {
        self.device.connected() && self.device.shown().is_none()
    }

    /// Asserts ATN. False exactly where the target isn't to choose, or breaks the rules.
    pub fn ask(&mut self) -> bool
        ensures asks { IsTrue result ↔ ((is_rogue self.old.target ≡ false) × IsToChoose self.old.target.link) }
        ensures state { self.new ≡ (if result then record { target = linked self.old.target (asked_by self.old.target.link); rooms = self.old.rooms } else self.old) }
    {
        if self.device.is_rogue() {
            return false;
        }
        if !self.is_to_choose() {
            return false;
        }
        self.device.ask_message();
        true
    }

    /// Releases ATN, by which the message acts. False exactly where the target doesn't show MSG_OUT.
    pub fn end_message(&mut self) -> bool
        ensures ends { IsTrue result ↔ (link_phase self.old.target.link ≡ Some MsgOut) }
        ensures state { self.new ≡ (if result then where_room self.old (target_messaged self.old.target) else self.old) }
    {
        if !is_message_out(self.device.shown()) {
            return false;
        }
        self.device.end_message();
        true
    }

    /// The next byte from the target.
    pub fn byte_in(&mut self) -> Option<u8>
        ensures byte { result ≡ link_byte self.old.target.link }
        ensures state { self.new ≡ after_byte self.old }
    {
        self.device.byte_in()
    }

    /// The next byte of MSG_IN, which is acknowledged, so that it acts.
    pub fn message_in(&mut self) -> Option<u8>
        ensures byte { result ≡ message_byte self.old.target.link }
        ensures state { self.new ≡ (if is_some result then where_room (after_byte self.old) (target_acked (after_byte self.old).target) else self.old) }
    {
        if !is_message_in(self.device.shown()) {
            return None;
        }
        let byte = self.device.byte_in();
        if byte.is_some() {
            self.device.end_ack();
        }
        byte
    }

    /// The next byte for the target; with the last one of a command its task begins, for this live ticket. False exactly
    /// where the target takes no byte: nothing changes then.
    pub fn byte_out(&mut self, b: u8, ticket: Option<u32>) -> bool
        ensures taken { result ≡ link_takes self.old.target.link }
        ensures state { self.new ≡ record { target = target_took (λ n. ticket) self.old.target b; rooms = self.old.rooms } }
    {
        self.device.take_byte(b, ticket)
    }

    /// The move that a word names, `None` exactly where the target isn't to choose.
    pub fn choose(&self, word: u32) -> Option<Move>
        ensures chooses { IsSome result ↔ IsToChoose self.now.target.link }
        ensures named { IfSome result (λ m. Named self.now.target word m) }
    {
        if !self.is_to_choose() {
            return None;
        }
        Some(self.device.choose(word))
    }

    /// A word for the move that this word names, `None` exactly where the target isn't to choose.
    pub fn word_again(&self, word: u32) -> Option<u32>
        ensures chooses { IsSome result ↔ IsToChoose self.now.target.link }
        ensures named { IfSome result (λ again. (m : Move) × Named self.now.target word m × Named self.now.target again m) }
    {
        if !self.is_to_choose() {
            return None;
        }
        let m = self.device.choose(word);
        Some(self.device.word_for(&m))
    }

    /// Makes the move that a word names. False exactly where the target isn't to choose.
    pub fn act(&mut self, word: u32) -> bool
        ensures acts { IsTrue result ↔ IsToChoose self.old.target.link }
        ensures moved { IsTrue result → ActsBy word self.old self.new }
        ensures stays { result ≡ false → self.new ≡ self.old }
    {
        if !self.is_to_choose() {
            return false;
        }
        let m = self.device.choose(word);
        self.device.act(m);
        true
    }

    /// Resets the bus.
    pub fn reset(&mut self)
        ensures { self.new ≡ where_room self.old (target_reset self.old.target) }
    {
        self.device.reset();
    }
}

/// Whether this phase is MSG_OUT.
fn is_message_out(shown: Option<Phase>) -> bool
    ensures { IsTrue result ↔ (shown ≡ Some MsgOut) }
{
    matches!(shown, Some(Phase::MsgOut))
}

/// Whether this phase is MSG_IN.
fn is_message_in(shown: Option<Phase>) -> bool
    ensures { result ≡ is_message_in shown }
{
    matches!(shown, Some(Phase::MsgIn))
}

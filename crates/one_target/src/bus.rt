//! The bus of the command `one`.

ghost use Rattle.std.specs.Prelude.{◌≡◌, ◌⊎◌, ◌↔◌, IfOk, IsTrue, None};
ghost use Rattle.target_law.specs.Calls.{link_phase, link_takes};
ghost use Rattle.one_target.specs.Bus.{Turns, ComesIn, StaysOut, as_byte, taken_where, ack_by, after_ack, is_message, messaged_where};
ghost use Rattle.one_target.specs.Opening.{IsOpened};

use crate::turn::{choose, ticket_at};
use chip_step::{Bus, Settled};
use rig_types::{Pattern, Unit};
use scsi_target::Device;
use scsi_words::Phase;
use std::alloc::{AllocError, Global};
use std::marker::Model;

/// The one unit: 64 blocks of a pattern, and a place for one task. It neither leaves the bus nor refuses.
const UNIT: Unit = Unit {
    target: 0,
    lun: 0,
    blocks: 64,
    pattern: Pattern::Count,
    depth: 1,
    disconnects: 0,
    refusals: 0,
    absent: false,
    rogue: false,
};

/// How many entries the unit's log has room for. One command logs at most two.
const ROOM: u32 = 8;

/// A bus with target 0 and its one unit, of LUN 0.
#[derive(Drop)]
pub struct OneBus {
    device: Device,
    atn: bool,
    ack: bool,
    /// The phase that was asked for last. A byte comes only in this phase.
    asked: Option<Phase>,
}

impl Model for OneBus {
    ghost use Rattle.one_target.specs.Bus.{BusState, bus_of};
    ghost use Rattle.one_target.specs.Holding.{IsHeld};

    ghost Value = { BusState };

    ghost view = { λ b. bus_of b.device b.atn b.ack b.asked };

    ghost invariant = { λ b. IsHeld (bus_of b.device b.atn b.ack b.asked) };
}

impl OneBus {
    /// The free bus with the unit at its opening; no phase was asked for. It takes the memory of the unit's disk and of one task.
    pub fn open(alloc: Global) -> Result<OneBus, AllocError>
        ensures opened { IfOk result (λ bus. IsOpened bus) }
        ensures unasked { IfOk result (λ bus. bus.asked ≡ None) }
    {
        let mut device = Device::open(alloc, &[UNIT])?;
        device.reserve(0, ROOM)?;
        Ok(OneBus {
            device,
            atn: false,
            ack: false,
            asked: None,
        })
    }

    /// The target's turn, by the word.
    fn turn(&mut self, word: u32)
        ensures { Turns word self.old self.new }
    {
        if !self.device.connected() {
            return;
        }
        choose(&mut self.device, self.atn, word);
        let bound = self.device.connected();
        self.atn = self.atn & bound;
        self.ack = self.ack & bound;
    }
}

impl OneBus {
    /// The message is whole, and acts, where MSG_OUT is shown.
    fn end_message(&mut self)
        ensures { self.new ≡ messaged_where (is_message (link_phase self.old.target.link)) self.old }
    {
        if !is_message(self.device.shown()) {
            return;
        }
        self.device.end_message();
        let bound = self.device.connected();
        self.atn = self.atn & bound;
        self.ack = self.ack & bound;
    }

    /// The target acts on its message byte.
    fn release(&mut self)
        ensures { self.new ≡ after_ack self.old }
    {
        if !self.ack {
            return;
        }
        self.ack = false;
        self.device.end_ack();
        let bound = self.device.connected();
        self.atn = self.atn & bound;
    }

    /// The next byte, in the phase that was asked for.
    fn give(&mut self) -> Option<u8>
        ensures { (ComesIn self.old result self.new) ⊎ (StaysOut self.old result self.new) }
    {
        let shown = self.device.shown();
        if !is_same(self.asked, shown) {
            return None;
        }
        let byte = self.device.byte_in();
        self.ack = ack_by(byte, shown, self.ack);
        as_byte(byte)
    }

    /// A byte is taken; the last one of a command descriptor block begins its task.
    fn take(&mut self, b: u8) -> bool
        ensures taken { result ≡ link_takes self.old.target.link }
        ensures after { self.new ≡ taken_where (link_takes self.old.target.link) self.old b }
    {
        let ticket = ticket_at(self.device.nexus());
        if !self.device.take_byte(b, ticket) {
            return false;
        }
        let bound = self.device.connected();
        self.atn = self.atn & bound;
        self.ack = self.ack & bound;
        true
    }
}

/// The byte, which is below 256.
fn as_byte(byte: Option<u8>) -> Option<u8>
    ensures { result ≡ as_byte byte }
{
    match byte {
        Some(b) => Some(b),
        None => None,
    }
}

/// Whether this phase is MSG_OUT.
fn is_message(shown: Option<Phase>) -> bool
    ensures { result ≡ is_message shown }
{
    matches!(shown, Some(Phase::MsgOut))
}

/// Whether two phases are the same.
fn is_same(a: Option<Phase>, b: Option<Phase>) -> bool
    ensures { IsTrue result ↔ (a ≡ b) }
{
    a == b
}

/// ACK after a byte of this phase.
fn ack_by(byte: Option<u8>, shown: Option<Phase>, ack: bool) -> bool
    ensures { result ≡ ack_by byte shown ack }
{
    match (byte, shown) {
        (Some(_), Some(Phase::MsgIn)) => true,
        _ => ack,
    }
}

impl Bus for OneBus {
    ghost use Rattle.one_target.specs.Bus.{moves, signals_of};
    ghost use Rattle.one_target.specs.BusLaw.{moves_lawfully};

    ghost moves = { moves };

    ghost signals = { signals_of };

    ghost lawful = { moves_lawfully };

    fn phase(&mut self, word: u32) -> Option<Phase> {
        self.turn(word);
        let shown = self.device.shown();
        self.asked = shown;
        shown
    }

    fn shown(&self) -> Option<Phase> {
        self.device.shown()
    }

    fn byte_in(&mut self) -> Option<u8> {
        self.give()
    }

    fn byte_out(&mut self, b: u8) -> bool {
        self.take(b)
    }

    fn select(&mut self, target: u8, _word: u32) -> Settled {
        if target != 0 || self.device.connected() {
            return Settled::TimedOut;
        }
        self.device.select();
        Settled::Selected
    }

    fn reselect(&mut self, _word: u32) -> Option<u8> {
        None
    }

    fn set_atn(&mut self, on: bool) {
        if !on {
            self.end_message();
        }
        self.atn = on;
    }

    fn clear_ack(&mut self) {
        self.release();
    }

    fn leave(&mut self, word: u32) -> bool {
        self.turn(word);
        !self.device.connected()
    }
}

//! The bus: its bytes, ATN and ACK.

ghost use Rattle.std.specs.Prelude.{◌≡◌, ◌<◌, true};
ghost use Rattle.target_law.specs.Calls.{link_phase, link_takes};
ghost use Rattle.bus_law.specs.Bus.{device_at, link_on};
ghost use Rattle.bus_law.specs.Bytes.{byte_of, after_byte_in, after_byte_out, if_asked, is_same_phase};
ghost use Rattle.bus_law.specs.Attention.{after_atn, after_ack, messaged, is_message_out};
ghost use Rattle.target_bus.specs.Fields.{kept_if, ticket_on, ack_by};

use crate::tickets::LiveTickets;
use scsi_target::Device;
use scsi_words::Phase;
use std::marker::Model;
use target_law::Nexus;

/// The bus with the devices of SCSI IDs 0 to 6, of which at most one is connected.
#[derive(Drop)]
pub struct TargetBus {
    /// The devices by SCSI ID. One without units stands where there is no target.
    pub(crate) devices: Vec<Device>,
    pub(crate) connected: Option<u8>,
    pub(crate) atn: bool,
    pub(crate) ack: bool,
    /// The phase that was asked for last. A byte comes only in this phase.
    pub(crate) asked: Option<Phase>,
}

impl Model for TargetBus {
    ghost use Rattle.std.specs.Prelude.{vec_len};
    ghost use Rattle.bus_law.specs.Bus.{BusState};
    ghost use Rattle.target_bus.specs.Fields.{bus_of, IsHeldBus};

    ghost Value = { BusState };

    ghost view = { λ b. bus_of b.devices.items b.connected b.atn b.ack b.asked };

    ghost invariant = { λ b. IsHeldBus (vec_len b.devices) (bus_of b.devices.items b.connected b.atn b.ack b.asked) };
}

impl TargetBus {
    /// The device of a SCSI ID, for what its units show.
    ///
    /// Condition: the ID is 0 to 6.
    pub fn device(&self, id: u8) -> &Device
        requires { id < 7 }
        ensures { result.now ≡ device_at self.now id }
    {
        &self.devices[id as usize]
    }

    /// The phase that the connected target shows, `None` exactly where none is connected or it is to choose.
    pub fn shown(&self) -> Option<Phase>
        ensures { result ≡ link_phase (link_on self.now) }
    {
        match self.connected {
            Some(id) => self.devices[id as usize].shown(),
            None => None,
        }
    }

    /// The next byte from the connected target, in the phase that was asked for. With `None` nothing changes. A byte of
    /// MSG_IN asserts ACK.
    pub fn byte_in(&mut self) -> Option<u8>
        ensures byte { result ≡ byte_of self.old }
        ensures state { self.new ≡ after_byte_in self.old.connected result self.old }
    {
        let Some(id) = self.connected else {
            return None;
        };
        let shown = self.devices[id as usize].shown();
        if !is_same(self.asked, shown) {
            return None;
        }
        let byte = self.devices[id as usize].byte_in();
        self.ack = ack_by(byte, shown, self.ack);
        as_byte(byte)
    }

    /// Hands a byte to the connected target. With the last byte of a command descriptor block its task begins, for the
    /// live ticket of its nexus. With false the target takes none, and nothing changes.
    pub fn byte_out<L: LiveTickets>(&mut self, b: u8, tickets: &L) -> bool
        ensures taken { result ≡ link_takes (link_on self.old) }
        ensures state { self.new ≡ after_byte_out (L.live tickets.now) result self.old.connected b self.old }
    {
        let Some(id) = self.connected else {
            return false;
        };
        let nexus = self.devices[id as usize].nexus();
        let ticket = ticket_on(tickets, id, nexus);
        if !self.devices[id as usize].take_byte(b, ticket) {
            return false;
        }
        let bound = self.devices[id as usize].connected();
        self.connected = kept_if(bound, id);
        self.atn = self.atn & bound;
        self.ack = self.ack & bound;
        true
    }

    /// Asserts or releases ATN. While the connected target shows MSG_OUT, its message is whole with the release, and
    /// acts.
    pub fn set_atn(&mut self, on: bool)
        ensures { self.new ≡ after_atn on self.old }
    {
        if !on {
            self.end_message();
        }
        self.atn = on;
    }

    /// The message is whole, and acts, where MSG_OUT is shown.
    fn end_message(&mut self)
        ensures { self.new ≡ messaged (is_message_out (link_phase (link_on self.old))) self.old.connected self.old }
    {
        let Some(id) = self.connected else {
            return;
        };
        if !is_message_out(self.devices[id as usize].shown()) {
            return;
        }
        self.devices[id as usize].end_message();
        let bound = self.devices[id as usize].connected();
        self.connected = kept_if(bound, id);
        self.atn = self.atn & bound;
        self.ack = self.ack & bound;
    }

    /// Releases ACK, by which the connected target acts on its message byte. It changes nothing where ACK isn't
    /// asserted.
    pub fn clear_ack(&mut self)
        ensures { self.new ≡ after_ack self.old.ack self.old }
    {
        if !self.ack {
            return;
        }
        self.ack = false;
        let Some(id) = self.connected else {
            return;
        };
        self.devices[id as usize].end_ack();
        let bound = self.devices[id as usize].connected();
        self.connected = kept_if(bound, id);
        self.atn = self.atn & bound;
    }
}

/// The live ticket of a connection's nexus.
fn ticket_on<L: LiveTickets>(tickets: &L, target: u8, nexus: Option<Nexus>) -> Option<u32>
    ensures { result ≡ ticket_on (L.live tickets.now target) nexus }
{
    match nexus {
        Some(named) => tickets.live_ticket(target, named),
        None => None,
    }
}

/// Who is connected, of a device that was: none where it has left the bus.
pub(crate) fn kept_if(bound: bool, id: u8) -> Option<u8>
    ensures { result ≡ kept_if bound id }
{
    if bound { Some(id) } else { None }
}

/// Whether this phase is MSG_OUT.
fn is_message_out(shown: Option<Phase>) -> bool
    ensures { result ≡ is_message_out shown }
{
    matches!(shown, Some(Phase::MsgOut))
}

/// The byte, which is below 256.
fn as_byte(byte: Option<u8>) -> Option<u8>
    ensures { result ≡ if_asked true byte }
{
    match byte {
        Some(b) => Some(b),
        None => None,
    }
}

/// ACK after a byte of this phase, if one came.
fn ack_by(byte: Option<u8>, shown: Option<Phase>, ack: bool) -> bool
    ensures { result ≡ ack_by byte shown ack }
{
    match byte {
        Some(_) => matches!(shown, Some(Phase::MsgIn)) | ack,
        None => ack,
    }
}

/// Whether a phase is shown and is this one.
fn is_same(a: Option<Phase>, b: Option<Phase>) -> bool
    ensures { result ≡ is_same_phase a b }
{
    match (a, b) {
        (Some(a), Some(b)) => a.code() == b.code(),
        _ => false,
    }
}

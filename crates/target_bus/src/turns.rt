//! The turn of the connected target: it chooses by a word, and may leave the bus.

ghost use Rattle.std.specs.Prelude.{◌≡◌, false, is_none, None};
ghost use Rattle.target_law.specs.Calls.{is_free, link_phase};
ghost use Rattle.bus_law.specs.Choices.{chooses, turned, after_turn, phase_after};

use crate::bus::{TargetBus, kept_if};
use scsi_target::Device;
use scsi_words::Phase;

impl TargetBus {
    /// The phase after the connected target's turn by the word, in which bytes then come. `None` exactly where the bus is
    /// free after it.
    pub fn phase(&mut self, word: u32) -> Option<Phase>
        ensures phase { result ≡ phase_after self.old.connected word self.old }
        ensures state { self.new ≡ record (after_turn self.old.connected word self.old) { asked = result } }
    {
        let shown = self.turn(word);
        self.asked = shown;
        shown
    }

    /// Whether the bus is free after the connected target's turn by the word. A free bus stays as it is.
    pub fn leave(&mut self, word: u32) -> bool
        ensures gone { result ≡ is_none (after_turn self.old.connected word self.old).connected }
        ensures state { self.new ≡ after_turn self.old.connected word self.old }
    {
        let _ = self.turn(word);
        self.connected.is_none()
    }

    /// The connected target's turn by the word, and the phase that it shows then.
    fn turn(&mut self, word: u32) -> Option<Phase>
        ensures phase { result ≡ phase_after self.old.connected word self.old }
        ensures state { self.new ≡ after_turn self.old.connected word self.old }
    {
        let Some(id) = self.connected else {
            return None;
        };
        let atn = self.atn;
        turn(&mut self.devices[id as usize], atn, word);
        let shown = self.devices[id as usize].shown();
        let bound = self.devices[id as usize].connected();
        self.connected = kept_if(bound, id);
        self.atn = self.atn & bound;
        self.ack = self.ack & bound;
        shown
    }
}

/// The turn of a connected target. One that shows a phase stays; one that shows none even after its choice leaves the bus.
fn turn(device: &mut Device, atn: bool, word: u32)
    requires { is_free device.old.target.link ≡ false }
    ensures { device.new ≡ turned atn word device.old }
{
    if device.shown().is_some() {
        return;
    }
    choose(device, atn, word);
    if device.shown().is_some() {
        return;
    }
    device.leave();
}

/// A task shows MSG_OUT while ATN is asserted; else the target makes the move that the word names.
fn choose(device: &mut Device, atn: bool, word: u32)
    requires connected { is_free device.old.target.link ≡ false }
    requires none { link_phase device.old.target.link ≡ None }
    ensures { device.new ≡ chooses device.old.target.link atn word device.old }
{
    let asks = atn & !device.is_rogue_connected();
    if asks {
        device.ask_message();
        return;
    }
    let chosen = device.choose(word);
    device.act(chosen);
}

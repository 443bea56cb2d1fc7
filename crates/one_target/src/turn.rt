//! The target's turn: it chooses. And the ticket of its one task.

ghost use Rattle.std.specs.Prelude.{◌≡◌, true};
ghost use Rattle.one_target.specs.Bus.{is_to_choose, ticket_at, ActsAt, ChoosesWhere, Settles};
ghost use Rattle.one_target.specs.Holding.{IsHeldDevice};

use scsi_target::Device;
use target_law::Nexus;

/// The live ticket of a connection's nexus: ticket 0 under tag 0 of LUN 0.
pub(crate) fn ticket_at(nexus: Option<Nexus>) -> Option<u32>
    ensures { result ≡ ticket_at nexus }
{
    match nexus {
        Some(named) if named.lun == 0 && named.tag == 0 => Some(0),
        _ => None,
    }
}

/// Whether the target is connected and shows no phase.
fn is_to_choose(device: &Device) -> bool
    ensures { result ≡ is_to_choose device.now.target.link }
{
    device.connected() && device.shown().is_none()
}

/// A target that could not make its move leaves the bus.
fn settle(device: &mut Device)
    requires { IsHeldDevice device.old }
    ensures settles { Settles device.old.target device.new.target }
    ensures rooms { device.new.rooms ≡ device.old.rooms }
{
    if is_to_choose(device) {
        device.ask_message();
        device.end_message();
    }
}

/// The target makes the move that the word names.
fn act(device: &mut Device, word: u32)
    requires held { IsHeldDevice device.old }
    requires choosing { is_to_choose device.old.target.link ≡ true }
    ensures acts { ActsAt device.old.target.link device.old.rooms word device.old.target device.new.target }
    ensures rooms { device.new.rooms ≡ device.old.rooms }
{
    let m = device.choose(word);
    device.act(m);
    settle(device);
}

/// A target that is to choose shows MSG_OUT while ATN is asserted, else makes its move.
pub(crate) fn choose(device: &mut Device, atn: bool, word: u32)
    requires { IsHeldDevice device.old }
    ensures chooses { ChoosesWhere (is_to_choose device.old.target.link) atn device.old.rooms word device.old.target device.new.target }
    ensures rooms { device.new.rooms ≡ device.old.rooms }
{
    if !is_to_choose(device) {
        return;
    }
    if atn {
        device.ask_message();
    } else {
        act(device, word);
    }
}

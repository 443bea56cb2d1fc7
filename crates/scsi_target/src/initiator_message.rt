//! What a message of the initiator is, as far as it acts.

ghost use Rattle.std.specs.Prelude.{◌≡◌, ◌<◌, true};
ghost use Rattle.scsi_words.specs.Messages.{message_code};
ghost use Rattle.scsi_words.specs.declared.messages.kinds.Message.TheVariants as message;
ghost use Rattle.target_law.specs.Calls.{is_identify, of_one, of_three, message_of};
ghost use Rattle.scsi_target.specs.Messages.{read_of};

use scsi_words::{Message, message_byte};
use target_law::Nexus;

/// A message of the initiator, as far as it acts.
#[derive(Clone, Copy)]
pub(crate) enum InitiatorMessage {
    /// It names a unit and a tag, by IDENTIFY with the disconnect privilege and SIMPLE QUEUE TAG.
    Names(Nexus),
    /// BUS DEVICE RESET.
    Resets,
    /// ABORT TAG.
    AbortsTag,
    /// Any other.
    Other,
}

/// What these bytes tell.
pub(crate) fn read_message(heard: &[u8]) -> InitiatorMessage
    ensures { result ≡ read_of (message_of heard.now) }
{
    match *heard {
        [one] => of_one(one),
        [first, second, tag] => of_three(first, second, tag),
        _ => InitiatorMessage::Other,
    }
}

fn of_one(one: u8) -> InitiatorMessage
    ensures { result ≡ read_of (of_one one) }
{
    if one == message_byte(&Message::DeviceReset) {
        InitiatorMessage::Resets
    } else if one == message_byte(&Message::AbortTag) {
        InitiatorMessage::AbortsTag
    } else {
        InitiatorMessage::Other
    }
}

fn of_three(first: u8, second: u8, tag: u8) -> InitiatorMessage
    ensures { result ≡ read_of (of_three first second tag) }
{
    if is_identify(first) && second == message_byte(&Message::SimpleTag) {
        let lun = first - identify(0);
        InitiatorMessage::Names(Nexus { lun, tag })
    } else {
        InitiatorMessage::Other
    }
}

/// Whether it is IDENTIFY with the disconnect privilege.
fn is_identify(b: u8) -> bool
    ensures { result ≡ is_identify b }
{
    identify(0) <= b && b <= identify(7)
}

/// IDENTIFY with the disconnect privilege.
fn identify(lun: u8) -> u8
    requires { lun < 8 }
    ensures { result ≡ message_code (message.Identify true lun) }
{
    message_byte(&Message::Identify {
        may_leave: true,
        lun,
    })
}

//! Messages of one byte.

ghost use Rattle.scsi_words.specs.Messages.{message_code, IsMessage};
ghost use Rattle.std.specs.Prelude.{◌≡◌, IfSome};

pub mod kinds;

use kinds::Message;

/// The message that this byte is, and `None` exactly where it is none: a code that is extended, reserved or beyond
/// the table's, or an IDENTIFY with one of the bits 5 to 3 set.
pub fn message(b: u8) -> Option<Message>
    ensures read { IfSome result (λ m. IsMessage m × message_code m ≡ b) }
    ensures every { (m : Message) → IsMessage m → message_code m ≡ b → result ≡ Some m }
{
    match b {
        0x00 => Some(Message::Complete),
        0x02 => Some(Message::Save),
        0x03 => Some(Message::Restore),
        0x04 => Some(Message::Leave),
        0x06 => Some(Message::Abort),
        0x07 => Some(Message::Reject),
        0x08 => Some(Message::NoOperation),
        0x0c => Some(Message::DeviceReset),
        0x0d => Some(Message::AbortTag),
        0x20 => Some(Message::SimpleTag),
        0x21 => Some(Message::HeadTag),
        0x22 => Some(Message::OrderedTag),
        0x80..=0x87 => Some(Message::Identify {
            may_leave: false,
            lun: b - 0x80,
        }),
        0xc0..=0xc7 => Some(Message::Identify {
            may_leave: true,
            lun: b - 0xc0,
        }),
        _ => None,
    }
}

/// The byte of a message, which `message` reads back. The LUN of an IDENTIFY is 0 to 7.
pub fn message_byte(m: &Message) -> u8
    requires { IsMessage m.now }
    ensures { result ≡ message_code m.now }
{
    match *m {
        Message::Complete => 0x00,
        Message::Save => 0x02,
        Message::Restore => 0x03,
        Message::Leave => 0x04,
        Message::Abort => 0x06,
        Message::Reject => 0x07,
        Message::NoOperation => 0x08,
        Message::DeviceReset => 0x0c,
        Message::AbortTag => 0x0d,
        Message::SimpleTag => 0x20,
        Message::HeadTag => 0x21,
        Message::OrderedTag => 0x22,
        Message::Identify { may_leave, lun } => { if may_leave { 0xc0 + lun } else { 0x80 + lun } }
    }
}

//! Status bytes.

ghost use Rattle.scsi_words.specs.Statuses.{status_code};
ghost use Rattle.std.specs.Prelude.{◌≡◌, IfSome};

pub mod kinds;

use kinds::Status;

/// The status that this byte is, and `None` exactly where it is none of the five.
pub fn status(b: u8) -> Option<Status>
    ensures read { IfSome result (λ s. status_code s ≡ b) }
    ensures every { (s : Status) → status_code s ≡ b → result ≡ Some s }
{
    match b {
        0x00 => Some(Status::Good),
        0x02 => Some(Status::Check),
        0x08 => Some(Status::Busy),
        0x18 => Some(Status::Conflict),
        0x28 => Some(Status::QueueFull),
        _ => None,
    }
}

impl Status {
    /// The status byte.
    pub fn byte(self) -> u8
        ensures { result ≡ status_code self }
    {
        match self {
            Status::Good => 0x00,
            Status::Check => 0x02,
            Status::Busy => 0x08,
            Status::Conflict => 0x18,
            Status::QueueFull => 0x28,
        }
    }
}

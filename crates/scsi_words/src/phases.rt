//! Phases of the bus.

ghost use Rattle.scsi_words.specs.Phases.{phase_code};
ghost use Rattle.std.specs.Prelude.{◌≡◌, IfSome};

pub mod kinds;

use crate::phase_codes;
use kinds::Phase;

/// The phase with this code, and `None` exactly where no phase has it: for 4, 5 and all from 8 on.
pub fn phase(code: u8) -> Option<Phase>
    ensures read { IfSome result (λ p. phase_code p ≡ code) }
    ensures every { (p : Phase) → phase_code p ≡ code → result ≡ Some p }
{
    match code {
        phase_codes::DATA_OUT => Some(Phase::DataOut),
        phase_codes::DATA_IN => Some(Phase::DataIn),
        phase_codes::COMMAND => Some(Phase::Command),
        phase_codes::STATUS => Some(Phase::Status),
        phase_codes::MSG_OUT => Some(Phase::MsgOut),
        phase_codes::MSG_IN => Some(Phase::MsgIn),
        _ => None,
    }
}

impl Phase {
    /// The code of the phase, 0 to 7: 4 where MSG is asserted, 2 where C/D is and 1 where I/O is.
    pub fn code(self) -> u8
        ensures { result ≡ phase_code self }
    {
        match self {
            Phase::DataOut => phase_codes::DATA_OUT,
            Phase::DataIn => phase_codes::DATA_IN,
            Phase::Command => phase_codes::COMMAND,
            Phase::Status => phase_codes::STATUS,
            Phase::MsgOut => phase_codes::MSG_OUT,
            Phase::MsgIn => phase_codes::MSG_IN,
        }
    }
}

//! What a word chooses.

ghost use Rattle.std.specs.Prelude.{◌≡◌};
ghost use Rattle.target_law.specs.RoguePhases.{rogue_chosen, count, byte};

use target_law::RoguePhase;

/// What the target shows by a word, `None` where it frees the bus. Bits 30 to 28 choose: DATA_IN, DATA_OUT,
/// COMMAND, STATUS, bus free, MSG_OUT, and for 6 and 7 MSG_IN. A data phase has 1 + word mod 65,536 bytes, and
/// a byte that is sent is word mod 256.
#[tactic(auto, unfolding(target_law::specs::RoguePhases::rogue_chosen))]
pub fn chosen(word: u32) -> Option<RoguePhase>
    ensures { result ≡ rogue_chosen word }
{
    let left = 1 + word % 65_536;
    let byte = (word % 256) as u8;
    match word / 0x1000_0000 % 8 {
        0 => Some(RoguePhase::DataIn { left, byte }),
        1 => Some(RoguePhase::DataOut { left }),
        2 => Some(RoguePhase::Command { left: None }),
        3 => Some(RoguePhase::Status { byte }),
        4 => None,
        5 => Some(RoguePhase::MessageOut),
        _ => Some(RoguePhase::MessageIn { byte, sent: false }),
    }
}

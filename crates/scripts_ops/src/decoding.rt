//! Words to instructions.
ghost use Rattle.std.specs.Prelude.{◌≡◌, ℕ, IfSome, IsNone, IsTrue, ◌↔◌};
ghost use Rattle.scripts_ops.specs.Table.{Spelled};
ghost use Rattle.scripts_ops.specs.declared.values.Op.{Op};

use crate::encoding::encode;
use crate::fields::has_fields;
use crate::guessing::guess;
use crate::values::Op;

/// Whether these words spell the instruction.
fn spells(op: &Op, first: u32, second: u32, third: u32) -> bool
    ensures { IsTrue result ↔ Spelled first second third op.now }
{
    if !has_fields(op) {
        return false;
    }
    let spelling = encode(op);
    if spelling.words[0] != first || spelling.words[1] != second {
        return false;
    }
    spelling.length == 2 || spelling.words[2] == third
}

/// The instruction that words spell, by its row of the table; None exactly where no row spells them. `w2` counts
/// for MOVE MEMORY alone. Takes no memory.
///
/// It guesses the row by the top byte, and then spells the guess back, so that a bit that no row names is refused.
#[tactic(auto, using(crate::proofs::OneRow::guess_of_spelled))]
pub fn decode(w0: u32, w1: u32, w2: u32) -> Option<Op>
    ensures found { IfSome result (Spelled w0 w1 w2) }
    // no words spell two instructions, and the words that `encode` gives lead back to theirs
    ensures only { (op : Op) → Spelled w0 w1 w2 op → result ≡ Some op }
    ensures none { IsNone result → (op : Op) → Spelled w0 w1 w2 op → ⊥ }
{
    let op = guess((w0 / 0x100_0000) as u8, w0 % 0x100_0000, w1, w2)?;
    if spells(&op, w0, w1, w2) {
        Some(op)
    } else {
        None
    }
}

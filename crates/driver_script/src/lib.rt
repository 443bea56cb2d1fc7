//! The driver script: the program that the chip runs from address 0 on, in two versions. Version 1 uses the tags
//! that are multiples of 4, version 2 every tag.
#![tactic(auto)]

ghost use Rattle.std.specs.Prelude.{◌≡◌, ◌<◌, length, slice_index_or};
ghost use Rattle.scripts_ops.specs.declared.values.Op.TheVariants.{Nop};
ghost use Rattle.driver_script.specs.declared.script.TheConstants.{SCRIPT};
ghost use Rattle.bench_words.specs.Memory.{word_at};
ghost use Rattle.bench_words.specs.Views.{WroteWithin};
ghost use Rattle.driver_script.specs.Printed.{printed_word};
ghost use Rattle.driver_script.specs.Script.{IsVersion, instruction, image, laid, IsLoaded};

mod labels;
mod laws;
mod script;
#[cfg(test)]
mod tests;

use bench_words::Words;
pub use labels::{Name, label};
pub use laws::{data_moves, script_is_spelled};
use script::SCRIPT;
use scripts_ops::{Condition, Op, encode};

/// The number of instructions, of two words each.
pub const INSTRUCTIONS: u32 = 151;
/// The number of words.
pub const SCRIPT_WORDS: u32 = 2 * INSTRUCTIONS;

/// Instruction `k` of version 1, below 151.
fn first_version(k: u32) -> Op
    requires { k < 151 }
    ensures { result ≡ slice_index_or SCRIPT k Nop }
{
    SCRIPT[k as usize]
}

/// Instruction `k` of the script, which lies at the address 8 * `k`. `k` is below 151, `version` is 1 or 2.
#[tactic(auto, unfolding(crate::specs::Script::instruction))]
pub fn instruction(k: u32, version: u8) -> Op
    requires inside { k < 151 }
    requires version { IsVersion version }
    ensures { result ≡ instruction k version }
{
    if k == 0x31 && version == 2 {
        Op::Jump {
            on: Condition::Always,
            address: 0x460,
        }
    } else {
        first_version(k)
    }
}

/// Word `n` of the script, as it is printed, which lies at the address 4 * `n`. `n` is below 302, `version` is 1 or 2.
#[tactic(auto, using(crate::proofs::ScriptLaws::instruction_fields))]
pub fn image(n: u32, version: u8) -> u32
    requires inside { n < 302 }
    requires version { IsVersion version }
    ensures word { result ≡ image n version }
    ensures printed { result ≡ printed_word n version }
{
    let op = instruction(n / 2, version);
    encode(&op).words[(n % 2) as usize]
}

/// Writes the script at 0. Memory has 4 MiB, `version` is 1 or 2. All else stays.
pub fn load(words: &mut Words, version: u8)
    requires memory { length words.old ≡ 0x400000 }
    requires version { IsVersion version }
    ensures wrote { words.new ≡ laid words.old version 302 }
    ensures loaded { IsLoaded (word_at words.new) version }
    ensures within { WroteWithin (word_at words.old) (word_at words.new) 0 0x4B8 }
    ensures size { length words.new ≡ length words.old }
{
    for n in 0..SCRIPT_WORDS {
        words.set(4 * n, image(n, version));
    }
}

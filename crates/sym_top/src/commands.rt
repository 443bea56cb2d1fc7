//! The words of the command line, as a command.
ghost use Rattle.std.specs.Prelude.{◌≡◌, ◌≤◌, ◌↔◌, ℕ, List, [], ◌∷◌, IfSome, IsNone, IsTrue, codes};
ghost use Rattle.sym_top.specs.Asked.{asked};
ghost use Rattle.sym_top.specs.CommandLine.{Command as Asked, Spells, load as Loading, step as Stepping};

use crate::load_numbers::LoadNumbers;
use crate::numbers::number;
use scsi_words::Text;

/// A command with its words read.
#[derive(Clone, Copy)]
pub enum Command<'a> {
    /// `one LBA`: one READ(10) of the block at this address.
    One {
        lba: u32,
    },
    /// `asm FILE OUT`: the source `file` is assembled, and its image stored as `out`.
    Asm {
        file: &'a str,
        out: &'a str,
    },
    /// `list FILE`: the listing of an image.
    List {
        file: &'a str,
    },
    /// `step RIG WORK SEED TRACE`: the serial run of the seed, whose trace is stored as `trace`.
    Step {
        rig: &'a str,
        work: &'a str,
        seed: u32,
        trace: &'a str,
    },
    /// `replay RIG WORK TRACE`: the steps of a trace, made again.
    Replay {
        rig: &'a str,
        work: &'a str,
        trace: &'a str,
    },
    /// `load N SEED`: the serial run of the seed over generated work.
    Load {
        numbers: LoadNumbers,
    },
}

/// Whether a word is this text.
pub(crate) fn is_word(word: &Text, text: &str) -> bool
    ensures { IsTrue result ↔ (word.now ≡ text.now) }
{
    word.as_str() == text
}

/// The command with this name and one word behind it; None exactly where there is none.
fn with_one_word<'a>(name: &Text, word: &'a Text) -> Option<Command<'a>>
    ensures found { IfSome result (λ c. Spells (name.now ∷ word.now ∷ []) (asked c)) }
    ensures none { IsNone result → (c : Asked) → Spells (name.now ∷ word.now ∷ []) c → ⊥ }
{
    if is_word(name, "one") {
        let lba = number(word.as_str())?;
        return Some(Command::One { lba });
    }
    if is_word(name, "list") {
        return Some(Command::List {
            file: word.as_str(),
        });
    }
    None
}

/// The numbers of `load`; None exactly where a word spells none, or the first exceeds 2,000.
fn load_numbers(first: &Text, second: &Text) -> Option<LoadNumbers>
    ensures found { IfSome result (λ l. Spells (codes "load" ∷ first.now ∷ second.now ∷ []) (Loading l.count l.seed)) }
    ensures none { IsNone result → (count seed : ℕ) → Spells (codes "load" ∷ first.now ∷ second.now ∷ []) (Loading count seed) → ⊥ }
{
    let count = number(first.as_str())?;
    let seed = number(second.as_str())?;
    if count > 2000 {
        return None;
    }
    Some(LoadNumbers { count, seed })
}

/// The command with this name and two words behind it; None exactly where there is none.
fn with_two_words<'a>(name: &Text, first: &'a Text, second: &'a Text) -> Option<Command<'a>>
    ensures found { IfSome result (λ c. Spells (name.now ∷ first.now ∷ second.now ∷ []) (asked c)) }
    ensures none { IsNone result → (c : Asked) → Spells (name.now ∷ first.now ∷ second.now ∷ []) c → ⊥ }
{
    if is_word(name, "asm") {
        return Some(Command::Asm {
            file: first.as_str(),
            out: second.as_str(),
        });
    }
    if is_word(name, "load") {
        let numbers = load_numbers(first, second)?;
        return Some(Command::Load { numbers });
    }
    None
}

/// The command with this name and three words behind it; None exactly where there is none.
fn with_three_words<'a>(
    name: &Text,
    first: &'a Text,
    second: &'a Text,
    third: &'a Text,
) -> Option<Command<'a>>
    ensures found { IfSome result (λ c. Spells (name.now ∷ first.now ∷ second.now ∷ third.now ∷ []) (asked c)) }
    ensures none { IsNone result → (c : Asked) → Spells (name.now ∷ first.now ∷ second.now ∷ third.now ∷ []) c → ⊥ }
{
    if is_word(name, "replay") {
        return Some(Command::Replay {
            rig: first.as_str(),
            work: second.as_str(),
            trace: third.as_str(),
        });
    }
    None
}

/// The command `step` of four words; None exactly where the third spells no number.
fn step_of<'a>(rig: &'a Text, work: &'a Text, seed: &Text, trace: &'a Text) -> Option<Command<'a>>
    ensures found { IfSome result (λ c. Spells (codes "step" ∷ rig.now ∷ work.now ∷ seed.now ∷ trace.now ∷ []) (asked c)) }
    ensures none { IsNone result → (r w : List ℕ) (n : ℕ) (t : List ℕ) → Spells (codes "step" ∷ rig.now ∷ work.now ∷ seed.now ∷ trace.now ∷ []) (Stepping r w n t) → ⊥ }
{
    let seed = number(seed.as_str())?;
    Some(Command::Step {
        rig: rig.as_str(),
        work: work.as_str(),
        seed,
        trace: trace.as_str(),
    })
}

/// The command with this name and four words behind it; None exactly where there is none.
fn with_four_words<'a>(
    name: &Text,
    first: &'a Text,
    second: &'a Text,
    third: &'a Text,
    fourth: &'a Text,
) -> Option<Command<'a>>
    ensures found { IfSome result (λ c. Spells (name.now ∷ first.now ∷ second.now ∷ third.now ∷ fourth.now ∷ []) (asked c)) }
    ensures none { IsNone result → (c : Asked) → Spells (name.now ∷ first.now ∷ second.now ∷ third.now ∷ fourth.now ∷ []) c → ⊥ }
{
    if is_word(name, "step") {
        return step_of(first, second, third, fourth);
    }
    None
}

/// The command that words spell; None exactly where they spell none.
pub fn command_of(words: &[Text]) -> Option<Command<'_>>
    ensures found { IfSome result (λ c. Spells words.now (asked c)) }
    ensures none { IsNone result → (c : Asked) → Spells words.now c → ⊥ }
{
    match words {
        [name, word] => with_one_word(name, word),
        [name, first, second] => with_two_words(name, first, second),
        [name, first, second, third] => with_three_words(name, first, second, third),
        [name, first, second, third, fourth] => with_four_words(name, first, second, third, fourth),
        _ => None,
    }
}

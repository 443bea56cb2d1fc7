//! The words of the command `run`.
ghost use Rattle.std.specs.Prelude.{◌∷◌, [], IfSome, IsNone, codes};
ghost use Rattle.sym_top.specs.RunAsked.{run_asked};
ghost use Rattle.sym_top.specs.Running.{RunWords, SpellsRun};

use crate::commands::is_word;
use crate::numbers::number;
use scsi_words::Text;

/// `run RIG WORK SEED TRACE`: a run of all callers beside each other, whose trace is stored as `trace`.
#[derive(Clone, Copy)]
pub struct RunCommand<'a> {
    pub rig: &'a str,
    pub work: &'a str,
    pub seed: u32,
    pub trace: &'a str,
}

/// The command of the four words behind its name; None exactly where the third spells no number.
fn with_seed<'a>(
    rig: &'a Text,
    work: &'a Text,
    seed: &Text,
    trace: &'a Text,
) -> Option<RunCommand<'a>>
    ensures found { IfSome result (λ c. SpellsRun (codes "run" ∷ rig.now ∷ work.now ∷ seed.now ∷ trace.now ∷ []) (run_asked c)) }
    ensures none { IsNone result → (a : RunWords) → SpellsRun (codes "run" ∷ rig.now ∷ work.now ∷ seed.now ∷ trace.now ∷ []) a → ⊥ }
{
    let seed = number(seed.as_str())?;
    Some(RunCommand {
        rig: rig.as_str(),
        work: work.as_str(),
        seed,
        trace: trace.as_str(),
    })
}

/// The command with this name and the four words behind it; None exactly where they are none.
fn with_name<'a>(
    name: &Text,
    rig: &'a Text,
    work: &'a Text,
    seed: &Text,
    trace: &'a Text,
) -> Option<RunCommand<'a>>
    ensures found { IfSome result (λ c. SpellsRun (name.now ∷ rig.now ∷ work.now ∷ seed.now ∷ trace.now ∷ []) (run_asked c)) }
    ensures none { IsNone result → (a : RunWords) → SpellsRun (name.now ∷ rig.now ∷ work.now ∷ seed.now ∷ trace.now ∷ []) a → ⊥ }
{
    if is_word(name, "run") {
        return with_seed(rig, work, seed, trace);
    }
    None
}

/// The command `run` that words spell; None exactly where they spell none.
pub fn run_of(words: &[Text]) -> Option<RunCommand<'_>>
    ensures found { IfSome result (λ c. SpellsRun words.now (run_asked c)) }
    ensures none { IsNone result → (a : RunWords) → SpellsRun words.now a → ⊥ }
{
    match words {
        [name, rig, work, seed, trace] => with_name(name, rig, work, seed, trace),
        _ => None,
    }
}

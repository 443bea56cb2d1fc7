//! The linear congruential generator, with the constants of Numerical Recipes.

ghost use Rattle.std.specs.Prelude.{◌≡◌};
ghost use Rattle.run_law.specs.Serial.{eager, next_word};

/// The word after this one.
pub(crate) fn next_word(word: u32) -> u32
    ensures { result ≡ next_word word }
{
    ((1_664_525 * u64::from(word) + 1_013_904_223) % 0x1_0000_0000) as u32
}

/// The word with bit 31 set, by which a reselection comes wherever there is a candidate.
pub(crate) fn eager(word: u32) -> u32
    ensures { result ≡ eager word }
{
    if word < 0x8000_0000 {
        word + 0x8000_0000
    } else {
        word
    }
}

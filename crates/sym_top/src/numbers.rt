//! Numbers of the command line.
ghost use Rattle.std.specs.Prelude.{ℕ, IfSome, IsNone, IsTrue, ◌↔◌};
ghost use Rattle.sym_top.specs.CommandLine.{IsNumber, IsPlain};

/// Whether a word begins as a decimal number may: with no sign, and with 0 only alone.
fn is_plain(word: &[u8]) -> bool
    ensures { IsTrue result ↔ IsPlain word.now }
{
    match word {
        [] | [b'+', ..] => false,
        [b'0', rest @ ..] => rest.is_empty(),
        _ => true,
    }
}

/// The number below 2^32 that a word spells in decimal, without sign, blank or leading zeros;
/// None exactly where it spells none.
pub fn number(word: &str) -> Option<u32>
    ensures found { IfSome result (IsNumber word.now) }
    ensures none { IsNone result → (n : ℕ) → IsNumber word.now n → ⊥ }
{
    if !is_plain(word.as_bytes()) {
        return None;
    }
    word.parse::<u32>().ok()
}

//! What holds of every text. The function does nothing; its contract is the law.

ghost use Rattle.std.specs.Prelude.{ℕ, List};
ghost use Rattle.trace_text.specs.Laws.{OneReading};

/// A text is read in one way: it is the trace of one list of lines, or has one first line outside the grammar.
pub fn one_reading()
    ensures { (version : ℕ) (bytes : List ℕ) → OneReading version bytes }
{}

//! Laws of the script. Each function does nothing; its contract is the law.

ghost use Rattle.driver_script.specs.Laws.{KeepsScript, SpellsScript};
ghost use Rattle.driver_script.specs.Moves.{HasDataMoves};

/// Memory that holds the script spells instruction `k` at 8 * `k`, and goes on to hold it as long as the words of its
/// region stay.
pub fn script_is_spelled()
    ensures spells { SpellsScript }
    ensures keeps { KeepsScript }
{}

/// The script has 36 data moves: for data in and for data out those of 16 segments and of two contexts. No other
/// instruction moves data.
pub fn data_moves()
    ensures { HasDataMoves }
{}

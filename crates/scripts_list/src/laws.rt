//! What holds of every listing. Each function does nothing; its contract is the law.
ghost use Rattle.std.specs.Prelude.{ℕ, List};
ghost use Rattle.scripts_list.specs.Laws.{OneListing};
ghost use Rattle.scripts_list.specs.Listing.{ListsAll};
ghost use Rattle.scripts_list.specs.RoundTrip.{RoundTrip};

/// The text parts of a listing without `.word`, of at most 1,024 instructions, assemble to the same words.
pub fn assembles_again()
    ensures { RoundTrip }
{}

/// The words of instructions have one listing: a line for each instruction, with its text as the text part.
pub fn lists_all()
    ensures { ListsAll }
{}

/// Every list of words has exactly one listing, from each address on.
pub fn one_listing()
    ensures { (address : ℕ) (words : List ℕ) → OneListing address words }
{}

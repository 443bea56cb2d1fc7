//! Laws of memory at the opening. Each function does nothing; its contract is the law.

ghost use Rattle.opening_memory.specs.Laws.{Exists, IsWritten, KeepsConstants, KeepsFixedBlocks, SaysNames, WritesParts};

/// The words of memory at the opening by their names: script, chains, constants, fixed blocks, both rings and the tag
/// tables; all else is 0.
pub fn opening_says_names()
    ensures { SaysNames }
{}

/// Writing the table of the opening into empty memory makes memory at the opening, so there is one for each version of
/// the script and all units of a rig.
pub fn opening_is_written()
    ensures written { IsWritten }
    ensures exists { Exists }
    ensures parts { WritesParts }
{}

/// The constant words and the fixed blocks stay as they are where a write lies elsewhere.
pub fn constants_stay()
    ensures constants { KeepsConstants }
    ensures blocks { KeepsFixedBlocks }
{}

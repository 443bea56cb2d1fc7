//! The law of the data moves. The function does nothing; its contract is the law.

ghost use Rattle.phase_fix.specs.InScript.{FindsMoves, MissesNone};

/// The data moves are those of the script, in both versions: where there is one, the script has MOVE FROM its entry,
/// WHEN its phase, and elsewhere no instruction that moves bytes in a data phase.
pub fn moves_of_script()
    ensures found { FindsMoves }
    ensures all { MissesNone }
{}

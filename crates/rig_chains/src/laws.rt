//! Laws of the chains. Each function does nothing; its contract is the law.

ghost use Rattle.rig_chains.specs.Finding.{FindsItself, FindsLuns, FindsTargets, LeavesOutSeven};
ghost use Rattle.rig_chains.specs.Keeping.{KeepsChains};

/// The chains lead each target below 8 and each LUN below 8 to the unit that has them, or stop the chip with the vector
/// of an unknown one. In a rig, a unit's target and LUN lead to this unit, and target 7 has none.
pub fn units_are_found()
    ensures targets { FindsTargets }
    ensures seven { LeavesOutSeven }
    ensures luns { FindsLuns }
    ensures itself { FindsItself }
{}

/// Memory holds the chains of a rig as long as their region's words stay.
pub fn chains_stay()
    ensures { KeepsChains }
{}

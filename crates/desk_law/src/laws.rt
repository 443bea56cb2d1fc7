//! Laws of the desk. Each function does nothing; its contract is the law.

ghost use Rattle.desk_law.specs.Laws.{RefusesOnce, RefusesOrBuilds, BuildsOnce, FreesOnce};

/// A request is refused for one reason, and one that is refused isn't built.
pub fn refusals_are_one()
    ensures one_reason { RefusesOnce }
    ensures not_built { RefusesOrBuilds }
{}

/// An accepted request makes one ticket, one desk and one memory, and a ticket that is freed leaves one desk.
pub fn calls_are_one()
    ensures builds { BuildsOnce }
    ensures frees { FreesOnce }
{}

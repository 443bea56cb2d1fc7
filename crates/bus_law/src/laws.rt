//! Laws of the bus. Each function does nothing; its contract is the law.

ghost use Rattle.bus_law.specs.Laws.{KeepsTheLaws, AnswersOnce, StepsOnce, ConnectsSo, OpensConnected, StaysConnected, ResetsConnected};

/// Each call keeps the laws of a bus.
pub fn bus_is_lawful()
    ensures { KeepsTheLaws }
{}

/// A call with one word has one answer, and leaves one bus; so a step of the chip has one end.
pub fn answers_are_one()
    ensures calls { AnswersOnce }
    ensures steps { StepsOnce }
{}

/// A selection connects its target, a reselection the one that comes, and every other call leaves it so or frees the
/// bus.
pub fn connects_one()
    ensures { ConnectsSo }
{}

/// At most one device isn't free, and it is the connected one: at the opening, after each call, and after a bus reset.
pub fn one_connected()
    ensures opens { OpensConnected }
    ensures stays { StaysConnected }
    ensures resets { ResetsConnected }
{}

//! Laws of the bus. Each function does nothing; its contract is the law.

ghost use Rattle.chip_step.specs.Event.{Event};
ghost use Rattle.chip_step.specs.Laws.{IsLawful};
ghost use Rattle.one_target.specs.Bus.{BusState, moves, signals_of};
ghost use Rattle.one_target.specs.Holding.{IsHeld};
ghost use Rattle.one_target.specs.Reading.{Checks, Reads};
ghost use Rattle.one_target.specs.Reporting.{Reported};

/// Each move of the bus keeps the laws of a bus.
pub fn bus_is_lawful()
    ensures { (old : BusState) → (event : Event) → (new : BusState) → moves old event new → IsLawful signals_of old event new }
{}

/// From the opening the bus has one answer to each call of a READ(10) of one block: the block's bytes with GOOD, or
/// for an address past the unit's end CHECK CONDITION and no data. The unit is then as it is after this command alone.
pub fn read_has_one_answer()
    ensures reads { Reads }
    ensures checks { Checks }
{}

/// Whatever steps the straight script makes from an opened bus, it ends with INT 7, and the report that host memory
/// then holds fits the unit's log.
pub fn report_fits_the_log()
    ensures { Reported }
{}

/// Each move of the bus of `one` keeps what holds of it between its calls: its one unit stays alone, no other is ever
/// connected, the log lies within its room, and ACK is asserted only while a message byte waits for it.
pub fn bus_stays_held()
    ensures { (old : BusState) → (event : Event) → (new : BusState) → moves old event new → IsHeld old → IsHeld new }
{}

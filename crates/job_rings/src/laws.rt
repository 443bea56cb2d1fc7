//! Laws of the rings. Each function does nothing; its contract is the law.

ghost use Rattle.host_map.specs.declared.TheConstants.{DONE_RING, START_RING};
ghost use Rattle.host_map.specs.Places.{done_slot, start_slot};
ghost use Rattle.job_rings.specs.Rings.{CountsSlots, StartsInRing};

/// The slots of both rings have numbers, and the slot behind a slot is that of the next number.
pub fn slots_are_counted()
    ensures start { CountsSlots START_RING start_slot }
    ensures done { CountsSlots DONE_RING done_slot }
{}

/// A block that is started changes words of the start ring alone.
pub fn starts_stay_in_ring()
    ensures { StartsInRing }
{}

//! Laws of the invariant. Each function does nothing; its contract is the law.

ghost use Rattle.word_owners.specs.Additions.{AddHolds};
ghost use Rattle.word_owners.specs.BenchSteps.{BenchStepsHold};
ghost use Rattle.word_owners.specs.Readings.{RingsAreRead};
ghost use Rattle.word_owners.specs.Worlds.{WordsAreOwned};
ghost use Rattle.word_owners.specs.Laws.{FixHolds, FreeHolds, HoldsOpened, JobHolds, LinkHolds, MarkHolds, QueueHolds, ResetHolds, RestartHolds, SenseHolds, SignalHolds, SweepHolds, TakeHolds, UnlinkHolds};

/// The invariant holds at the opening of a bench of at most 16 units: the chip stands at START, both rings are empty and
/// there is no ticket.
pub fn opening_holds()
    ensures { HoldsOpened }
{}

/// Signal, Link and Unlink keep the invariant, wherever the chip is or stands in a stop.
pub fn links_hold()
    ensures signal { SignalHolds }
    ensures link { LinkHolds }
    ensures unlink { UnlinkHolds }
{}

/// An abort that isn't late keeps the invariant, wherever the chip is or stands in a stop.
pub fn aborts_hold()
    ensures { MarkHolds }
{}

/// A device reset that goes to FRONT keeps the invariant, wherever the chip is or stands in a stop.
pub fn device_resets_hold()
    ensures { JobHolds }
{}

/// The reset of the bus, while the chip runs or stands in a stop that asks for it, keeps the invariant: the chip goes on
/// where it was in the tail of the script, else at START.
pub fn resets_hold()
    ensures { ResetHolds }
{}

/// Restart keeps the invariant: the chip goes on at DISPATCH after a repaired data move, at NOTARGET after a selection
/// that timed out, and after a reset where that left it.
pub fn restarts_hold()
    ensures { RestartHolds }
{}

/// The sweep of a ticket that is to be swept keeps the invariant: it stands in neither ring nor at FRONT, and the chip
/// doesn't go on with it.
pub fn sweeps_hold()
    ensures { SweepHolds }
{}

/// Queue of a Linked ticket, or of one that is to be queued again, keeps the invariant, wherever the chip is or stands in
/// a stop: the ticket is the last one of the start ring.
pub fn queues_hold()
    ensures { QueueHolds }
{}

/// TakeDone of the ticket in the done slot, which the script has ended, keeps the invariant, wherever the chip is or
/// stands in a stop: the slot is idle again, and no other ticket was in it.
pub fn takes_hold()
    ensures { TakeHolds }
{}

/// Fix keeps the invariant: where a data move was broken off, it is repaired and the chip stands ready to go on at
/// DISPATCH; where another instruction was, the bus is to be reset.
pub fn fixes_hold()
    ensures { FixHolds }
{}

/// Free of an Unlinked ticket keeps the invariant, wherever the chip is or stands in a stop.
pub fn frees_hold()
    ensures { FreeHolds }
{}

/// Sense of a ticket in Check keeps the invariant, while the chip runs and FRONT is idle: its block is a REQUEST SENSE
/// whose data pointers denote its sense area, and FRONT has it.
pub fn senses_hold()
    ensures { SenseHolds }
{}

/// Where the invariant holds at some spot, it holds at one after each step of the bench but Build that is enabled, and each
/// unit's target still answers selections exactly where the unit isn't absent: after the driver's steps, and after that of
/// the chip for every answer of the bus.
pub fn bench_steps_hold()
    ensures { BenchStepsHold }
{}

/// Wherever the invariant holds, RINGP is a start slot, and a done slot that isn't idle has a ticket to take.
pub fn rings_are_read()
    ensures { RingsAreRead }
{}

/// The invariant holds on, wherever the chip is or stands in a stop, where the desk has one ticket more whose block was
/// built: every other ticket and all memory beside the block and the buffer region are as before.
pub fn tickets_are_added()
    ensures { AddHolds }
{}

/// Who owns each word: the invariant holds in every world of every run, whatever the rig and the work, with units that break
/// the rules, aborts and resets, for every word by which a target chooses; and each unit's target answers selections
/// exactly where the unit isn't absent. The commands of the work are of bytes.
pub fn words_are_owned()
    ensures { WordsAreOwned }
{}

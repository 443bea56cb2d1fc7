//! Laws of every world of every run. Each function does nothing; its contract is the law.

ghost use Rattle.word_owners.specs.Footprints.{ScriptWritesOnly};
ghost use Rattle.word_owners.specs.NeverFails.{TestsNeverFail};
ghost use Rattle.word_owners.specs.Touches.{DataAreMoved};
ghost use Rattle.word_owners.specs.Vectors.{VectorsAreTold};
ghost use Rattle.word_owners.specs.Wake.{RunsWake};
ghost use Rattle.word_owners.specs.Worlds.{DepthsAreKept};

/// The wake rule, in every world of every run over a rig, with units that break the rules, aborts and resets: where FRONT
/// isn't idle, or the start slot at RINGP isn't, a signal is due of some caller, or SIGP is set, or the chip stands in a
/// stop, or it still reads that word before it rests at WAIT RESELECT.
pub fn wake()
    ensures { RunsWake }
{}

/// None of the driver's tests ever fails, in every world of every run: RINGP is a start slot, a done slot that isn't idle has
/// a ticket to take, and after a phase mismatch Fix finds nothing to repair exactly where no data move was broken off. And
/// each patch finds what it rests on: a command block, the tag entry as it should be, a start slot with room behind it, and
/// for Sweep a ticket that waits neither in the start ring nor at FRONT.
pub fn tests_never_fail()
    ensures { TestsNeverFail }
{}

/// The footprint of the script, in every world of every run: a step of a chip that runs changes only the words FRONT, RINGP,
/// DONEP and CUR, the byte MSGIN, the done slot that DONEP names, which is idle, and of the block at DSA of a ticket with the chip its
/// LASTP, SAVEP, STATE, GATE and the byte of STATUS; or, at a data move, bytes of what that ticket moves, while its unit's
/// target is connected.
pub fn script_writes_only()
    ensures { ScriptWritesOnly }
{}

/// The stops, in every world of every run: each stop stage has the causes that it is for. A step that INT stops has a vector
/// from 1 to 0x0A, never 7, and 6 exactly at OVER, where DSA is the block of a ticket that is with the chip. The chip comes to
/// OVER only by DATA's RETURN while the data pointer in TEMP is OVER: its target has shown a data phase though the pointer
/// denotes no byte.
pub fn vectors_are_told()
    ensures { VectorsAreTold }
{}

/// Whatever a step of a chip that runs reads or writes of the buffer region and of sense areas is moved by one of the 36 data
/// moves, in every world of every run: DSA is the block of a live ticket, the byte is one of its buffer, or of the sense area of
/// its block from its Sense step on, and no other target than that of its unit is connected.
pub fn data_are_moved()
    ensures { DataAreMoved }
{}

/// In every world of every run at most as many tickets of a unit live as its depth says, and each live ticket's buffer lies in
/// chunks of the buffer region that no other live ticket has.
pub fn depths_are_kept()
    ensures { DepthsAreKept }
{}

//! Laws of the chip's steps that ask the bus. Each function does nothing; its contract is the law.

ghost use Rattle.word_owners.specs.BufferRuns.{RunsKeepBuffers};
ghost use Rattle.word_owners.specs.BufferWrites.{OnlyDataMovesWrite};
ghost use Rattle.word_owners.specs.Buffers.{BuffersApart, DataStayInBuffers, PointersStayInBuffers};
ghost use Rattle.word_owners.specs.Answering.{AnsweringOpens, AnsweringStays};
ghost use Rattle.word_owners.specs.DataMoves.{DataMovesHold};
ghost use Rattle.word_owners.specs.Steps.{ChipStepsHold};
ghost use Rattle.word_owners.specs.StopCauses.{StopsAreHandled};

/// At each of the 36 data moves a step of the chip keeps the invariant, whatever the bus answers: the chip goes on behind
/// the move, or it was broken off with bytes left, or the bus was free and is to be reset. Both data pointers of the block
/// still denote suffixes of what its ticket moves.
pub fn data_moves_hold()
    ensures { DataMovesHold }
{}

/// Wherever the invariant holds, LASTP and SAVEP of each live ticket denote a suffix of its buffer, and of the sense area
/// of its block from its Sense step on, in its direction and through entries none of which is empty.
pub fn pointers_stay_in_buffers()
    ensures { PointersStayInBuffers }
{}

/// Of the steps of the chip only those at data moves change a byte of the buffer region. A step at a data move changes a
/// byte only where its ticket has it in its buffer, or in the sense area of its block from its Sense step on, and only
/// while the target of the ticket's unit is connected; DSA is the block of that live ticket, and all that the move's entry
/// names is the ticket's. Two live tickets share no byte.
pub fn data_stay_in_buffers()
    ensures moves { DataStayInBuffers }
    ensures only { OnlyDataMovesWrite }
    ensures apart { BuffersApart }
{}

/// A step of the chip leaves it so that each unit's target answers selections exactly where the unit isn't absent.
pub fn answering_stays()
    ensures { AnsweringStays }
{}

/// A step of the chip at each point of the script and of the chains leads to a spot that may follow it, where the invariant
/// holds, for every answer of the bus. Each unit's target is to answer selections exactly where the unit isn't absent: so
/// the selection for a sense never times out.
pub fn chip_steps_hold()
    ensures { ChipStepsHold }
{}

/// At the opening of a rig each unit's target answers selections exactly where the unit isn't absent.
pub fn answering_opens()
    ensures { AnsweringOpens }
{}

/// Wherever the invariant holds, a chip in no stop stage isn't stopped, and each stop stage has the causes that it is for: a
/// phase mismatch is to be repaired; tickets are to be swept after a repair, a selection that nobody answered, a reset or
/// the end of a device reset.
pub fn stops_are_handled()
    ensures { StopsAreHandled }
{}

/// In every world of every run over a rig, with units that break the rules, aborts and resets: both data pointers of each
/// live ticket denote a suffix of what it moves, two live tickets move no byte in common, and a step of the chip changes a
/// byte of the buffer region only by the data move of a live ticket, which changes bytes of that ticket alone.
pub fn runs_keep_buffers()
    ensures { RunsKeepBuffers }
{}

//! Laws of a step. Each function does nothing; its contract is the law, for every bus.

ghost use Rattle.chip_rows.specs.Answers.{HasOneAnswer, HasOneEnd};
ghost use Rattle.chip_rows.specs.Following.{Follows, StepsFollow};
ghost use Rattle.chip_rows.specs.Bytes.{StepsKeepBytes};
ghost use Rattle.chip_rows.specs.Words.{MovesWords, FindsWords, LoadsWords, StoresWords};
ghost use Rattle.chip_rows.specs.Reading.{ReadsWithin};
ghost use Rattle.chip_rows.specs.Leaving.{KeepsSize, WritesWithin, StaysWithin, NoRowWrites, StopsLeaveMemory, RunsOn, CountsDown};

use chip_step::Bus;

/// A relation between the states of two buses.
pub trait Relation<A, B> {
    ghost related: { A → B → Type 0 };
}

/// Where every call of a bus has one answer and one state after it, a step has one end and one state after it.
pub fn one_step<B: Bus>()
    ensures { HasOneAnswer B.moves → HasOneEnd B.moves }
{}

/// Where each call of one bus is a call of another, as a relation between their states tells, a step over the one is a
/// step over the other.
pub fn same_step<A: Bus, B: Bus, R: Relation<A, B>>()
    ensures { Follows A.moves B.moves R.related → StepsFollow A.moves B.moves R.related }
{}

/// Every byte of memory and of the registers stays below 256.
pub fn bytes_stay_bytes<B: Bus>()
    ensures { StepsKeepBytes B.moves }
{}

/// LOAD and STORE of four bytes of a wide register move one word, and find it absolutely or from DSA on.
pub fn moves_words<B: Bus>()
    ensures bytes { MovesWords }
    ensures finds { FindsWords }
    ensures load { LoadsWords B }
    ensures store { StoresWords B }
{}

/// A step keeps the size of memory. It changes bytes within what its instruction writes, which is a part of what this
/// touches, and none where no row spells the words at DSP.
pub fn writes_within<B: Bus>()
    ensures size { KeepsSize B.moves }
    ensures rows { WritesWithin B.moves }
    ensures touched { StaysWithin B.moves }
    ensures no_row { NoRowWrites B.moves }
{}

/// A step depends on no byte of memory but those of its instruction and those that this reads.
pub fn reads_within<B: Bus>()
    ensures { ReadsWithin B.moves }
{}

/// A step that stops for another cause than a phase mismatch leaves memory as it was.
pub fn stops_leave_memory<B: Bus>()
    ensures { StopsLeaveMemory B.moves }
{}

/// After a step that goes on the chip still runs.
pub fn step_runs_on<B: Bus>()
    ensures { RunsOn B.moves }
{}

/// What a block move leaves in DBC is at most its count, and DNAD is past the bytes that moved.
pub fn moves_count_down<B: Bus>()
    ensures { CountsDown B.moves }
{}

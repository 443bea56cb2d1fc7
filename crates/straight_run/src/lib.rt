//! The straight script: one READ(10) of one block, by ten instructions that only go forwards, over any bus.
#![tactic(auto)]

ghost use Rattle.std.specs.Prelude.{◌≡◌, ℕ, List, [], length, true, IfOk, OnErr, IsTrue};
ghost use Rattle.chip_regs.specs.Registers.{is_stopped};
ghost use Rattle.chip_step.specs.Chip.{state};
ghost use Rattle.straight_run.specs.Opening.{put_words, all_fit, laid, Opens};
ghost use Rattle.straight_run.specs.Reading.{Answers, GoesThrough, read_calls, status_calls};
ghost use Rattle.straight_run.specs.Steps.{Steps, FromOpening};

mod outcome;
#[cfg(test)]
mod tests;

use bench_words::Words;
use chip_regs::Regs;
use chip_step::{Bus, StepEnd, step};
use cmd_block::offsets;
use host_map::{BLOCKS, MSGIN};
pub use outcome::Straight;
use scsi_words::phase_codes::{COMMAND, DATA_IN, MSG_IN, MSG_OUT, STATUS};
use std::alloc::{AllocError, Global};

// The first words of the instructions that name a phase, and of a selection by a table's entry.
macro_rules! move_bytes {
    ($count:expr, $phase:expr) => {
        0x0800_0000 + $phase as u32 * 0x100_0000 + $count
    };
}

macro_rules! move_from {
    ($phase:expr) => {
        0x1800_0000 + $phase as u32 * 0x100_0000
    };
}

macro_rules! jump_when_not {
    ($phase:expr) => {
        0x8003_0000 + $phase as u32 * 0x100_0000
    };
}

macro_rules! select_from {
    ($offset:expr) => {
        0x4300_0000 + $offset as u32
    };
}

/// The script and the block without its CDB, as words under their addresses.
const TABLE: [(u32, u32); 35] = [
    // SELECT ATN FROM SEL, 0x48
    (0x00, select_from!(offsets::SEL)),
    (0x04, 0x48),
    // MOVE FROM MSG, WHEN MSG_OUT
    (0x08, move_from!(MSG_OUT)),
    (0x0c, offsets::MSG as u32),
    // MOVE FROM CMD, WHEN COMMAND
    (0x10, move_from!(COMMAND)),
    (0x14, offsets::CMD as u32),
    // JUMP 0x28, WHEN NOT DATA_IN
    (0x18, jump_when_not!(DATA_IN)),
    (0x1c, 0x28),
    // MOVE FROM SEGMENT_0, WHEN DATA_IN
    (0x20, move_from!(DATA_IN)),
    (0x24, offsets::SEGMENT_0 as u32),
    // MOVE FROM STAT, WHEN STATUS
    (0x28, move_from!(STATUS)),
    (0x2c, offsets::STAT as u32),
    // MOVE 1, MSGIN, WHEN MSG_IN
    (0x30, move_bytes!(1, MSG_IN)),
    (0x34, MSGIN),
    // CLEAR ACK
    (0x38, 0x6000_0040),
    (0x3c, 0),
    // WAIT DISCONNECT
    (0x40, 0x4800_0000),
    (0x44, 0),
    // INT 7
    (0x48, 0x9808_0000),
    (0x4c, 7),
    // START, RESTART, LASTP, SAVEP, STATUS, GATE
    (0x1_0000, 0x60),
    (0x1_0004, 0x128),
    (0x1_0008, 0x338),
    (0x1_000c, 0x338),
    (0x1_0014, 0xff),
    (0x1_001c, 0x1c0),
    // MSG, CMD and STAT, count and address
    (0x1_0020, 3),
    (0x1_0024, 0x1_00e0),
    (0x1_0028, 10),
    (0x1_002c, 0x1_00f0),
    (0x1_0030, 1),
    (0x1_0034, 0x1_0014),
    // segment 0
    (0x1_0040, 0x200),
    (0x1_0044, 0x20_0000),
    // IDENTIFY, SIMPLE QUEUE TAG 0
    (0x1_00e0, 0x20c0),
];

fn lay_words(words: &mut Words, pairs: &[(u32, u32)])
    requires { IsTrue (all_fit (length words.old) pairs.now) }
    ensures laid { words.new ≡ put_words words.old pairs.now }
    ensures size { length words.new ≡ length words.old }
{
    for (address, word) in pairs {
        words.set(*address, *word);
    }
}

// Lays the script and the block, with the CDB of a READ(10) of one block.
fn lay(words: &mut Words, lba: u32)
    requires { length words.old ≡ 4194304 }
    ensures { words.new ≡ laid lba words.old }
{
    lay_words(words, &TABLE);
    let [b3, b2, b1, b0] = lba.to_be_bytes();
    words.copy_in(0x1_00f0, &[0x28, 0, b3, b2, b1, b0, 0, 0, 1, 0]);
}

// Steps from the opening, up to the first stop. The script only goes forwards, so these are at most ten.
fn run<B: Bus>(words: &mut Words, regs: &mut Regs, bus: &mut B)
    requires { (lba : ℕ) × Opens {B = B} lba (state words.old regs.old bus.old) }
    ensures { Steps B.moves (state words.old regs.old bus.old) (state words.new regs.new bus.new) }
{
    for i in 0..10u32 {
        match step(words, regs, bus, 0) {
            StepEnd::Stopped(_) => return,
            StepEnd::Ran => {}
            StepEnd::Idle => unreachable!(),
        }
    }
    unreachable!()
}

/// Runs a READ(10) of the one block at `lba` by the straight script: lays 4 MiB of memory and the registers, and
/// steps the chip with the word 0 over this bus until it is stopped, after at most ten steps.
///
/// Over a bus that answers the calls of a read, the data lies at 0x200000 and the status at 0x10014 afterwards, and the
/// cause is vector 7; likewise where the target sends no data and a status alone.
///
/// Its one error is want of memory, which leaves the bus as before.
pub fn straight<B: Bus>(alloc: Global, bus: &mut B, lba: u32) -> Result<Straight, AllocError>
    ensures ran { IfOk result (λ s. FromOpening B.moves lba bus.old (state s.words s.regs bus.new)) }
    ensures stopped { IfOk result (λ s. is_stopped s.regs ≡ true) }
    ensures read { IfOk result (λ s. (bytes : List ℕ) → (status : ℕ) → length bytes ≡ 512
        → Answers B.moves (read_calls lba bytes status) (λ _. Unit {0}) bus.old
        → GoesThrough lba bytes status (λ _. Unit {0}) (state s.words s.regs bus.new)) }
    ensures status { IfOk result (λ s. (status : ℕ) → Answers B.moves (status_calls lba status) (λ _. Unit {0}) bus.old
        → GoesThrough lba [] status (λ _. Unit {0}) (state s.words s.regs bus.new)) }
    ensures err { OnErr result (bus.new ≡ bus.old) }
{
    let mut words = Words::new(alloc, 0x10_0000)?;
    lay(&mut words, lba);
    let mut regs = Regs::new();
    regs.dsa = BLOCKS;
    run(&mut words, &mut regs, bus);
    Ok(Straight { words, regs })
}

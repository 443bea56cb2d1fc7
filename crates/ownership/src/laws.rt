//! Laws of the script's steps. Each function does nothing; its contract is the law, for every bus.

ghost use Rattle.ownership.specs.Control.{ChangesControl, ReadsControl};
ghost use Rattle.ownership.specs.Start.{EntersFront, EntersRing};
ghost use Rattle.ownership.specs.Steps.{Follows, IsRow, IsStep, WritesOnly};
ghost use Rattle.ownership.specs.Transfers.{Interrupts, JumpsTo, ReturnsTo, StopsWith};
ghost use Rattle.ownership.specs.Words.{LoadsWord, StoresWord};

use chip_step::Bus;

/// Where memory holds the script and the chip runs at an address of it, a step is the row of the instruction there, and
/// the fetch leaves DSP at the next instruction.
pub fn script_steps<B: Bus>()
    ensures row { IsRow B.moves }
    ensures step { IsStep B.moves }
    ensures next { Follows B }
{}

/// Where memory holds the script and the chip runs at an address of it, a step changes only the bytes that the table of
/// this address names: words that driver and script share, fields of the block at DSA, the slot at DSA, the status and
/// the message that came, and where a data move brings data in.
pub fn script_writes_only<B: Bus>()
    ensures { WritesOnly B.moves }
{}

/// Where memory holds the script and the chip runs at an address of it that is no data move, a step changes, and depends
/// on, only the words that driver and script share, the words at DSA that lie before the message of a block, the
/// message, the command and the status that the block's entries name, and its own instruction.
pub fn only_data_moves_touch_data<B: Bus>()
    ensures changes { ChangesControl B.moves }
    ensures reads { ReadsControl B.moves }
{}

/// Where memory of bytes holds the script and the chip runs at a LOAD or a STORE of it, the step goes on: a LOAD has the
/// word of memory in DSA, TEMP, SCRATCHA or SCRATCHB, a STORE has that register's word in memory, and the bus and all
/// else are as the fetch left them. Where its place is from DSA on, DSA is a multiple of 4 with the head of a block from
/// there on in memory.
pub fn script_moves_words<B: Bus>()
    ensures loads { LoadsWord B.moves }
    ensures stores { StoresWord B.moves }
{}

/// Where memory holds the script and the chip runs at a transfer of it that always holds, a JUMP goes to its address, a
/// RETURN to the one in TEMP, INT stops with its vector and INTFLY sets its interrupt; memory, the bus and all other
/// registers are as the fetch left them.
pub fn script_transfers<B: Bus>()
    ensures jumps { JumpsTo B.moves }
    ensures returns { ReturnsTo B.moves }
    ensures stops { StopsWith B.moves }
    ensures interrupts { Interrupts B.moves }
{}

/// START: four steps from 0x000 on bring the chip to the address in START of the block that FRONT names, with DSA at
/// this block and SIGP clear. RING: five steps from 0x020 on bring it to the block in the slot that RINGP names, with
/// SCRATCHB at the next slot. Memory and the bus are as before. The slot, and the head of the block, lie in memory at
/// multiples of 4.
pub fn start_enters_blocks<B: Bus>()
    ensures front { EntersFront B.moves }
    ensures ring { EntersRing B.moves }
{}

//! Where things lie in host memory: the words that the driver and the script share, the rings, the tables, the
//! blocks and the buffers. All addresses are in bytes.
#![tactic(auto)]

ghost use Rattle.std.specs.Prelude.{◌≡◌, ◌<◌, ◌↔◌, IsTrue};
ghost use Rattle.host_map.specs.Places.{block_at, tag_entry, IsCommandBlock, IsBlockPlace};

mod laws;

pub use laws::{blocks_are_numbered, is_map, places_lie_apart, regions_stay, writes_compose};

/// The size of host memory in bytes, 4 MiB.
pub const MEMORY_BYTES: u32 = 0x40_0000;
/// The size of host memory in words of 32 bits.
pub const MEMORY_WORDS: u32 = 0x10_0000;

/// Where the driver script lies.
pub const SCRIPT: u32 = 0;

/// The block that the script tries before the start ring.
pub const FRONT: u32 = 0x1000;
/// The next start slot of the chip.
pub const RINGP: u32 = 0x1004;
/// The next done slot of the chip.
pub const DONEP: u32 = 0x1008;
/// The block that PUT enters into the done ring.
pub const CUR: u32 = 0x100c;
/// The byte that a message is read into.
pub const MSGIN: u32 = 0x1010;
/// The message ABORT TAG, 0x0D, in the lowest byte.
pub const ABORT_TAG: u32 = 0x1014;
/// Holds the address of OVER in the script.
pub const OVER_ADDRESS: u32 = 0x1018;
/// Holds STATE 1, ended by the target.
pub const ENDED_STATE: u32 = 0x101c;
/// Holds STATE 2, cut.
pub const CUT_STATE: u32 = 0x1020;
/// Holds STATE 3, no target.
pub const NO_TARGET_STATE: u32 = 0x1024;
/// Holds the address of OPEN in the script.
pub const OPEN_ADDRESS: u32 = 0x1028;
/// Holds the address of BADTASK in the script.
pub const BADTASK_ADDRESS: u32 = 0x102c;
/// Holds the address of the front-idle block.
pub const FRONT_IDLE_ADDRESS: u32 = 0x1030;

/// The block that stands in idle slots of both rings.
pub const IDLE: u32 = 0x1200;
/// The block that stands in tag entries without a task.
pub const NOTASK: u32 = 0x1400;
/// The block that stands at FRONT when it is idle.
pub const FRONT_IDLE: u32 = 0x1600;
/// The block of a device reset.
pub const JOB: u32 = 0x1800;

/// The first start slot.
pub const START_RING: u32 = 0x2000;
/// The first done slot.
pub const DONE_RING: u32 = 0x3000;
/// The slots of each ring. A slot has two words: a block, and the address of the next slot.
pub const SLOTS: u32 = 512;

/// The tag tables: four tables of 64 words for each unit.
pub const TAG_TABLES: u32 = 0x4000;
/// The code that finds the unit of a reselection: by target, then by LUN.
pub const CHAINS: u32 = 0x8000;
/// The first command block.
pub const BLOCKS: u32 = 0x1_0000;
/// The bytes of a block.
pub const BLOCK_BYTES: u32 = 0x200;
/// The number of command blocks.
pub const BLOCK_COUNT: u32 = 256;

/// The buffer region, 32 chunks of 65,536 bytes.
pub const BUFFERS: u32 = 0x20_0000;
/// The bytes of a chunk.
pub const CHUNK_BYTES: u32 = 0x1_0000;
/// The number of chunks.
pub const CHUNK_COUNT: u32 = 32;

/// The address of command block `b`, below 256.
pub fn block_at(b: u32) -> u32
    requires { b < 256 }
    ensures { result ≡ block_at b }
{
    BLOCKS + BLOCK_BYTES * b
}

/// Whether an address is that of one of the 256 command blocks.
pub fn is_command_block(address: u32) -> bool
    ensures { IsTrue result ↔ IsCommandBlock address }
{
    address >= BLOCKS && address < BLOCKS + BLOCK_BYTES * BLOCK_COUNT && address % BLOCK_BYTES == 0
}

/// Whether an address is one of the 260 block places: a command block, IDLE, NOTASK, FRONT_IDLE or JOB.
pub fn is_block_place(address: u32) -> bool
    ensures { IsTrue result ↔ IsBlockPlace address }
{
    is_command_block(address)
        || address == IDLE
        || address == NOTASK
        || address == FRONT_IDLE
        || address == JOB
}

/// The address of the word that a tag of a unit has in the unit's tag tables. The unit is below 16.
pub fn tag_entry(unit: u8, tag: u8) -> u32
    requires { unit < 16 }
    ensures { result ≡ tag_entry unit tag }
{
    TAG_TABLES + 0x400 * unit as u32 + 0x100 * (tag % 4) as u32 + (tag - tag % 4) as u32
}

//! The allocator of the driver's buffer region: power-of-two chunks, merged with their buddies.
#![tactic(auto)]

mod allocator;
mod bit_set;
mod buddies;
mod chunk_list;
mod free_chunks;
mod laws;
#[cfg(test)]
mod tests;
mod words;

pub use allocator::Region;
pub use buddies::Chunk;
pub use chunk_list::Chunks;
pub use laws::one_region;

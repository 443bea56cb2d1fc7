//! Tests that cross crates: the top call over sinks and shelves in memory.
#![tactic(auto)]

#[cfg(test)]
mod files;
#[cfg(test)]
mod one;
#[cfg(test)]
mod pool;
#[cfg(test)]
mod runs;
#[cfg(test)]
mod world;

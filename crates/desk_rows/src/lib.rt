//! Tests that cross crates: tickets of the driver's desk from Build to Free, and what Build refuses.
#![tactic(auto)]

#[cfg(test)]
mod actions;
#[cfg(test)]
mod blocks;
#[cfg(test)]
mod fullness;
#[cfg(test)]
mod stand;
#[cfg(test)]
mod tries;

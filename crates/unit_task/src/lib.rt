//! One task of a logical unit: its command, how far its data have moved, and the bytes that it holds. Its methods
//! do what concerns a task and its unit alone; what it shows on the bus, its log entries and the unit's other tasks
//! are its caller's. Only `idle` takes memory.
#![tactic(auto)]

mod moving;
mod performing;
mod task;
#[cfg(test)]
mod tests;

pub use task::Task;

//! A logical unit of a target that holds its tasks, with places for further ones. Its opening makes all places,
//! so that no task takes memory later.
#![tactic(auto)]

mod dropping;
mod queued;
mod task_list;
#[cfg(test)]
mod tests;

pub use queued::QueuedUnit;
pub use task_list::TaskList;

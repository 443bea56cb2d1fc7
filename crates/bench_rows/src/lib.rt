//! Tests of the bench, as tables of steps over one bench each: replies, words, log entries, blocks and reports.
#![tactic(auto)]

#[cfg(test)]
mod aborts;
#[cfg(test)]
mod actions;
#[cfg(test)]
mod orders;
#[cfg(test)]
mod pointers;
#[cfg(test)]
mod region;
#[cfg(test)]
mod resets;
#[cfg(test)]
mod rigs;
#[cfg(test)]
mod rogues;

//! A task of a logical unit while it is connected: what it may do by a word, what a move makes of it and of its
//! unit, the bytes of its phases, and what its messages do. Nothing here takes memory.
#![tactic(auto)]

mod acknowledging;
mod acting;
mod bytes;
mod choosing;
mod connection;
#[cfg(test)]
mod tests;

pub use connection::Connection;

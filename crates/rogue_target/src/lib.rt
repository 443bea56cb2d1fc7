//! A target whose units break the rules of the bus: what it shows after its choice by a word, and its bytes.
//!
//! It ignores the bytes that it takes, but for the length that the first byte of COMMAND says, and after each phase it
//! is to choose again. No call takes memory.
#![tactic(auto)]

mod bytes;
mod choice;

pub use bytes::{byte_for, heard, phase_of, sent, takes, took};
pub use choice::chosen;

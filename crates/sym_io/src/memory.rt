//! A sink and a shelf in memory that fail at the calls that they are given.

pub mod shelf;
pub mod sink;

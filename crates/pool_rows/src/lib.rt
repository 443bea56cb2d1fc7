//! Tests of the callers of a bench in threads, which hold each other up at gates.
#![tactic(auto)]

#[cfg(test)]
mod gates;
#[cfg(test)]
mod rows;

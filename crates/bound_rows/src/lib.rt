//! Tests of the bound on a list's entries, over the texts of a rig and a work.
#![tactic(auto)]

#[cfg(test)]
mod bounds;

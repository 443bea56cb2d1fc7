//! Tests that cross crates: tables of rig, work and trace texts, with what each reads as or its first fault.
#![tactic(auto)]

#[cfg(test)]
mod faults;
#[cfg(test)]
mod rigs;
#[cfg(test)]
mod texts;
#[cfg(test)]
mod traces;
#[cfg(test)]
mod works;

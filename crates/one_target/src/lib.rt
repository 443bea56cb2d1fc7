//! A bus with one target, whose units keep the rules, for the command `one`: `OneBus`, and laws. Each move keeps the
//! laws of a bus, a READ(10) from the opening has one answer to each call, and the report that host memory then holds
//! fits the unit's log.
#![tactic(auto)]

mod bus;
mod laws;
mod turn;

pub use bus::OneBus;
pub use laws::{bus_is_lawful, bus_stays_held, read_has_one_answer, report_fits_the_log};

//! The report text: what became of the lines and acts of a work, the reports, the blocks that differ from their opening,
//! and the totals. Each function puts one part at the end of a text; the work is linear in what it shows.
#![tactic(auto)]

mod acts;
mod images;
mod lines;
mod text;
mod totals;

pub use acts::push_acts;
pub use images::push_block;
pub use lines::push_lines;
pub use text::report_text;
pub use totals::push_totals;

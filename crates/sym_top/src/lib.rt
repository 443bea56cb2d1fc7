//! The commands of the program.
#![tactic(auto)]

mod alone;
mod commands;
mod job;
mod laws;
mod load_numbers;
mod making;
mod numbers;
mod one;
mod pool_job;
mod run_command;
mod running;
mod top;
mod words;

pub use alone::answer_alone;
pub use laws::one_cause;
pub use refusal_lines::Exit;
pub use straight_run::{Straight, straight};
pub use top::answer;
pub use words::{refuse_words, words_of};

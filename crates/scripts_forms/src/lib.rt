//! How instructions are written: the reserved words, the tokens of a line, and the table of the forms. The assembler
//! reads by it, and the listing prints by it.
#![tactic(auto)]

mod reading;
mod shapes;
mod tokens;
mod words;

pub use reading::{is_value, shape_of};
pub use shapes::{Flags, Item, On, Shape, items};
pub use tokens::{Token, tokens_of};
pub use words::{Key, Word, spelling, word_of};

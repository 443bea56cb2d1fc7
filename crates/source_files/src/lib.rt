//! The files of the assembler: a source to its image, words to the bytes of a file, and a file's bytes to their
//! listing. Nothing here reaches a file: the bytes are handed in and out.
#![tactic(auto)]

mod images;
mod laws;
mod listings;
mod sources;
#[cfg(test)]
mod tests;

pub use images::{image_bytes, words_line};
pub use laws::{one_assembly, reads_back};
pub use listings::list_file;
pub use sources::assemble_source;

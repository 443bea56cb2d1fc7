//! What is wrong with a line.

/// The kinds of fault.
#[derive(Clone, Copy)]
pub enum Kind {
    BadToken,
    BadForm,
    UnknownLabel,
    TwiceLabel,
    TooWide,
    TooLong,
}

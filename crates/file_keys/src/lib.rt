//! The keys of the tables of a TOML file: each reader here gives the value of one key, or the key's fault.
//!
//! A file is read key by key, in the order of its schema, with `?`: so the first fault is the answer. A key's text, as
//! `unit[2].depth`, is a prefix and a name; the prefix is empty at the top and `unit[2].` in the third table of `unit`.
//! What each key takes is said once more at the call, and the contracts hold it equal to the schema of the definitions.
#![tactic(auto)]

mod keys;

pub use keys::{
    choice, document, entry_prefix, fault, flag, hex, list, number, number_in, refuse_unknown,
    table_at,
};

//! Small types over a vector or a string. A contract sees each as the list that it holds, so a type with such a
//! field compares by its content.

ghost use Rattle.std.specs.Prelude.{◌≡◌, List, ℕ, string_bytes};

use std::marker::Model;

/// A list of bytes.
#[derive(Debug, Drop)]
pub struct Bytes {
    held: Vec<u8>,
}

impl Model for Bytes {
    ghost Value = { List ℕ };

    ghost view = { λ b. b.held.items };
}

impl Bytes {
    /// The list of a vector's bytes.
    pub fn of(held: Vec<u8>) -> Self
        ensures { result ≡ held.items }
    {
        Bytes { held }
    }

    /// The bytes.
    pub fn as_slice(&self) -> &[u8]
        ensures { result.now ≡ self.now }
    {
        self.held.as_slice()
    }

    /// The vector, given back.
    pub fn into_vec(self) -> Vec<u8>
        ensures { result.items ≡ self }
    {
        self.held
    }
}

/// A list of numbers of 32 bits.
#[derive(Debug, Drop)]
pub struct Counts {
    held: Vec<u32>,
}

impl Model for Counts {
    ghost Value = { List ℕ };

    ghost view = { λ c. c.held.items };
}

impl Counts {
    /// The list of a vector's numbers.
    pub fn of(held: Vec<u32>) -> Self
        ensures { result ≡ held.items }
    {
        Counts { held }
    }

    /// The numbers.
    pub fn as_slice(&self) -> &[u32]
        ensures { result.now ≡ self.now }
    {
        self.held.as_slice()
    }

    /// The vector, given back.
    pub fn into_vec(self) -> Vec<u32>
        ensures { result.items ≡ self }
    {
        self.held
    }
}

/// A text. A contract sees its bytes in UTF-8.
#[derive(Debug, Drop)]
pub struct Text {
    held: String,
}

impl Model for Text {
    ghost Value = { List ℕ };

    ghost view = { λ t. string_bytes t.held };
}

impl Text {
    /// The text of a string.
    pub fn of(held: String) -> Self
        ensures { result ≡ string_bytes held }
    {
        Text { held }
    }

    /// The text.
    pub fn as_str(&self) -> &str
        ensures { result.now ≡ self.now }
    {
        self.held.as_str()
    }

    /// The string, given back.
    pub fn into_string(self) -> String
        ensures { string_bytes result ≡ self }
    {
        self.held
    }
}

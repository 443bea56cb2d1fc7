//! Laws of memory. Each function does nothing; its contract is the law.

ghost use Rattle.bench_words.specs.Bytes.{WritesKeepBytes, ReadsBytes};

/// Bytes stay below 256 under each write, and what is read from them is.
pub fn bytes_stay_bytes()
    ensures writes { WritesKeepBytes }
    ensures reads { ReadsBytes }
{}

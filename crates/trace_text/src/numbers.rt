//! Numbers in a trace.

ghost use Rattle.std.specs.Prelude.{◌≡◌, ◌<◌};
ghost use Rattle.trace_text.specs.Reading.{number_in, digits_in, digit_value, word_in, word_value as word_of};
ghost use Rattle.trace_text.specs.Grammar.{hex_8, hex_digit};

/// The number below 2^32 that digits represent.
fn value(bytes: &[u8]) -> Option<u32>
    ensures { result ≡ digits_in bytes.now }
{
    let mut n: u64 = 0;
    for b in bytes {
        if *b < b'0' || b'9' < *b {
            return None;
        }
        n = 10 * n + u64::from(*b - b'0');
        if n > 0xffff_ffff {
            return None;
        }
    }
    Some(n as u32)
}

/// A decimal number below 2^32 without leading zeros.
pub fn number(bytes: &[u8]) -> Option<u32>
    ensures { result ≡ number_in bytes.now }
{
    if bytes.is_empty() || (bytes[0] == b'0' && bytes.len() != 1) {
        return None;
    }
    value(bytes)
}

/// The digit of a number below 16.
fn hex_digit(n: u32) -> u8
    requires { n < 16 }
    ensures { result ≡ hex_digit n }
{
    if n < 10 {
        b'0' + n as u8
    } else {
        b'a' + (n - 10) as u8
    }
}

/// A word in eight hexadecimal digits.
pub fn hex(word: u32) -> [u8; 8]
    ensures { result ≡ hex_8 word }
{
    [
        hex_digit(word / 0x1000_0000 % 16),
        hex_digit(word / 0x100_0000 % 16),
        hex_digit(word / 0x10_0000 % 16),
        hex_digit(word / 0x1_0000 % 16),
        hex_digit(word / 0x1000 % 16),
        hex_digit(word / 0x100 % 16),
        hex_digit(word / 0x10 % 16),
        hex_digit(word % 16),
    ]
}

/// What a hexadecimal digit counts; any number for another byte.
fn digit(b: u8) -> u32
    ensures value { result ≡ digit_value b }
    ensures small { result < 16 }
{
    if b < b'a' {
        u32::from(b.saturating_sub(b'0')) % 16
    } else {
        u32::from(b - 87) % 16
    }
}

/// What eight digits count.
fn word_value(bytes: &[u8; 8]) -> u32
    ensures { result ≡ word_of bytes.now }
{
    let [a, b, c, d, e, f, g, h] = bytes;
    let high = ((digit(*a) * 16 + digit(*b)) * 16 + digit(*c)) * 16 + digit(*d);
    let low = ((digit(*e) * 16 + digit(*f)) * 16 + digit(*g)) * 16 + digit(*h);
    high * 65536 + low
}

/// A word in eight hexadecimal digits of lower case.
pub fn word(bytes: &[u8]) -> Option<u32>
    ensures { result ≡ word_in bytes.now }
{
    if bytes.len() != 8 {
        return None;
    }
    let w = word_value(&[
        bytes[0], bytes[1], bytes[2], bytes[3], bytes[4], bytes[5], bytes[6], bytes[7],
    ]);
    if hex(w).as_slice() == bytes {
        Some(w)
    } else {
        None
    }
}

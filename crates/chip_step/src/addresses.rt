//! Where an instruction finds its bytes.

ghost use Rattle.std.specs.Prelude.{◌≡◌, ◌+◌, ◌≤◌, ◌<◌, ◌^◌, length, IfSome};
ghost use Rattle.scripts_ops.specs.Table.{IsAddress};
ghost use Rattle.chip_step.specs.Addresses.{place_of, address_of, low_bits};

use bench_words::Words;
use scripts_ops::Address;

/// The address of `len` bytes at an offset from a base, where they all lie in memory.
#[tactic(auto, unfolding(crate::specs::Addresses::place_of))]
pub fn place(words: &Words, base: u32, offset: i32, len: u32) -> Option<u32>
    ensures place { result ≡ place_of words.now base offset len }
    ensures inside { IfSome result (λ a. a + len ≤ length words.now) }
    ensures small { IfSome result (λ a. a + len < 2 ^ 32) }
{
    let at = base as i64 + offset as i64;
    if at < 0 || at + len as i64 > words.len() as i64 {
        return None;
    }
    Some(at as u32)
}

/// The address of LOAD and STORE, where its `len` bytes all lie in memory.
pub fn address(words: &Words, dsa: u32, at: Address, len: u32) -> Option<u32>
    ensures address { result ≡ address_of words.now dsa at len }
    ensures inside { IfSome result (λ a. a + len ≤ length words.now) }
{
    match at {
        Address::At(a) => {
            if a as u64 + len as u64 <= words.len() as u64 {
                Some(a)
            } else {
                None
            }
        }
        Address::FromDsa(offset) => place(words, dsa, offset, len),
    }
}

/// The low two bits of the address of LOAD and STORE, wherever it lies.
pub fn low_two_bits(dsa: u32, at: Address) -> u32
    requires { IsAddress at }
    ensures { result ≡ low_bits dsa at }
{
    match at {
        Address::At(a) => a % 4,
        Address::FromDsa(offset) => ((dsa as i64 + offset as i64 + 0x100_0000) % 4) as u32,
    }
}

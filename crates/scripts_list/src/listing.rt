//! The listing of words.
ghost use Rattle.std.specs.Prelude.{◌≡◌, ℕ, ◌+◌, ◌*◌, ◌/◌, ◌%◌, ◌<◌, ◌≤◌, ◌++◌, ◌∷◌, [], List, length, IfOk, IfSome, IsNone, string_bytes};
ghost use Rattle.std.specs.Char.{digit_char};
ghost use Rattle.scripts_ops.specs.Table.{row};
ghost use Rattle.scripts_ops.specs.declared.values.Op.{Op};
ghost use Rattle.scripts_asm.specs.Assembled.{words_of_op};
ghost use Rattle.scripts_list.specs.Listing as spec;
ghost use Rattle.scripts_list.specs.Texts.{text_of, number_text};

use crate::texts::{push_number, push_text};
use scripts_ops::{Op, decode, encode};
use scsi_words::Text;
use std::alloc::{AllocError, Global};

#[tactic(auto, using(crate::proofs::Ascii::ascii_char))]
fn push_digit(out: &mut String, digit: u32) -> Result<(), AllocError>
    requires { digit < 16 }
    ensures { IfOk result (λ _. string_bytes out.new ≡ string_bytes out.old ++ digit_char digit ∷ []) }
{
    let digit = digit as u8;
    let shown = if digit < 10 { 48 + digit } else { 87 + digit };
    out.push(char::from(shown))
}

/// Adds eight hexadecimal digits.
#[tactic(auto, unfolding(crate::specs::Listing::word_text))]
fn push_word_digits(out: &mut String, n: u32) -> Result<(), AllocError>
    ensures { IfOk result (λ _. string_bytes out.new ≡ string_bytes out.old ++ spec.word_text n) }
{
    push_digit(out, n / 0x1000_0000 % 16)?;
    push_digit(out, n / 0x100_0000 % 16)?;
    push_digit(out, n / 0x10_0000 % 16)?;
    push_digit(out, n / 0x1_0000 % 16)?;
    push_digit(out, n / 0x1000 % 16)?;
    push_digit(out, n / 0x100 % 16)?;
    push_digit(out, n / 0x10 % 16)?;
    push_digit(out, n % 16)
}

/// Adds words, each behind a blank.
fn push_words(out: &mut String, mut words: &[u32]) -> Result<(), AllocError>
    ensures { IfOk result (λ _. string_bytes out.new ≡ string_bytes out.old ++ spec.words_text words.entry.now) }
{
    while let [word, rest @ ..] = words {
        out.push_str(" ")?;
        push_word_digits(out, *word)?;
        words = rest;
    }
    Ok(())
}

/// Adds the front of a line: the address and the words, up to the first blank before the text.
fn push_front(out: &mut String, address: u32, words: &[u32]) -> Result<(), AllocError>
    ensures { IfOk result (λ _. string_bytes out.new ≡ string_bytes out.old ++ spec.word_text address ++ 32 ∷ spec.words_text words.now ++ 32 ∷ []) }
{
    push_word_digits(out, address)?;
    out.push_str(" ")?;
    push_words(out, words)?;
    out.push_str(" ")
}

/// Adds the line of an instruction, and says how many words it shows.
#[tactic(auto, unfolding(crate::specs::Listing::line), using(crate::proofs::Ascii::first_words))]
fn push_op(out: &mut String, alloc: Global, address: u32, op: &Op) -> Result<usize, AllocError>
    requires { (row op.now).fields }
    ensures line { IfOk result (λ _. string_bytes out.new ≡ string_bytes out.old ++ spec.line address (words_of_op op.now) (text_of op.now)) }
    ensures len { IfOk result (λ len. len ≡ length (words_of_op op.now)) }
{
    let spelling = encode(op);
    let (words, _) = spelling.words.split_at(spelling.length as usize);
    push_front(out, address, words)?;
    push_text(out, alloc, op)?;
    out.push_str("\n")?;
    Ok(words.len())
}

/// Adds the line of a word that begins no instruction.
#[tactic(auto, unfolding(crate::specs::Listing::line))]
fn push_word(out: &mut String, address: u32, word: u32) -> Result<(), AllocError>
    ensures { IfOk result (λ _. string_bytes out.new ≡ string_bytes out.old ++ spec.line address (word ∷ []) (spec.word_part word)) }
{
    push_front(out, address, &[word])?;
    out.push_str(" .word ")?;
    push_number(out, word)?;
    out.push_str("\n")
}

/// The instruction that begins here.
fn instruction_at(words: &[u32]) -> Option<Op>
    ensures found { IfSome result (λ op. spec.Starts words.now op) }
    ensures none { IsNone result → (op : Op) → spec.Starts words.now op → ⊥ }
{
    match words {
        [first, second, third, ..] => decode(*first, *second, *third),
        [first, second] => match decode(*first, *second, 0)? {
            Op::MoveMemory { .. } => None,
            op => Some(op),
        },
        _ => None,
    }
}

/// Adds the line of what begins here, and says how many words it shows.
fn push_entry(
    out: &mut String,
    alloc: Global,
    address: u32,
    words: &[u32],
) -> Result<usize, AllocError>
    requires { 0 < length words.now }
    ensures shown { IfOk result (λ shown. (0 < shown) × (shown ≤ length words.now)) }
    ensures entry { IfOk result (λ shown. spec.Adds address words.now shown (string_bytes out.old) (string_bytes out.new)) }
{
    if let Some(op) = instruction_at(words) {
        push_op(out, alloc, address, &op)
    } else {
        push_word(out, address, words[0])?;
        Ok(1)
    }
}

/// The listing of at most 1,073,741,824 words, the first at address 0: a line for each instruction, and one for each
/// word that begins none.
pub fn list(alloc: Global, mut words: &[u32]) -> Result<Text, AllocError>
    requires { length words.now ≤ 1073741824 }
    ensures { IfOk result (λ text. spec.IsListing 0 words.entry.now text) }
{
    let mut out = String::new(alloc);
    let mut address: u64 = 0;
    while !words.is_empty() {
        let shown = push_entry(&mut out, alloc, address as u32, words)?;
        let (_, rest) = words.split_at(shown);
        words = rest;
        address += 4 * shown as u64;
    }
    Ok(Text::of(out))
}

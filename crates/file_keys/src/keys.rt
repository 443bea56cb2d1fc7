//! The readers of keys.

ghost use Rattle.std.specs.Prelude.{true, ◌≡◌, ◌*◌, ◌≤◌, ◌<◌, ◌==◌, ◌++◌, ⊤, if◌then◌else◌, length, map, codes, IfOk, IfErr, IfSome, IsSome, MatchOption, option_map, Some, None, string_bytes};
ghost use Rattle.std.specs.Option.{ForSome};
ghost use Rattle.std.specs.Fmt.{decimal};
ghost use Rattle.rig_types.specs.declared.fault.ReadFault.TheVariants as faults;
ghost use Rattle.toml.specs.View.{view, table_view, items_view};
ghost use Rattle.toml.specs.Data.{table, get_member, as_integer};
ghost use Rattle.file_keys.specs.Keys.{number_fault, natural, place_of, number_key, choice_key, flag_key, list_key, key_fault, value_of, items_of, is_among, unknown_fault, entry_fault, hex_key, bytes_of, hex_of, is_hex as is_hex_digit, hex_digit as digit_of};
ghost use Rattle.file_keys.specs.Faults.{at, Reads, IsFault};
ghost use Rattle.file_keys.specs.Documents.{IsDocument, RefusesText};

use rig_types::{BadKind, ReadFault};
use scsi_words::Text;
use std::alloc::{AllocError, Global};
use toml::{Table, Value};

/// The fault of this kind at a key, or want of memory for the key's text.
pub fn fault(alloc: Global, prefix: &str, name: &str, kind: BadKind) -> ReadFault
    ensures { IsFault result (prefix.now ++ name.now) kind }
{
    match format!(in alloc; "{prefix}{name}") {
        Ok(key) => ReadFault::Bad {
            key: Text::of(key),
            kind,
        },
        Err(_) => ReadFault::OutOfMemory,
    }
}

/// What stands before the keys of the n-th table of a list, from 0, as `unit[2].`.
pub fn entry_prefix(alloc: Global, prefix: &str, name: &str, n: usize) -> Result<String, ReadFault>
    ensures text { IfOk result (λ s. string_bytes s ≡ prefix.now ++ name.now ++ codes "[" ++ decimal n ++ codes "].") }
    ensures memory { IfErr result (λ e. e ≡ faults.OutOfMemory) }
{
    Ok(format!(in alloc; "{prefix}{name}[{n}].")?)
}

/// What a table has at a key.
fn find<'a>(table: &'a Table, name: &str) -> Option<&'a Value>
    ensures { MatchOption result (get_member name.now (table_view table.now) ≡ None) (λ v. get_member name.now (table_view table.now) ≡ Some (view v.now)) }
{
    table.get(name)
}

/// The number that a value is, from `least` to `most`: WrongType where it is no integer, OutOfRange outside.
pub fn number_in(
    alloc: Global,
    value: &Value,
    prefix: &str,
    name: &str,
    least: u32,
    most: u32,
) -> Result<u32, ReadFault>
    ensures reads { let found = as_integer (view value.now) in
        Reads result (option_map (at (prefix.now ++ name.now)) (number_fault least most found)) (λ n. n ≡ natural found) }
    ensures in_range { IfOk result (λ n. (least ≤ n) × (n ≤ most)) }
    ensures fails { IfErr result (λ _. IsSome (number_fault least most (as_integer (view value.now)))) }
{
    match value.as_integer() {
        None => Err(fault(alloc, prefix, name, BadKind::WrongType)),
        Some(z) => {
            if z < i64::from(least) || i64::from(most) < z {
                return Err(fault(alloc, prefix, name, BadKind::OutOfRange));
            }
            Ok(z as u32)
        }
    }
}

/// The number at a key, from `least` to `most`. An absent key is the default, or Missing without one.
pub fn number(
    alloc: Global,
    table: &Table,
    prefix: &str,
    name: &str,
    least: u32,
    most: u32,
    default: Option<u32>,
) -> Result<u32, ReadFault>
    requires { ForSome default (λ n. (least ≤ n) × (n ≤ most)) }
    ensures reads { let key = number_key name.now least most default in
        Reads result (key_fault prefix.now key (table_view table.now)) (λ n. n ≡ value_of key (table_view table.now)) }
    ensures in_range { IfOk result (λ n. (least ≤ n) × (n ≤ most)) }
    ensures fails { let key = number_key name.now least most default in
        IfErr result (λ _. IsSome (key_fault prefix.now key (table_view table.now))) }
{
    match find(table, name) {
        None => match default {
            Some(n) => Ok(n),
            None => Err(fault(alloc, prefix, name, BadKind::Missing)),
        },
        Some(value) => number_in(alloc, value, prefix, name, least, most),
    }
}

/// The place of a word among words.
fn place(words: &[&str], word: &str) -> Option<usize>
    ensures place { result ≡ place_of (map (λ w. w.now) words.now) word.now }
    ensures within { IfSome result (λ n. n < length words.now) }
{
    for (n, w) in words.iter().enumerate() {
        if *w == word {
            return Some(n);
        }
    }
    None
}

/// The word at a key, as its place among the words that the key takes. An absent key is the default, or Missing without
/// one; a text that is none of the words is OutOfRange.
pub fn choice(
    alloc: Global,
    table: &Table,
    prefix: &str,
    name: &str,
    words: &[&str],
    default: Option<usize>,
) -> Result<usize, ReadFault>
    requires { ForSome default (λ n. n < length words.now) }
    ensures reads { let key = choice_key name.now (map (λ w. w.now) words.now) default in
        Reads result (key_fault prefix.now key (table_view table.now)) (λ n. n ≡ value_of key (table_view table.now)) }
    ensures in_range { IfOk result (λ n. n < length words.now) }
    ensures fails { let key = choice_key name.now (map (λ w. w.now) words.now) default in
        IfErr result (λ _. IsSome (key_fault prefix.now key (table_view table.now))) }
{
    match find(table, name) {
        None => match default {
            Some(n) => Ok(n),
            None => Err(fault(alloc, prefix, name, BadKind::Missing)),
        },
        Some(value) => match value.as_str() {
            None => Err(fault(alloc, prefix, name, BadKind::WrongType)),
            Some(word) => match place(words, word) {
                None => Err(fault(alloc, prefix, name, BadKind::OutOfRange)),
                Some(n) => Ok(n),
            },
        },
    }
}

/// The flag at a key, or the default where it is absent.
pub fn flag(
    alloc: Global,
    table: &Table,
    prefix: &str,
    name: &str,
    default: bool,
) -> Result<bool, ReadFault>
    ensures reads { let key = flag_key name.now (Some (if default then 1 else 0)) in
        Reads result (key_fault prefix.now key (table_view table.now)) (λ b. (if b then 1 else 0) ≡ value_of key (table_view table.now)) }
    ensures fails { let key = flag_key name.now (Some (if default then 1 else 0)) in
        IfErr result (λ _. IsSome (key_fault prefix.now key (table_view table.now))) }
{
    match find(table, name) {
        None => Ok(default),
        Some(value) => match value.as_bool() {
            None => Err(fault(alloc, prefix, name, BadKind::WrongType)),
            Some(b) => Ok(b),
        },
    }
}

/// The entries of the list at a key, `least` to `most` of them. An absent list is empty, or Missing where it must have an
/// entry. The entries themselves aren't looked at.
#[tactic(auto, using(crate::proofs::Finds::count_view))]
pub fn list<'a>(
    alloc: Global,
    table: &'a Table,
    prefix: &str,
    name: &str,
    least: usize,
    most: usize,
) -> Result<&'a [Value], ReadFault>
    requires { least ≤ most }
    ensures reads { let key = list_key name.now least most (if least == 0 then Some 0 else None) in
        Reads result (key_fault prefix.now key (table_view table.now)) (λ vs. items_view vs.now ≡ items_of key (table_view table.now)) }
    ensures in_range { IfOk result (λ vs. (least ≤ length vs.now) × (length vs.now ≤ most)) }
    ensures fails { let key = list_key name.now least most (if least == 0 then Some 0 else None) in
        IfErr result (λ _. IsSome (key_fault prefix.now key (table_view table.now))) }
{
    match find(table, name) {
        None => {
            if least == 0 {
                Ok(&[])
            } else {
                Err(fault(alloc, prefix, name, BadKind::Missing))
            }
        }
        Some(value) => match value.as_array() {
            None => Err(fault(alloc, prefix, name, BadKind::WrongType)),
            Some(entries) => {
                if entries.len() < least || most < entries.len() {
                    return Err(fault(alloc, prefix, name, BadKind::OutOfRange));
                }
                Ok(entries.as_slice())
            }
        },
    }
}

/// Whether a byte is a hexadecimal digit of either case.
fn is_hex(c: u8) -> bool
    ensures { result ≡ is_hex_digit c }
{
    (48 <= c && c <= 57) || ((65 <= c && c <= 70) || (97 <= c && c <= 102))
}

/// The value of a hexadecimal digit.
fn hex_digit(c: u8) -> u8
    requires { is_hex_digit c ≡ true }
    ensures value { result ≡ digit_of c }
    ensures small { result < 16 }
{
    if c <= 57 {
        c - 48
    } else if c <= 70 {
        c - 55
    } else {
        c - 87
    }
}

/// The bytes that pairs of hexadecimal digits spell, or none where the text isn't such pairs.
fn hex_bytes(alloc: Global, text: &[u8]) -> Result<Option<Vec<u8>>, AllocError>
    ensures bytes { IfOk result (λ o. option_map (λ v. v.items) o ≡ hex_of text.now) }
    ensures half { IfOk result (λ o. IfSome o (λ v. 2 * length v.items ≤ length text.now)) }
{
    let mut out = Vec::new(alloc);
    let mut rest = text;
    while rest.len() >= 2 {
        let a = rest[0];
        let b = rest[1];
        if !is_hex(a) || !is_hex(b) {
            return Ok(None);
        }
        out.push(16 * hex_digit(a) + hex_digit(b))?;
        let (_, more) = rest.split_at(2);
        rest = more;
    }
    if rest.is_empty() {
        Ok(Some(out))
    } else {
        Ok(None)
    }
}

/// The bytes at a key, at most `most` of them, each as two hexadecimal digits of either case with nothing between. An
/// absent key is Missing; any other text is OutOfRange.
pub fn hex(
    alloc: Global,
    table: &Table,
    prefix: &str,
    name: &str,
    most: usize,
) -> Result<Vec<u8>, ReadFault>
    requires { most ≤ 64 }
    ensures reads { let key = hex_key name.now most in
        Reads result (key_fault prefix.now key (table_view table.now)) (λ v. v.items ≡ bytes_of key (table_view table.now)) }
    ensures in_range { IfOk result (λ v. length v.items ≤ most) }
{
    match find(table, name) {
        None => Err(fault(alloc, prefix, name, BadKind::Missing)),
        Some(value) => match value.as_str() {
            None => Err(fault(alloc, prefix, name, BadKind::WrongType)),
            Some(text) => {
                if 2 * most < text.len() {
                    return Err(fault(alloc, prefix, name, BadKind::OutOfRange));
                }
                match hex_bytes(alloc, text.as_bytes())? {
                    None => Err(fault(alloc, prefix, name, BadKind::OutOfRange)),
                    Some(bytes) => Ok(bytes),
                }
            }
        },
    }
}

/// The table that the n-th entry of a list is, from 0: WrongType at the entry's own key, as `unit[2]`, where it is none.
pub fn table_at<'a>(
    alloc: Global,
    value: &'a Value,
    prefix: &str,
    name: &str,
    n: usize,
) -> Result<&'a Table, ReadFault>
    ensures reads { Reads result (entry_fault prefix.now name.now n (view value.now)) (λ t. view value.now ≡ table (table_view t.now)) }
    ensures fails { IfErr result (λ _. IsSome (entry_fault prefix.now name.now n (view value.now))) }
{
    match value.as_table() {
        Some(table) => Ok(table),
        None => match format!(in alloc; "{prefix}{name}[{n}]") {
            Ok(key) => Err(ReadFault::Bad {
                key: Text::of(key),
                kind: BadKind::WrongType,
            }),
            Err(_) => Err(ReadFault::OutOfMemory),
        },
    }
}

/// Whether a key is one of these.
fn is_known(names: &[&str], key: &str) -> bool
    ensures { result ≡ is_among (map (λ n. n.now) names.now) key.now }
{
    for name in names {
        if *name == key {
            return true;
        }
    }
    false
}

/// Refuses the least key of a table, by its bytes, that is none of these. A table gives its keys in ascending order.
pub fn refuse_unknown(
    alloc: Global,
    table: &Table,
    prefix: &str,
    names: &[&str],
) -> Result<(), ReadFault>
    ensures reads { Reads result (unknown_fault prefix.now (map (λ n. n.now) names.now) (table_view table.now)) (λ _. ⊤) }
    ensures fails { IfErr result (λ _. IsSome (unknown_fault prefix.now (map (λ n. n.now) names.now) (table_view table.now))) }
{
    for key in table.keys() {
        if !is_known(names, key.as_str()) {
            return Err(fault(alloc, prefix, key.as_str(), BadKind::Unknown));
        }
    }
    Ok(())
}

/// The table that a file is: NotToml at the empty key where it isn't UTF-8 or `toml` refuses it.
pub fn document(alloc: Global, bytes: &[u8]) -> Result<Table, ReadFault>
    ensures ok { IfOk result (λ t. IsDocument bytes.now (table_view t)) }
    ensures err { IfErr result (λ e. RefusesText e bytes.now) }
{
    match std::str::from_utf8(bytes) {
        Err(_) => Err(fault(alloc, "", "", BadKind::NotToml)),
        Ok(text) => match toml::table_from_str(alloc, text) {
            Ok(table) => Ok(table),
            Err(e) => {
                if e.is_memory() {
                    Err(ReadFault::OutOfMemory)
                } else {
                    Err(fault(alloc, "", "", BadKind::NotToml))
                }
            }
        },
    }
}

//! The work file as a whole.

ghost use Rattle.std.specs.Prelude.{◌≡◌, ◌≤◌, ◌-◌, ◌^◌, IfOk, length, map, min, sum, sum_by, ◌*◌};
ghost use Rattle.std.specs.List.{All};
ghost use Rattle.toml.specs.View.{table_view};
ghost use Rattle.file_keys.specs.Faults.{Reads};
ghost use Rattle.file_keys.specs.Documents.{ReadsFile};
ghost use Rattle.work_reader.specs.WorkFile.{plain_spelled, plain_work, work_fault, work_of, command_bytes, total_bytes, counts_of, views, is_too_large as too_large, IsSpelled};

use crate::acts::acts_from;
use crate::fill;
use crate::spelled::Spelled;
use crate::submitters::submitters_from;
use file_keys::{document, fault, list, number, refuse_unknown};
use rig_types::{Acts, BadKind, ReadFault, Rig, Work};
use std::alloc::{AllocError, Global};
use toml::Table;

/// The keys of the file.
const KEYS: [&str; 3] = ["version", "submitter", "act"];

/// How many commands each submitter has.
fn counts(alloc: Global, submitters: &[Vec<Spelled>]) -> Result<Vec<u64>, AllocError>
    ensures { IfOk result (λ v. v.items ≡ counts_of (views submitters.now)) }
{
    let mut out = Vec::with_capacity(alloc, submitters.len())?;
    for s in submitters {
        out.push(s.len() as u64)?;
    }
    Ok(out)
}

/// The sum of the counts, or the greatest number of 64 bits.
fn sum_of(counts: &[u64]) -> u64
    ensures { result ≡ min (sum counts.now) (2 ^ 64 - 1) }
{
    let mut total: u64 = 0;
    for n in counts {
        total = total.saturating_add(*n);
    }
    total
}

/// The bytes of a command's segments.
fn bytes_of(segments: &[u32]) -> u64
    requires { length segments.now ≤ 64 }
    ensures value { result ≡ sum segments.now }
    ensures small { result ≤ 64 * 4294967295 }
{
    let mut total: u64 = 0;
    for n in segments {
        total += u64::from(*n);
    }
    total
}

/// The bytes of a submitter's segments, or the greatest number of 64 bits.
fn bytes_of_submitter(spelled: &[Spelled]) -> u64
    requires { All IsSpelled spelled.now }
    ensures { result ≡ min (sum_by command_bytes (map plain_spelled spelled.now)) (2 ^ 64 - 1) }
{
    let mut total: u64 = 0;
    for s in spelled {
        total = total.saturating_add(bytes_of(&s.segments));
    }
    total
}

/// The bytes of all segments, or the greatest number of 64 bits.
fn bytes_of_all(submitters: &[Vec<Spelled>]) -> u64
    requires { All (λ s. All IsSpelled s.items) submitters.now }
    ensures { result ≡ min (total_bytes (views submitters.now)) (2 ^ 64 - 1) }
{
    let mut total: u64 = 0;
    for s in submitters {
        total = total.saturating_add(bytes_of_submitter(s));
    }
    total
}

/// Whether a work has too many commands or bytes.
fn is_too_large(total: u64, submitters: &[Vec<Spelled>]) -> bool
    requires total { total ≡ min (sum (counts_of (views submitters.now))) (2 ^ 64 - 1) }
    requires spelled { All (λ s. All IsSpelled s.items) submitters.now }
    ensures { result ≡ too_large (views submitters.now) }
{
    total > 4096 || bytes_of_all(submitters) > 67_108_864
}

/// The work of a table.
fn work_from(alloc: Global, table: &Table) -> Result<Work, ReadFault>
    ensures { Reads result (work_fault (table_view table.now)) (λ w. plain_work w ≡ work_of (table_view table.now)) }
{
    number(alloc, table, "", "version", 1, 1, None)?;
    let entries = list(alloc, table, "", "submitter", 0, 16)?;
    let submitters = submitters_from(alloc, entries)?;
    let counts = counts(alloc, submitters.as_slice())?;
    let total = sum_of(counts.as_slice());
    let entries = list(alloc, table, "", "act", 0, 64)?;
    let acts = acts_from(alloc, counts.as_slice(), total, entries)?;
    if is_too_large(total, submitters.as_slice()) {
        return Err(fault(alloc, "", "submitter", BadKind::Clash));
    }
    refuse_unknown(alloc, table, "", &KEYS)?;
    Ok(Work {
        submitters: fill::submitters(alloc, submitters.as_slice())?,
        acts: Acts::of(acts),
    })
}

/// The work that the bytes spell, or their first fault.
///
/// A file that isn't UTF-8 or that `toml` refuses is NotToml at the empty key. The keys are checked in the order of the
/// schema, tables in file order; at each key Missing, WrongType and OutOfRange in that order, and after a table's own keys
/// Clash, then Unknown at the least key that is none of them. Nothing of the rig is looked at: a command may name a unit that
/// isn't there, and is then refused when it is built.
pub fn read_work(alloc: Global, bytes: &[u8], _rig: &Rig) -> Result<Work, ReadFault>
    ensures { ReadsFile result bytes.now work_fault (λ ms w. plain_work w ≡ work_of ms) }
{
    let table = document(alloc, bytes)?;
    work_from(alloc, &table)
}

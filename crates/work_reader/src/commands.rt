//! The commands of a submitter in the work file.

ghost use Rattle.std.specs.Prelude.{◌≡◌, ◌≤◌, ⊤, IfOk, map, length};
ghost use Rattle.std.specs.List.{All};
ghost use Rattle.toml.specs.View.{view, table_view, items_view};
ghost use Rattle.file_keys.specs.Faults.{Reads};
ghost use Rattle.file_keys.specs.Keys.{entries_fault, entries_of};
ghost use Rattle.work_reader.specs.WorkFile.{direction_of, when_full_of, plain_spelled, segment_fault, segment_of, segments_fault, segments_of, command_table_fault, command_of, command_fault, command_in, IsSpelled};

use crate::spelled::Spelled;
use file_keys::{
    choice, entry_prefix, flag, hex, list, number, number_in, refuse_unknown, table_at,
};
use rig_types::{ReadFault, WhenFull};
use scsi_words::Direction;
use std::alloc::Global;
use toml::{Table, Value};

/// The keys of a `command`.
const KEYS: [&str; 7] = [
    "unit",
    "cdb",
    "segments",
    "direction",
    "fill",
    "when_full",
    "wait",
];

/// The direction that a word's place names.
fn direction(place: usize) -> Direction
    ensures { result ≡ direction_of place }
{
    if place == 0 {
        Direction::In
    } else if place == 1 {
        Direction::Out
    } else {
        Direction::None
    }
}

/// What a word's place says of a full unit.
fn when_full(place: usize) -> WhenFull
    ensures { result ≡ when_full_of place }
{
    if place == 0 {
        WhenFull::Wait
    } else {
        WhenFull::Skip
    }
}

/// The n-th segment.
fn segment(alloc: Global, prefix: &str, n: usize, value: &Value) -> Result<u32, ReadFault>
    ensures reads { Reads result (segment_fault prefix.now n (view value.now)) (λ x. x ≡ segment_of (view value.now)) }
    ensures in_range { IfOk result (λ x. x ≤ 131072) }
{
    let key = format!(in alloc; "segments[{n}]")?;
    number_in(alloc, value, prefix, key.as_str(), 0, 131_072)
}

/// The segments of a list.
fn segments(alloc: Global, prefix: &str, entries: &[Value]) -> Result<Vec<u32>, ReadFault>
    ensures reads { Reads result (entries_fault (segment_fault prefix.now) 0 (items_view entries.now)) (λ v. v.items ≡ entries_of segment_of (items_view entries.now)) }
    ensures len { IfOk result (λ v. length v.items ≡ length entries.now) }
    ensures in_range { IfOk result (λ v. All (λ n. n ≤ 131072) v.items) }
{
    let mut out = Vec::new(alloc);
    for (n, value) in entries.iter().enumerate() {
        let x = segment(alloc, prefix, n, value)?;
        out.push(x)?;
    }
    Ok(out)
}

/// The command of a table.
fn command_of_table(alloc: Global, prefix: &str, table: &Table) -> Result<Spelled, ReadFault>
    ensures reads { Reads result (command_table_fault prefix.now (table_view table.now)) (λ c. plain_spelled c ≡ command_of (table_view table.now)) }
    ensures in_range { IfOk result IsSpelled }
{
    let unit = number(alloc, table, prefix, "unit", 0, 255, None)? as u8;
    let cdb = hex(alloc, table, prefix, "cdb", 16)?;
    let entries = list(alloc, table, prefix, "segments", 0, 64)?;
    let segments = segments(alloc, prefix, entries)?;
    let way = choice(
        alloc,
        table,
        prefix,
        "direction",
        &["in", "out", "none"],
        Some(2),
    )?;
    let fill = number(alloc, table, prefix, "fill", 0, 255, Some(0))? as u8;
    let full = choice(
        alloc,
        table,
        prefix,
        "when_full",
        &["wait", "skip"],
        Some(0),
    )?;
    let wait = flag(alloc, table, prefix, "wait", false)?;
    refuse_unknown(alloc, table, prefix, &KEYS)?;
    Ok(Spelled {
        unit,
        cdb,
        segments,
        direction: direction(way),
        fill,
        when_full: when_full(full),
        wait,
    })
}

/// The command that an entry is.
pub fn command_at(
    alloc: Global,
    prefix: &str,
    n: usize,
    value: &Value,
) -> Result<Spelled, ReadFault>
    ensures reads { Reads result (command_fault prefix.now n (view value.now)) (λ c. plain_spelled c ≡ command_in (view value.now)) }
    ensures in_range { IfOk result IsSpelled }
{
    let table = table_at(alloc, value, prefix, "command", n)?;
    let inner = entry_prefix(alloc, prefix, "command", n)?;
    command_of_table(alloc, inner.as_str(), table)
}

/// The commands of a list.
pub fn commands_from(
    alloc: Global,
    prefix: &str,
    entries: &[Value],
) -> Result<Vec<Spelled>, ReadFault>
    ensures reads { Reads result (entries_fault (command_fault prefix.now) 0 (items_view entries.now)) (λ v. map plain_spelled v.items ≡ entries_of command_in (items_view entries.now)) }
    ensures in_range { IfOk result (λ v. All IsSpelled v.items) }
{
    let mut out = Vec::new(alloc);
    for (n, value) in entries.iter().enumerate() {
        let x = command_at(alloc, prefix, n, value)?;
        out.push(x)?;
    }
    Ok(out)
}

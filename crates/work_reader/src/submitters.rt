//! The submitters of the work file.

ghost use Rattle.std.specs.Prelude.{◌≡◌, IfOk, map, length};
ghost use Rattle.std.specs.List.{All};
ghost use Rattle.toml.specs.View.{view, table_view, items_view};
ghost use Rattle.file_keys.specs.Faults.{Reads};
ghost use Rattle.file_keys.specs.Keys.{entries_fault, entries_of};
ghost use Rattle.work_reader.specs.WorkFile.{plain_spelled, submitter_table_fault, submitter_fault, submitter_of, submitter_in, views, IsSpelled};

use crate::commands::commands_from;
use crate::spelled::Spelled;
use file_keys::{entry_prefix, list, refuse_unknown, table_at};
use rig_types::ReadFault;
use std::alloc::Global;
use toml::{Table, Value};

/// The commands of a submitter's table.
fn submitter_of_table(alloc: Global, prefix: &str, table: &Table) -> Result<Vec<Spelled>, ReadFault>
    ensures reads { Reads result (submitter_table_fault prefix.now (table_view table.now)) (λ v. map plain_spelled v.items ≡ submitter_of (table_view table.now)) }
    ensures in_range { IfOk result (λ v. All IsSpelled v.items) }
{
    let entries = list(alloc, table, prefix, "command", 0, usize::MAX)?;
    let commands = commands_from(alloc, prefix, entries)?;
    refuse_unknown(alloc, table, prefix, &["command"])?;
    Ok(commands)
}

/// The commands of the n-th submitter, of an entry of the list.
fn submitter_at(alloc: Global, n: usize, value: &Value) -> Result<Vec<Spelled>, ReadFault>
    ensures reads { Reads result (submitter_fault n (view value.now)) (λ v. map plain_spelled v.items ≡ submitter_in (view value.now)) }
    ensures in_range { IfOk result (λ v. All IsSpelled v.items) }
{
    let table = table_at(alloc, value, "", "submitter", n)?;
    let inner = entry_prefix(alloc, "", "submitter", n)?;
    submitter_of_table(alloc, inner.as_str(), table)
}

/// The submitters of a list.
pub fn submitters_from(alloc: Global, entries: &[Value]) -> Result<Vec<Vec<Spelled>>, ReadFault>
    ensures reads { Reads result (entries_fault submitter_fault 0 (items_view entries.now)) (λ v. views v.items ≡ entries_of submitter_in (items_view entries.now)) }
    ensures len { IfOk result (λ v. length v.items ≡ length entries.now) }
    ensures in_range { IfOk result (λ v. All (λ s. All IsSpelled s.items) v.items) }
{
    let mut out = Vec::new(alloc);
    for (n, value) in entries.iter().enumerate() {
        let x = submitter_at(alloc, n, value)?;
        out.push(x)?;
    }
    Ok(out)
}

//! The acts of the work file.

ghost use Rattle.std.specs.Prelude.{◌≡◌, ◌∷◌, ◌-◌, ◌^◌, ⊤, IfOk, length, min, sum};
ghost use Rattle.std.specs.List.{All};
ghost use Rattle.rig_types.specs.Works.{IsAct};
ghost use Rattle.toml.specs.View.{view, table_view, items_view};
ghost use Rattle.file_keys.specs.Faults.{Reads};
ghost use Rattle.file_keys.specs.Keys.{entries_fault, entries_of, unknown_fault, names_of};
ghost use Rattle.work_reader.specs.WorkFile.{kind_fault, kind_of, kind_key, after_key, kind_keys, no_line, act_table_fault, act_of, act_fault, act_in, HasTarget};

use file_keys::{choice, entry_prefix, fault, number, refuse_unknown, table_at};
use rig_types::{Act, ActKind, BadKind, Line, ReadFault};
use std::alloc::Global;
use toml::{Table, Value};

/// What the keys of a kind say: the kind is its place among the words of `kind`.
fn kind(alloc: Global, prefix: &str, kind: usize, table: &Table) -> Result<ActKind, ReadFault>
    ensures reads { Reads result (kind_fault prefix.now kind (table_view table.now)) (λ k. k ≡ kind_of kind (table_view table.now)) }
    ensures in_range { IfOk result HasTarget }
{
    if kind == 0 {
        let submitter = number(alloc, table, prefix, "submitter", 0, 65_535, None)? as u16;
        let number = number(alloc, table, prefix, "command", 0, 4_294_967_295, None)?;
        return Ok(ActKind::Abort(Line { submitter, number }));
    }
    if kind == 1 {
        let target = number(alloc, table, prefix, "target", 0, 6, None)? as u8;
        return Ok(ActKind::Device(target));
    }
    Ok(ActKind::Bus)
}

/// Whether an abort names a line that isn't there.
fn lacks_line(counts: &[u64], kind: &ActKind) -> bool
    ensures { result ≡ no_line counts.now kind.now }
{
    match kind {
        ActKind::Abort(line) => match counts.get(line.submitter as usize) {
            Some(count) => *count <= u64::from(line.number),
            None => true,
        },
        _ => false,
    }
}

/// Refuses the keys that aren't those of the kind.
fn refuse_unknown_of(
    alloc: Global,
    prefix: &str,
    kind: usize,
    table: &Table,
) -> Result<(), ReadFault>
    ensures { Reads result (unknown_fault prefix.now (names_of (kind_key ∷ after_key ∷ kind_keys kind)) (table_view table.now)) (λ _. ⊤) }
{
    if kind == 0 {
        refuse_unknown(
            alloc,
            table,
            prefix,
            &["kind", "after", "submitter", "command"],
        )
    } else if kind == 1 {
        refuse_unknown(alloc, table, prefix, &["kind", "after", "target"])
    } else {
        refuse_unknown(alloc, table, prefix, &["kind", "after"])
    }
}

/// The act of a table.
fn act_of_table(
    alloc: Global,
    prefix: &str,
    counts: &[u64],
    total: u64,
    table: &Table,
) -> Result<Act, ReadFault>
    requires { total ≡ min (sum counts.now) (2 ^ 64 - 1) }
    ensures reads { Reads result (act_table_fault prefix.now counts.now (table_view table.now)) (λ a. a ≡ act_of (table_view table.now)) }
    ensures valid { IfOk result (IsAct counts.now) }
{
    let place = choice(
        alloc,
        table,
        prefix,
        "kind",
        &["abort", "device", "bus"],
        None,
    )?;
    let kind = kind(alloc, prefix, place, table)?;
    let after = number(alloc, table, prefix, "after", 0, 4_294_967_295, Some(0))?;
    if lacks_line(counts, &kind) {
        return Err(fault(alloc, prefix, "command", BadKind::Clash));
    }
    if total < u64::from(after) {
        return Err(fault(alloc, prefix, "after", BadKind::Clash));
    }
    refuse_unknown_of(alloc, prefix, place, table)?;
    Ok(Act { kind, after })
}

/// The n-th act, of an entry of the list.
fn act_at(
    alloc: Global,
    n: usize,
    counts: &[u64],
    total: u64,
    value: &Value,
) -> Result<Act, ReadFault>
    requires { total ≡ min (sum counts.now) (2 ^ 64 - 1) }
    ensures reads { Reads result (act_fault counts.now n (view value.now)) (λ a. a ≡ act_in (view value.now)) }
    ensures valid { IfOk result (IsAct counts.now) }
{
    let table = table_at(alloc, value, "", "act", n)?;
    let inner = entry_prefix(alloc, "", "act", n)?;
    act_of_table(alloc, inner.as_str(), counts, total, table)
}

/// The acts of a list. `counts` is how many commands each submitter has, and `total` their sum.
pub fn acts_from(
    alloc: Global,
    counts: &[u64],
    total: u64,
    entries: &[Value],
) -> Result<Vec<Act>, ReadFault>
    requires { total ≡ min (sum counts.now) (2 ^ 64 - 1) }
    ensures reads { Reads result (entries_fault (act_fault counts.now) 0 (items_view entries.now)) (λ v. v.items ≡ entries_of act_in (items_view entries.now)) }
    ensures len { IfOk result (λ v. length v.items ≡ length entries.now) }
    ensures valid { IfOk result (λ v. All (IsAct counts.now) v.items) }
{
    let mut out = Vec::new(alloc);
    for (n, value) in entries.iter().enumerate() {
        let x = act_at(alloc, n, counts, total, value)?;
        out.push(x)?;
    }
    Ok(out)
}

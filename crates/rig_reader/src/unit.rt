//! The units of the rig file.

ghost use Rattle.std.specs.Prelude.{◌≡◌, ⊤, IfOk, [], length};
ghost use Rattle.std.specs.List.{All, AllPairs, list_any};
ghost use Rattle.toml.specs.View.{view, table_view, items_view};
ghost use Rattle.rig_types.specs.Ranges.{IsUnit, Agree, IsInRange, most_depth as depth_limit};
ghost use Rattle.file_keys.specs.Faults.{Reads, first};
ghost use Rattle.rig_reader.specs.RigFile.{has_place, absence_differs, rogue_differs, pattern_of, keys_fault, unit_of, clashes, unit_table_fault, unit_fault, unit_in, units_fault, units_of};

use file_keys::{choice, entry_prefix, fault, flag, number, refuse_unknown, table_at};
use rig_types::{BadKind, Pattern, ReadFault, Unit};
use std::alloc::Global;
use toml::{Table, Value};

/// The keys of a `unit`.
const KEYS: [&str; 9] = [
    "target",
    "lun",
    "blocks",
    "pattern",
    "depth",
    "disconnects",
    "refusals",
    "absent",
    "rogue",
];

/// The pattern that a word's place names.
fn pattern(place: usize) -> Pattern
    ensures { result ≡ pattern_of place }
{
    if place == 0 {
        Pattern::Zero
    } else {
        Pattern::Count
    }
}

/// The greatest depth of a unit.
fn most_depth(version: u8) -> u32
    ensures { result ≡ depth_limit version }
{
    if version == 2 { 256 } else { 64 }
}

/// What a unit's keys say.
fn unit_values(alloc: Global, version: u8, prefix: &str, table: &Table) -> Result<Unit, ReadFault>
    ensures reads { Reads result (keys_fault version prefix.now (table_view table.now)) (λ u. u ≡ unit_of version (table_view table.now)) }
    ensures in_range { IfOk result (IsInRange version) }
{
    let target = number(alloc, table, prefix, "target", 0, 6, None)? as u8;
    let lun = number(alloc, table, prefix, "lun", 0, 7, None)? as u8;
    let blocks = number(alloc, table, prefix, "blocks", 1, 4096, None)?;
    let place = choice(alloc, table, prefix, "pattern", &["zero", "count"], Some(0))?;
    let depth = number(
        alloc,
        table,
        prefix,
        "depth",
        1,
        most_depth(version),
        Some(16),
    )? as u16;
    let disconnects = number(alloc, table, prefix, "disconnects", 0, 8, Some(2))? as u8;
    let refusals = number(alloc, table, prefix, "refusals", 0, 8, Some(0))? as u8;
    let absent = flag(alloc, table, prefix, "absent", false)?;
    let rogue = flag(alloc, table, prefix, "rogue", false)?;
    Ok(Unit {
        target,
        lun,
        blocks,
        pattern: pattern(place),
        depth,
        disconnects,
        refusals,
        absent,
        rogue,
    })
}

/// Whether an earlier unit has the target and the LUN.
fn has_place(earlier: &[Unit], unit: &Unit) -> bool
    ensures { result ≡ list_any (λ e. has_place e unit.now) earlier.now }
{
    earlier
        .iter()
        .any(|e| e.target == unit.target && e.lun == unit.lun)
}

/// Whether an earlier unit of the target is absent and this one not, or the other way round.
fn absence_differs(earlier: &[Unit], unit: &Unit) -> bool
    ensures { result ≡ list_any (λ e. absence_differs e unit.now) earlier.now }
{
    earlier
        .iter()
        .any(|e| e.target == unit.target && e.absent != unit.absent)
}

/// Whether an earlier unit of the target is rogue and this one not, or the other way round.
fn rogue_differs(earlier: &[Unit], unit: &Unit) -> bool
    ensures { result ≡ list_any (λ e. rogue_differs e unit.now) earlier.now }
{
    earlier
        .iter()
        .any(|e| e.target == unit.target && e.rogue != unit.rogue)
}

/// Refuses a unit that clashes with an earlier one.
fn refuse_clash(alloc: Global, prefix: &str, earlier: &[Unit], unit: &Unit) -> Result<(), ReadFault>
    ensures { Reads result (first (clashes prefix.now earlier.now unit.now)) (λ _. ⊤) }
{
    if has_place(earlier, unit) {
        return Err(fault(alloc, prefix, "lun", BadKind::Clash));
    }
    if absence_differs(earlier, unit) {
        return Err(fault(alloc, prefix, "absent", BadKind::Clash));
    }
    if rogue_differs(earlier, unit) || (unit.absent && unit.rogue) {
        return Err(fault(alloc, prefix, "rogue", BadKind::Clash));
    }
    Ok(())
}

/// The unit that a table is, after the units before it.
fn unit_of_table(
    alloc: Global,
    version: u8,
    prefix: &str,
    earlier: &[Unit],
    table: &Table,
) -> Result<Unit, ReadFault>
    ensures reads { Reads result (unit_table_fault version prefix.now earlier.now (table_view table.now)) (λ u. u ≡ unit_of version (table_view table.now)) }
    ensures valid { IfOk result (IsUnit version) }
    ensures agree { IfOk result (λ u. All (λ e. Agree e u) earlier.now) }
{
    let unit = unit_values(alloc, version, prefix, table)?;
    refuse_clash(alloc, prefix, earlier, &unit)?;
    refuse_unknown(alloc, table, prefix, &KEYS)?;
    Ok(unit)
}

/// The unit that an entry of the list is.
fn unit_at(
    alloc: Global,
    version: u8,
    n: usize,
    earlier: &[Unit],
    value: &Value,
) -> Result<Unit, ReadFault>
    ensures reads { Reads result (unit_fault version n earlier.now (view value.now)) (λ u. u ≡ unit_in version (view value.now)) }
    ensures valid { IfOk result (IsUnit version) }
    ensures agree { IfOk result (λ u. All (λ e. Agree e u) earlier.now) }
{
    let table = table_at(alloc, value, "", "unit", n)?;
    let prefix = entry_prefix(alloc, "", "unit", n)?;
    unit_of_table(alloc, version, prefix.as_str(), earlier, table)
}

/// The units of a list.
pub fn units_from(alloc: Global, version: u8, entries: &[Value]) -> Result<Vec<Unit>, ReadFault>
    ensures reads { Reads result (units_fault version 0 [] (items_view entries.now)) (λ us. us.items ≡ units_of version (items_view entries.now)) }
    ensures len { IfOk result (λ us. length us.items ≡ length entries.now) }
    ensures valid { IfOk result (λ us. All (IsUnit version) us.items) }
    ensures agree { IfOk result (λ us. AllPairs Agree us.items) }
{
    let mut units = Vec::new(alloc);
    for (n, value) in entries.iter().enumerate() {
        let unit = unit_at(alloc, version, n, units.as_slice(), value)?;
        units.push(unit)?;
    }
    Ok(units)
}

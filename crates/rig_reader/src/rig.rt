//! The rig file.

ghost use Rattle.std.specs.Prelude.{◌≡◌, ◌≤◌, length};
ghost use Rattle.toml.specs.View.{table_view};
ghost use Rattle.rig_types.specs.Ranges.{depths};
ghost use Rattle.file_keys.specs.Faults.{Reads};
ghost use Rattle.file_keys.specs.Documents.{ReadsFile};
ghost use Rattle.rig_reader.specs.RigFile.{plain, rig_fault, rig_of};

use crate::unit::units_from;
use file_keys::{document, fault, flag, list, number, refuse_unknown};
use rig_types::{BadKind, ReadFault, Rig, Unit, Units};
use std::alloc::Global;
use toml::Table;

/// The keys of the file.
const KEYS: [&str; 5] = ["version", "retries", "step_limit", "autosense", "unit"];

/// The sum of the depths.
fn sum_of_depths(units: &[Unit]) -> u32
    requires { length units.now ≤ 16 }
    ensures { result ≡ depths units.now }
{
    units.iter().map(|u| u32::from(u.depth)).sum()
}

/// The rig of a table.
fn rig_from(alloc: Global, table: &Table) -> Result<Rig, ReadFault>
    ensures { Reads result (rig_fault (table_view table.now)) (λ r. plain r ≡ rig_of (table_view table.now)) }
{
    let version = number(alloc, table, "", "version", 1, 2, None)? as u8;
    let retries = number(alloc, table, "", "retries", 0, 8, Some(3))? as u8;
    let step_limit = number(
        alloc,
        table,
        "",
        "step_limit",
        1,
        4_194_304,
        Some(1_048_576),
    )?;
    let autosense = flag(alloc, table, "", "autosense", version == 2)?;
    let entries = list(alloc, table, "", "unit", 1, 16)?;
    let units = units_from(alloc, version, entries)?;
    if sum_of_depths(units.as_slice()) > 256 {
        return Err(fault(alloc, "", "unit", BadKind::Clash));
    }
    refuse_unknown(alloc, table, "", &KEYS)?;
    Ok(Rig {
        version,
        units: Units::of(units),
        retries,
        step_limit,
        autosense,
    })
}

/// The rig that the bytes spell, or their first fault.
///
/// A file that isn't UTF-8 or that `toml` refuses is NotToml at the empty key. The keys are checked in the order of the
/// schema, units in file order; at each key Missing, WrongType and OutOfRange in that order, and after a table's own keys
/// Clash, then Unknown at the least key that is none of them.
pub fn read_rig(alloc: Global, bytes: &[u8]) -> Result<Rig, ReadFault>
    ensures { ReadsFile result bytes.now rig_fault (λ ms r. plain r ≡ rig_of ms) }
{
    let table = document(alloc, bytes)?;
    rig_from(alloc, &table)
}

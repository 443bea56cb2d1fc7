//! The blocks that differ from their opening.

ghost use Rattle.std.specs.Prelude.{◌≡◌, ◌<◌, ◌++◌, length, IfOk, OnOk, string_bytes};
ghost use Rattle.report_text.specs.Text.{image_if, image_name, image_text, is_changed};

use plain_lun::pattern_byte;
use report_lines::data_lines;
use rig_types::Unit;
use std::alloc::{AllocError, Global};

/// Puts a block of a unit, below 4,096, at the end of a text where it differs from its opening: its name and its 512
/// bytes.
pub fn push_block(
    alloc: Global,
    text: &mut Vec<u8>,
    unit: &Unit,
    block: u32,
    bytes: &[u8],
) -> Result<(), AllocError>
    requires block { block < 4096 }
    requires bytes { length bytes.now ≡ 512 }
    ensures { OnOk result (text.new.items ≡ text.old.items ++ image_if (is_changed unit.now.pattern block bytes.now) unit.now.target unit.now.lun block bytes.now) }
{
    if is_changed(unit, block, bytes) {
        push_image(alloc, text, unit, block, bytes)
    } else {
        Ok(())
    }
}

fn push_image(
    alloc: Global,
    text: &mut Vec<u8>,
    unit: &Unit,
    block: u32,
    bytes: &[u8],
) -> Result<(), AllocError>
    ensures { OnOk result (text.new.items ≡ text.old.items ++ image_text unit.now.target unit.now.lun block bytes.now) }
{
    let name = name_of(alloc, unit.target, unit.lun, block)?;
    text.extend_from_slice(name.as_bytes())?;
    let data = data_lines(alloc, bytes)?;
    text.extend_from_slice(data.as_slice())
}

fn is_changed(unit: &Unit, block: u32, bytes: &[u8]) -> bool
    requires block { block < 4096 }
    requires bytes { length bytes.now ≡ 512 }
    ensures { result ≡ is_changed unit.now.pattern block bytes.now }
{
    (0..512).any(|i| bytes[i] != pattern_byte(unit.pattern, block as usize, i))
}

fn name_of(alloc: Global, target: u8, lun: u8, block: u32) -> Result<String, AllocError>
    ensures { IfOk result (λ name. string_bytes name ≡ image_name target lun block) }
{
    let name = format!(in alloc; "image {target}.{lun} block {block}\n")?;
    Ok(name)
}

//! A target with several units.

use rig_types::{Pattern, Unit};
use scsi_target::Device;
use std::process::Abort;
use std::test::Fail;

const FIRST: Unit = Unit {
    target: 6,
    lun: 0,
    blocks: 4096,
    pattern: Pattern::Count,
    depth: 64,
    disconnects: 8,
    refusals: 8,
    absent: false,
    rogue: false,
};

const LAST: Unit = Unit {
    target: 6,
    lun: 7,
    blocks: 1,
    pattern: Pattern::Zero,
    depth: 1,
    disconnects: 0,
    refusals: 0,
    absent: false,
    rogue: false,
};

#[test]
fn units_of_most_and_of_least(rt: HostRuntime) -> Result<(), Fail> {
    let device = Device::open(rt.alloc(), &[FIRST, LAST])?;
    assert!(rt; !device.connected());
    Ok(())
}

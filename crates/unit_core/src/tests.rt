use super::*;
use rig_types::Pattern;
use std::process::Abort;
use std::test::Fail;

#[test]
fn opens_a_unit(rt: HostRuntime) -> Result<(), Fail> {
    let unit = Unit {
        target: 0,
        lun: 3,
        blocks: 2,
        pattern: Pattern::Count,
        depth: 4,
        disconnects: 1,
        refusals: 0,
        absent: false,
        rogue: false,
    };
    let core = Core::open(rt.alloc(), &unit)?;
    assert_eq!(rt; core.log.spare(), 0);
    Ok(())
}

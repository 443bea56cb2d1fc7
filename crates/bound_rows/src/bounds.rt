//! The bound of one READ, of forty commands with acts, and of the largest generated work.

use rig_reader::read_rig;
use rig_types::ReadFault;
use serial_run::{bound, generated_rig, generated_work};
use std::alloc::Global;
use std::test::Fail;
use work_reader::read_work;

/// One unit, with all other keys at their defaults.
const RIG: &str = "version = 1\n[[unit]]\ntarget = 0\nlun = 0\nblocks = 64\n";

const SUBMITTER: &str = "[[submitter]]\n";

const COMMAND: &str =
    "[[submitter.command]]\nunit = 0\ncdb = \"28000000000300000100\"\nsegments = [512]\ndirection = \"in\"\n";
/// Two aborts and a device reset.
const ACTS: &str =
    "[[act]]\nkind = \"abort\"\nsubmitter = 0\ncommand = 3\nafter = 5\n[[act]]\nkind = \"abort\"\nsubmitter = 1\ncommand = 3\nafter = 5\n[[act]]\nkind = \"device\"\ntarget = 0\nafter = 5\n";

/// The bound over `RIG` and a work of so many submitters with so many commands each.
fn bound_of(alloc: Global, submitters: u32, commands: u32, acts: &str) -> Result<u64, ReadFault> {
    let mut text = String::from_str(alloc, "version = 1\n")?;
    for _ in 0..submitters {
        text.push_str(SUBMITTER)?;
        for _ in 0..commands {
            text.push_str(COMMAND)?;
        }
    }
    text.push_str(acts)?;
    let rig = read_rig(alloc, RIG.as_bytes())?;
    let work = read_work(alloc, text.as_bytes(), &rig)?;
    Ok(bound(&rig, &work))
}

#[test]
fn bounds_are_counted(rt: HostRuntime) -> Result<(), Fail> {
    let alloc = rt.alloc();
    assert!(rt; matches!(bound_of(alloc, 1, 1, ""), Ok(4_352)));
    assert!(rt; matches!(bound_of(alloc, 4, 10, ACTS), Ok(165_888)));
    let rig = generated_rig(alloc)?;
    let work = generated_work(alloc, 2_000, 7)?;
    assert_eq!(rt; bound(&rig, &work), 1_536_256);
    Ok(())
}

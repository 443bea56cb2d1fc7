//! The buffer region is full, and has room again after a Free.

use crate::actions::{Action, failure_of};
use desk_law::Refused;
use rig_types::{Line, Step};
use std::alloc::{AllocError, Global};
use std::test::Fail;
use world_law::Reply;

/// One unit, of which 64 tickets may live.
const DEEP: &str = r#"version = 1
[[unit]]
target = 0
lun = 0
blocks = 64
depth = 64
"#;

const HEAD: &str = r#"version = 1
[[submitter]]
command = [
"#;

/// TEST UNIT READY with a buffer as large as a buffer may be, and with one of 512 bytes.
const WHOLE_UNIT: &str =
    r#"{ unit = 0, cdb = "000000000000", segments = [65536], direction = "in" },
"#;

const LITTLE: &str = r#"{ unit = 0, cdb = "000000000000", segments = [512], direction = "in" } ]
"#;

const LINE_32: Line = Line {
    submitter: 0,
    number: 32,
};

/// Thirty-two large buffers, and a little one.
fn work(alloc: Global) -> Result<String, AllocError> {
    let mut text = String::from_str(alloc, HEAD)?;
    for _ in 0..32 {
        text.push_str(WHOLE_UNIT)?;
    }
    text.push_str(LITTLE)?;
    Ok(text)
}

const ROOM_AGAIN: [Action; 6] = [
    Action::SubmitsAll(32),
    Action::Passes(
        0,
        Step::Build(LINE_32),
        Reply::Refused(Refused::RegionFull { len: 512 }),
    ),
    Action::RunsTo(0, 0),
    Action::Collects(0),
    Action::Makes(0, Step::Build(LINE_32), Reply::Built(32)),
    Action::Makes(0, Step::Link(32), Reply::Made),
];

#[test]
fn a_free_makes_room(rt: HostRuntime) -> Result<(), Fail> {
    let text = work(rt.alloc())?;
    let failure = failure_of(rt.alloc(), (DEEP, text.as_str()), &ROOM_AGAIN, &[])?;
    assert!(rt; failure.is_none(), "{failure:?}");
    Ok(())
}

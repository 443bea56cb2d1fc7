//! Each command once on its happy path.

use super::*;
use serial_run::{generated_rig, generated_work};
use std::test::Fail;
use trace_text::read;

#[test]
fn load_tells_its_totals(rt: HostRuntime) {
    let table = [
        (
            0,
            "load 0 seed 7 steps 0\n",
            "total reports 0 done 0 cut 0 reset 0 notarget 0 broken 0\n",
        ),
        (
            8,
            "load 8 seed 7 steps ",
            "total reports 8 done 8 cut 0 reset 0 notarget 0 broken 0\n",
        ),
    ];
    for (n, first, totals) in table {
        assert!(rt; n <= 2000);
        let text = load_text(rt.alloc(), n, 7).expect(&rt, "a drained run");
        assert!(rt; text.as_slice().starts_with(first.as_bytes()), "{n}");
        assert!(rt; text.as_slice().ends_with(totals.as_bytes()), "{n}");
    }
}

#[test]
fn a_run_is_replayed(rt: HostRuntime) -> Result<(), Fail> {
    let alloc = rt.alloc();
    let texts = step_run(
        alloc,
        generated_rig(alloc)?,
        generated_work(alloc, 8, 7)?,
        7,
    )
    .expect(&rt, "a drained run");
    let trace = texts.trace.as_slice();
    assert!(rt; trace.len() < 4_294_967_295);
    let lines = read(alloc, trace, 1).expect(&rt, "a trace");
    let report = replay_text(
        alloc,
        generated_rig(alloc)?,
        generated_work(alloc, 8, 7)?,
        lines.as_slice(),
    )
    .expect(&rt, "a replay");
    assert!(rt; !lines.as_slice().is_empty());
    assert!(rt; report.as_slice() == texts.report.as_slice());
    Ok(())
}

//! Real threads: they end, and the list has each caller's entries in their order.
use crate::{Bounds, Counter, run};
use std::test::Fail;

const CALLERS: u32 = 6;

const STEPS: u32 = 2_000;

/// A smaller step is left out.
const LEAST: u32 = 1_000;

#[test]
fn callers_in_threads(rt: HostRuntime) -> Result<(), Fail> {
    let bounds = Bounds {
        least: LEAST,
        limit: u64::MAX,
        most: 6_000,
    };
    let counter = Counter::new(rt.alloc(), bounds)?;
    let counter = run(&rt, rt.alloc(), counter, CALLERS, STEPS)?;
    assert_eq!(rt; counter.entries().len(), 6_000);
    // each caller's steps, 1,000 to 1,999, add up to 1,000 * 2,999 / 2
    assert_eq!(rt; counter.sum(), 6 * 1_499_500);
    for caller in 0..CALLERS {
        let own = counter.entries().iter().filter(|&&(by, _)| by == caller);
        let mut next = LEAST;
        for &(_, step) in own {
            assert_eq!(rt; step, next, "of caller {caller}");
            next += 1;
        }
        assert_eq!(rt; next, STEPS);
    }
    Ok(())
}

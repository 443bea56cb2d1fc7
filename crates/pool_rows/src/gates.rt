//! Gates that hold a caller up until another one has come to a place. A gate gives up after so many turns, so that callers
//! who wait for each other on one thread end too.

use bench_pool::{Gate, Place};
use std::hint;
use std::sync::atomic::{AtomicU64, Ordering};

/// How often a caller that is held up looks whether it may go on.
const TURNS: u32 = 200_000_000;

/// How often something came to pass, and whether a caller gave up waiting for it.
#[derive(Drop)]
pub struct Mark {
    times: AtomicU64,
    given_up: AtomicU64,
}

impl Mark {
    pub fn new() -> Mark {
        Mark {
            times: AtomicU64::new(0),
            given_up: AtomicU64::new(0),
        }
    }

    fn passed(&self) {
        self.times.fetch_add(1, Ordering::SeqCst);
    }

    /// Holds a caller up until it came to pass so often.
    fn wait_for(&self, times: u64) {
        for _ in 0..TURNS {
            if self.times.load(Ordering::SeqCst) >= times {
                return;
            }
            hint::spin_loop();
        }
        self.given_up.store(1, Ordering::SeqCst);
    }

    /// Whether nobody gave up.
    pub fn served_all(&self) -> bool {
        self.given_up.load(Ordering::SeqCst) == 0
    }
}

/// Submitter 0 is held before its Queue until a ticket was freed, which is then one of submitter 1.
#[derive(Drop)]
pub struct QueueAfterFree {
    pub freed: Mark,
}

impl Gate for QueueAfterFree {
    fn pass(&self, caller: u32, place: Place) {
        match place {
            Place::BeforeQueue if caller == 0 => self.freed.wait_for(1),
            Place::Freed(_) => self.freed.passed(),
            _ => {}
        }
    }
}

/// Each of four submitters is held before its Build until all four were there.
#[derive(Drop)]
pub struct BuildTogether {
    pub there: Mark,
}

impl Gate for BuildTogether {
    fn pass(&self, _caller: u32, place: Place) {
        if place == Place::BeforeBuild {
            self.there.passed();
            self.there.wait_for(4);
        }
    }
}

/// Submitter 1 is held before its Build until ticket 0 was freed, and the reaper is held there until submitter 1 has come to
/// its Signal.
#[derive(Drop)]
pub struct SignalBesideFree {
    pub freed: Mark,
    pub signals: Mark,
}

impl Gate for SignalBesideFree {
    fn pass(&self, caller: u32, place: Place) {
        match place {
            Place::BeforeBuild if caller == 1 => self.freed.wait_for(1),
            Place::BeforeSignal if caller == 1 => self.signals.passed(),
            Place::Freed(0) => {
                self.freed.passed();
                self.signals.wait_for(1);
            }
            _ => {}
        }
    }
}

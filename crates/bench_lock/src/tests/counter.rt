//! A sum with a limit, and the steps that made it.
ghost use Rattle.std.specs.Prelude.{◌≡◌, ◌+◌, ◌≤◌, ◌^◌, ◌<◌, ◌==◌, ◌&&◌, not, length, sum_by, IfSome, is_some};

use crate::machine::Machine;
use std::alloc::Global;

#[derive(Drop)]
pub struct Counter {
    limit: u64,
    sum: u64,
    log: Vec<(u32, u32)>,
    ghost summed: { sum ≡ sum_by (λ e. e.1) log.items },
    ghost short: { length log.items < 2 ^ 32 },
}

impl Counter {
    pub fn new(alloc: Global, limit: u64) -> Counter {
        Counter {
            limit,
            sum: 0,
            log: Vec::new(alloc),
        }
    }

    pub fn entries(&self) -> &[(u32, u32)] {
        &self.log
    }
}

impl Machine for Counter {
    type Step = u32;

    type Reply = Option<u64>;

    type Opening = u64;

    ghost opening = { λ s. s.limit };

    ghost list = { λ s. s.log.items };

    ghost allows = { λ limit es by x reply. IfSome reply (λ n. (n ≡ sum_by (λ e. e.1) es + x) × (n ≤ limit)) };

    ghost records = { λ limit step reply. is_some reply && not (step == 0) };

    /// Adds the step to the sum. A step of 0 isn't recorded, though it has the reply of any other.
    fn step(&mut self, caller: u32, step: u32) -> Option<u64> {
        let Counter { limit, sum, log } = self;
        if log.len() >= 4_294_967_295 || *sum > *limit || u64::from(step) > *limit - *sum {
            return None;
        }
        if step == 0 {
            return Some(*sum);
        }
        if log.reserve(1).is_err() {
            return None;
        }
        log.push_reserved((caller, step));
        *sum += u64::from(step);
        Some(*sum)
    }

    fn length(&self) -> u32 {
        self.log.len() as u32
    }
}

//! A sum with a limit, which contracts see as its bounds and the list of the steps that made it.
ghost use Rattle.std.specs.Prelude.{◌≡◌, ◌^◌, ◌≤◌, ◌<◌, [], length, IfOk, vec_capacity};
ghost use Rattle.lock_callers.specs.Counted.{Counted, Allowed, is_recorded, sum_of};

use bench_lock::Machine;
use std::alloc::{AllocError, Global};
use std::marker::Model;

/// Which steps a counter counts.
#[derive(Clone, Copy)]
pub struct Bounds {
    /// A smaller step is left out.
    pub least: u32,
    /// The most that the sum may be.
    pub limit: u64,
    /// The most steps that are recorded.
    pub most: u32,
}

#[derive(Drop)]
pub struct Counter {
    bounds: Bounds,
    sum: u64,
    log: Vec<(u32, u32)>,
}

impl Model for Counter {
    ghost Value = { Counted };

    ghost view = { λ s. record { bounds = s.bounds; list = s.log.items } };

    ghost invariant = { λ s. (s.sum ≡ sum_of s.log.items) × (s.sum ≤ s.bounds.limit) × (length s.log.items ≤ s.bounds.most) × (s.bounds.most < 2 ^ 32) × (s.bounds.most ≤ vec_capacity s.log) };
}

impl Counter {
    /// A counter at 0. Only this call takes memory.
    pub fn new(alloc: Global, bounds: Bounds) -> Result<Counter, AllocError>
        ensures { IfOk result (λ c. (c.bounds ≡ bounds) × (c.list ≡ [])) }
    {
        let log = Vec::with_capacity(alloc, bounds.most as usize)?;
        Ok(Counter {
            bounds,
            sum: 0,
            log,
        })
    }

    pub fn sum(&self) -> u64
        ensures { result ≡ sum_of self.now.list }
    {
        self.sum
    }

    pub fn entries(&self) -> &[(u32, u32)]
        ensures { result.now ≡ self.now.list }
    {
        &self.log
    }
}

impl Machine for Counter {
    type Step = u32;

    type Reply = Option<u64>;

    type Opening = Bounds;

    ghost opening = { λ s. s.bounds };

    ghost list = { λ s. s.list };

    ghost allows = { Allowed };

    ghost records = { is_recorded };

    /// Adds the step to the sum, which is its reply, and records it. A smaller step than the least is left out: it has
    /// the sum for its reply too, but isn't recorded. None exactly where a step isn't left out and has no room.
    fn step(&mut self, caller: u32, step: u32) -> Option<u64> {
        let Counter { bounds, sum, log } = self;
        if step < bounds.least {
            return Some(*sum);
        }
        if log.len() >= bounds.most as usize || u64::from(step) > bounds.limit - *sum {
            return None;
        }
        log.push_reserved((caller, step));
        *sum += u64::from(step);
        Some(*sum)
    }

    fn length(&self) -> u32 {
        self.log.len() as u32
    }
}

//! One seat over a counter, and what may cross threads.
ghost use Rattle.std.specs.Prelude.{◌≡◌};

mod counter;

use crate::machine::Machine;
use crate::seats::{Seat, Shared};
use counter::Counter;
use std::marker::{Send, Sync};
use std::test::Fail;

fn is_send<T: Send>(_value: &T) {}

fn is_send_and_sync<T: Send + Sync>(_value: &T) {}

fn crosses_threads<M: Machine + Send>(shared: &Shared<M>, seat: &Seat<M>) {
    is_send_and_sync(shared);
    is_send(seat);
}

// The steps are 0 to 1,000. That of 0 isn't recorded, and the limit leaves no room for the last: the sum up to k is
// k(k + 1)/2.
#[test]
fn one_seat(rt: HostRuntime) -> Result<(), Fail> {
    let counter = Counter::new(rt.alloc(), 500_000);
    let (shared, mut seat) = Shared::open(rt.alloc(), counter, 1)?;
    crosses_threads(&shared, &seat);
    for k in 0..1_001_u32 {
        let applied = shared.apply(&rt, &mut seat, k);
        let sum = u64::from(k).wrapping_mul(u64::from(k) + 1) / 2;
        let reply = if k < 1_000 { Some(sum) } else { None };
        assert_eq!(rt; (applied.reply, applied.front), (reply, k.min(999)));
    }
    let counter = shared.close(seat);
    assert_eq!(rt; counter.length(), 999);
    for (k, entry) in (1..1_000_u32).zip(counter.entries()) {
        assert_eq!(rt; *entry, (0, k));
    }
    Ok(())
}

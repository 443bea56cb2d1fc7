//! The buffer region.

use dma_buddy::Region;
use std::io;
use std::time::Instant;

/// How often a part runs where no number is given: then no time is printed.
const FEW: u32 = 1_000;

/// Pairs of take and give, of each length in turn.
fn take_and_give(region: &mut Region, count: u32) {
    for i in 0..count {
        if let Some(chunk) = region.take(i % 65_536 + 1) {
            region.give(chunk);
        }
    }
}

/// Pairs of take and give on a region of 32 units.
pub fn buddy(rt: &HostRuntime, count: Option<u32>) -> io::Result<()> {
    let mut region = Region::new(rt.alloc(), 0x0020_0000, 32)?;
    let pairs = count.unwrap_or(FEW);
    let start = Instant::now(rt)?;
    take_and_give(&mut region, pairs);
    let time = start.elapsed(rt)?.as_millis();
    let free = region.free_bytes();
    if count.is_some() {
        println!(rt; "buddy: {pairs} pairs of take and give in {time} ms, {free} bytes free")
    } else {
        println!(rt; "buddy: {pairs} pairs of take and give, {free} bytes free")
    }
}

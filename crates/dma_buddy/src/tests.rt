//! The worked rows.

ghost use Rattle.std.specs.Prelude.{◌≡◌, ◌+◌, ◌<◌, ◌≤◌, ◌++◌, IfOk, length};
ghost use Rattle.std.specs.List.{All, remove};
ghost use Rattle.dma_buddy.specs.Regions.{AreOut};

use crate::{Chunk, Region};
use std::alloc::AllocError;
use std::test::Fail;

/// Takes a chunk of `len` bytes, and adds it to those held. Answers its base.
fn take(region: &mut Region, held: &mut Vec<Chunk>, len: u32) -> Result<Option<u32>, AllocError>
    requires len { (1 ≤ len) × (len ≤ 65536) }
    requires out { AreOut region.old held.old.items }
    ensures { IfOk result (λ _. AreOut region.new held.new.items) }
{
    let Some(chunk) = region.take(len) else {
        return Ok(None);
    };
    held.push(chunk)?;
    Ok(Some(chunk.base))
}

/// Takes a chunk for each length, and adds them to those held. Answers the length that is refused.
fn take_all(
    region: &mut Region,
    held: &mut Vec<Chunk>,
    lens: &[u32],
) -> Result<Option<u32>, AllocError>
    requires count { length lens.now ≤ 16 }
    requires lens { All (λ len. (1 ≤ len) × (len ≤ 65536)) lens.now }
    requires out { AreOut region.old held.old.items }
    ensures { IfOk result (λ _. AreOut region.new held.new.items) }
{
    match region.take_all(lens) {
        Ok(chunks) => {
            held.extend_from_slice(chunks.as_slice())?;
            Ok(None)
        }
        Err(len) => Ok(Some(len)),
    }
}

/// Gives back the chunk that is held at a place.
fn give(region: &mut Region, held: &mut Vec<Chunk>, place: usize)
    requires within { place < length held.old.items }
    requires out { AreOut region.old held.old.items }
    ensures { AreOut region.new held.new.items }
{
    let chunk = held.remove(place);
    region.give(chunk);
}

#[test]
fn fragments(rt: HostRuntime) -> Result<(), Fail> {
    let mut region = Region::new(rt.alloc(), 0x0020_0000, 32)?;
    let mut held = Vec::new(rt.alloc());
    let lens = [512; 16];
    'fill: for _ in 0..256 {
        assert_eq!(rt; take_all(&mut region, &mut held, &lens)?, None);
    }
    assert_eq!(rt; region.free_bytes(), 0);
    assert_eq!(rt; take_all(&mut region, &mut held, &lens)?, Some(512));
    assert_eq!(rt; take(&mut region, &mut held, 1)?, None);
    'calls: for call in 1..=128 {
        'parts: for _ in 0..16 {
            assert!(rt; 16 * call < held.len());
            give(&mut region, &mut held, 16 * call);
        }
    }
    assert_eq!(rt; region.free_bytes(), 1_048_576);
    assert!(rt; !region.whole());
    assert_eq!(rt; take(&mut region, &mut held, 8_193)?, None);
    assert_eq!(rt; take(&mut region, &mut held, 8_192)?, Some(0x0020_2000));
    'rest: for _ in 0..2_049 {
        assert!(rt; !held.is_empty());
        give(&mut region, &mut held, 0);
    }
    assert_eq!(rt; region.free_bytes(), 2_097_152);
    assert!(rt; region.whole());
    Ok(())
}

/// A length to take with the base that is wanted, or a place to give back with the free bytes that are wanted.
#[derive(Clone, Copy)]
enum Step {
    Take(u32, Option<u32>),
    Give(usize, u32),
}

const STEPS: [Step; 24] = [
    Step::Take(512, Some(0x1_0000)),
    Step::Take(1, Some(0x1_0200)),
    Step::Take(512, Some(0x1_0400)),
    Step::Take(500, Some(0x1_0600)),
    Step::Give(1, 64_000),
    // 0x10200 and 0x10400 are neighbours, and no buddies
    Step::Give(1, 64_512),
    Step::Take(1_024, Some(0x1_0800)),
    Step::Take(513, Some(0x1_0c00)),
    Step::Take(512, Some(0x1_0200)),
    Step::Take(40_000, None),
    Step::Take(32_768, Some(0x1_8000)),
    Step::Take(8_193, Some(0x1_4000)),
    Step::Give(4, 13_312),
    Step::Give(0, 13_824),
    // 0x10600 is merged twice: with 0x10400, and then with 0x10000
    Step::Give(0, 14_336),
    Step::Take(2_048, Some(0x1_0000)),
    Step::Give(4, 14_336),
    Step::Give(1, 15_360),
    Step::Give(0, 16_384),
    Step::Take(16_384, Some(0x1_0000)),
    Step::Take(1, None),
    Step::Give(2, 16_384),
    Step::Give(1, 32_768),
    Step::Give(0, 65_536),
];

#[test]
fn takes_and_gives(rt: HostRuntime) -> Result<(), Fail> {
    let mut region = Region::new(rt.alloc(), 0x1_0000, 1)?;
    let mut held = Vec::new(rt.alloc());
    'steps: for step in STEPS {
        match step {
            Step::Take(len, base) => {
                assert!(rt; len >= 1 && len <= 65_536);
                assert_eq!(rt; take(&mut region, &mut held, len)?, base);
            }
            Step::Give(place, free) => {
                assert!(rt; place < held.len());
                give(&mut region, &mut held, place);
                assert_eq!(rt; region.free_bytes(), free);
            }
        }
    }
    assert!(rt; region.whole());
    Ok(())
}

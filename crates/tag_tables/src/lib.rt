//! The tag tables in host memory: for each unit of the rig one word for every tag, the block that the script takes when
//! a target reselects with this tag. The entry of a tag without a task holds the block NOTASK.
//!
//! Each call wants memory of 4 MiB and a unit below 16, its number in the rig. None takes memory.
#![tactic(auto)]

ghost use Rattle.std.specs.Prelude.{◌≡◌, ◌<◌, length};
ghost use Rattle.bench_words.specs.Memory.{word_at};
ghost use Rattle.bench_words.specs.Views.{Wrote};
ghost use Rattle.host_map.specs.declared.TheConstants.{NOTASK};
ghost use Rattle.host_map.specs.Places.{tag_entry};
ghost use Rattle.tag_tables.specs.Tables.{entry_of, linked, unlinked, OthersStay};

use bench_words::Words;
use host_map::{NOTASK, tag_entry};

/// Enters `block` under a tag of a unit, so that a reselection with this tag finds it. All other words stay.
pub fn link(words: &mut Words, unit: u8, tag: u8, block: u32)
    requires memory { length words.old ≡ 0x400000 }
    requires unit { unit < 16 }
    ensures wrote { words.new ≡ linked words.old unit tag block }
    ensures words { Wrote (word_at words.old) (word_at words.new) (tag_entry unit tag) block }
    ensures others { OthersStay words.old words.new unit tag }
    ensures size { length words.new ≡ length words.old }
{
    words.set(tag_entry(unit, tag), block);
}

/// Frees a tag of a unit: its entry becomes NOTASK. All other words stay.
pub fn unlink(words: &mut Words, unit: u8, tag: u8)
    requires memory { length words.old ≡ 0x400000 }
    requires unit { unit < 16 }
    ensures wrote { words.new ≡ unlinked words.old unit tag }
    ensures words { Wrote (word_at words.old) (word_at words.new) (tag_entry unit tag) NOTASK }
    ensures others { OthersStay words.old words.new unit tag }
    ensures size { length words.new ≡ length words.old }
{
    words.set(tag_entry(unit, tag), NOTASK);
}

/// The block in the entry of a tag of a unit, NOTASK where the tag is free.
pub fn entry(words: &Words, unit: u8, tag: u8) -> u32
    requires memory { length words.now ≡ 0x400000 }
    requires unit { unit < 16 }
    ensures { result ≡ entry_of words.now unit tag }
{
    words.get(tag_entry(unit, tag))
}

#[cfg(test)]
mod tests;

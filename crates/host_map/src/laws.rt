//! Laws of the map. Each function does nothing; its contract is the law.

ghost use Rattle.host_map.specs.Laws.{LieInRegions, NumbersBlocks, PlacesApart, PlacesFit, RegionsApart};
ghost use Rattle.host_map.specs.Map.{IsMap};
ghost use Rattle.host_map.specs.Writes.{KeptOn, LargerRanges, LeavesOthers, NothingWritten, OneAfterAnother, WordsAreIn, WordsAreWithin};

/// The constants are the addresses and sizes of the map.
pub fn is_map()
    ensures { IsMap }
{}

/// The places that are counted lie in their regions; words of two regions, or of two places, share no byte.
pub fn places_lie_apart()
    ensures lie { LieInRegions }
    ensures regions { RegionsApart }
    ensures places { PlacesApart }
{}

/// The 256 command blocks and their numbers; every word of a block place is in memory.
pub fn blocks_are_numbered()
    ensures numbers { NumbersBlocks }
    ensures fit { PlacesFit }
{}

/// What a write within a range leaves: ranges may be enlarged, and writes made one after another.
pub fn writes_compose()
    ensures word { WordsAreWithin }
    ensures larger { LargerRanges }
    ensures next { OneAfterAnother }
    ensures nothing { NothingWritten }
{}

/// A write in a region leaves the words of every other region.
pub fn regions_stay()
    ensures others { LeavesOthers }
    ensures word { WordsAreIn }
    ensures on { KeptOn }
{}

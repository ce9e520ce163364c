// What follows for shards. A function here does nothing: its contract is the law.
ghost use Rattle.hc_shards.specs.Parts.{PartsAreApart};
ghost use Rattle.hc_shards.specs.Shards.{SharesAreRight, PagesAreApart, PagesAreKnown};

/// Where no number is wrong, each shard is a cache by itself, and there are 1 to 16.
pub fn shares_are_right()
    ensures { SharesAreRight }
{}

/// No page of one shard is another's.
pub fn pages_are_apart()
    ensures { PagesAreApart }
{}

/// Where no number is wrong, each page of each shard has a number that a device knows.
pub fn pages_are_known()
    ensures { PagesAreKnown }
{}

/// What changes pages of one shard's part alone leaves each other shard's as it was.
pub fn parts_are_apart()
    ensures { PartsAreApart }
{}

// Both engines at rest: what of them is kept where the cache is closed, and a pair of two such engines.
ghost use Rattle.std.specs.Prelude.{◌≡◌, []};
ghost use Rattle.hc_pair.specs.Resting.{is_idle as is_idle_seen};

use crate::pair::Pair;
use hc_bighash::BigHash;
use hc_block::BlockCache;
use std::alloc::Allocator;

impl<A: Allocator + Clone + Copy> Pair<A> {
    /// Whether no operation is under way.
    #[must_use]
    pub fn is_idle(&self) -> bool
        ensures { result ≡ is_idle_seen self.now }
    {
        self.small.is_idle() && self.large.is_idle()
    }

    /// The engine of small entries and that of large ones, each by value. Nothing is copied, and no memory is taken.
    #[must_use]
    pub fn into_parts(self) -> (BigHash<A>, BlockCache<A>)
        ensures small { result.0 ≡ self.small }
        ensures large { result.1 ≡ record { flash = self.small.flash; block = self.large } }
    {
        let Pair { small, large } = self;
        (small, large)
    }

    /// Two engines of one configuration as one. The small one is idle, as it is where it was made of its parts: so no number
    /// is that of two operations.
    #[must_use]
    pub fn from_parts(small: BigHash<A>, large: BlockCache<A>) -> Pair<A>
        requires flash { large.flash ≡ small.flash }
        requires idle { small.jobs ≡ [] }
        ensures { result ≡ record { small = small; large = large.block } }
    {
        Pair { small, large }
    }
}

// How much is lost at most, and what goes out next: asked before anything changes.
ghost use Rattle.std.specs.Prelude.{◌≡◌, ◌≤◌, ◌^◌, ◌<◌, length, is_some, Some, IfSome};
ghost use Rattle.hc_engines.specs.Engine.{IoResult as Came};
ghost use Rattle.hc_engines.specs.large.Block.{Moved};
ghost use Rattle.hc_engines.specs.large.Choices.{flush_next as flush_next_seen};
ghost use Rattle.hc_engines.specs.large.Steps.{reclaim as reclaim_seen};
ghost use Rattle.hc_block.specs.Moves.{resume_by};

use crate::block_cache::BlockCache;
use crate::jobs::Work;
use hc_region::appended_at;
use std::alloc::Allocator;

impl<A: Allocator + Clone + Copy> BlockCache<A> {
    /// How many losses at most are told with the next result that is handed in for the operation with this number: a
    /// region's entries where its page is written, and one of a get.
    #[must_use]
    pub fn most_losses(&self, number: u64) -> usize
        ensures { (came : Came) (moved : Moved) → resume_by self.now.flash number came self.now.block ≡ Some moved → length moved.outcome.losses ≤ result }
    {
        match self.jobs.get(number) {
            Some(Work::Writing { region, .. }) => appended_at(&self.regions, *region).len(),
            Some(Work::Getting(_)) => 1,
            None => 0,
        }
    }

    /// How many losses at most a reclaim tells that is started now: the entries of the region that it gives up.
    #[must_use]
    pub fn most_reclaimed(&self) -> usize
        ensures { length (reclaim_seen self.now.flash self.now.block).outcome.losses ≤ result }
    {
        match self.reclaim_next() {
            Some(r) => appended_at(&self.regions, r).len(),
            None => 0,
        }
    }

    /// Whether a flush that is started now has a page to write.
    #[must_use]
    pub fn has_flush(&self) -> bool
        ensures { result ≡ is_some (flush_next_seen self.now.flash self.now.block) }
    {
        self.flush_next().is_some()
    }
}

// How the engine is shown: its regions by how many there are of each kind, and its operations under way by their number.
use crate::block_cache::BlockCache;
use std::alloc::Allocator;
use std::fmt;

impl<A: Allocator> fmt::Debug for BlockCache<A> {
    fn fmt<W: fmt::Write>(&self, f: &mut fmt::Formatter<W>) -> fmt::Result {
        write!(
            f,
            "BlockCache {{ clean: {}, open: {:?}, sealed: {}, flushed: {}, jobs: {} }}",
            self.clean.len(),
            self.current,
            self.sealed.len(),
            self.flushed.len(),
            self.jobs.len(),
        )
    }
}

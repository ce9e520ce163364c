// How what waits is shown: by how much there is.
use crate::fills::Fills;
use crate::puts::Puts;
use crate::replies::Replies;
use crate::tombstones::Tombstones;
use std::alloc::Allocator;
use std::fmt;

impl<A: Allocator> fmt::Debug for Puts<A> {
    fn fmt<W: fmt::Write>(&self, f: &mut fmt::Formatter<W>) -> fmt::Result {
        write!(f, "Puts {{ waiting: {} }}", self.len())
    }
}

impl<A: Allocator> fmt::Debug for Tombstones<A> {
    fn fmt<W: fmt::Write>(&self, f: &mut fmt::Formatter<W>) -> fmt::Result {
        write!(f, "Tombstones {{ standing: {} }}", self.len())
    }
}

impl<A: Allocator> fmt::Debug for Fills<A> {
    fn fmt<W: fmt::Write>(&self, f: &mut fmt::Formatter<W>) -> fmt::Result {
        write!(f, "Fills {{ keys: {} }}", self.len())
    }
}

impl<A: Allocator> fmt::Debug for Replies<A> {
    fn fmt<W: fmt::Write>(&self, f: &mut fmt::Formatter<W>) -> fmt::Result {
        write!(f, "Replies {{ owed: {} }}", self.len())
    }
}

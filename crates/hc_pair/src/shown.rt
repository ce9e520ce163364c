// How both engines are shown: each by its counts.
use crate::pair::Pair;
use std::alloc::Allocator;
use std::fmt;

impl<A: Allocator> fmt::Debug for Pair<A> {
    fn fmt<W: fmt::Write>(&self, f: &mut fmt::Formatter<W>) -> fmt::Result {
        write!(
            f,
            "Pair {{ small: {:?}, large: {:?} }}",
            self.small, self.large
        )
    }
}

// How a region is shown: its buffer by its length.
use crate::region::Region;
use std::alloc::Allocator;
use std::fmt;

impl<A: Allocator> fmt::Debug for Region<A> {
    fn fmt<W: fmt::Write>(&self, f: &mut fmt::Formatter<W>) -> fmt::Result {
        write!(
            f,
            "Region {{ status: {:?}, written: {} pages, buffer: {} bytes, pins: {} }}",
            self.status,
            self.written,
            self.buffer.len(),
            self.pins,
        )
    }
}

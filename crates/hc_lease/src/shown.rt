// How tickets and tables are shown.

use crate::stamps::Stamps;
use crate::ticket::Ticket;
use crate::turns::Turns;
use std::alloc::Allocator;
use std::fmt;

/// By its number.
impl fmt::Debug for Ticket {
    fn fmt<W: fmt::Write>(&self, f: &mut fmt::Formatter<W>) -> fmt::Result {
        write!(f, "Ticket({})", self.number())
    }
}

/// By how many slots there are, and how many changes there were.
impl<A: Allocator> fmt::Debug for Stamps<A> {
    fn fmt<W: fmt::Write>(&self, f: &mut fmt::Formatter<W>) -> fmt::Result {
        write!(
            f,
            "Stamps(slots: {}, changes: {})",
            self.slots(),
            self.changes()
        )
    }
}

/// By how many places there are.
impl<A: Allocator> fmt::Debug for Turns<A> {
    fn fmt<W: fmt::Write>(&self, f: &mut fmt::Formatter<W>) -> fmt::Result {
        write!(f, "Turns({} places)", self.places())
    }
}

// Where a region stands, and what becomes of its pages.

/// Where a region stands.
#[derive(Clone, Copy, Debug)]
pub(crate) enum Status {
    /// It has nothing, and can be opened.
    Clean,
    /// Entries are appended to it.
    Open,
    /// It is full, and its flush is not yet taken.
    Sealed,
    /// Its flush is taken, and a write of a page is out.
    Flushing,
    /// All its pages are written.
    OnFlash,
    /// Nothing leads to it any more, but a reader still holds it.
    Draining,
}

/// How a page goes out: before its region is sealed, or as its flush.
#[derive(Clone, Copy, Debug)]
pub enum Mark {
    Early,
    Flush,
}

/// What follows a page that was written: the flush goes on with the next, that was its last, or an early write ends.
#[derive(Clone, Copy, Debug)]
pub enum Stage {
    More,
    Last,
    Early,
}

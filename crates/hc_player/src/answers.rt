// What the lines of a trace are answered.
use bytes::Bytes;
use hc_types::Refusal;

/// What a line is answered.
#[derive(Drop)]
pub enum Answer {
    Stored,
    Refused(Refusal),
    /// The value that was found.
    Hit(Bytes),
    Miss,
    /// An item was in memory.
    Found,
    /// None was.
    Absent,
    /// The second that holds.
    Moment(u64),
    /// What an add that waited found: an unexpired item.
    Exists,
    /// The call waits for flash, under this number.
    Waiting(u64),
    /// There is nothing to do.
    Idle,
    /// A piece of work is done.
    Finished,
    /// A job wants this page read.
    Reads(u64, u32),
    /// A job wants this page written.
    Writes(u64, u32),
    /// The operation was made.
    Made,
    /// The operation failed.
    Failed,
    /// This region was given up.
    Reclaimed(u32),
    /// The cache was closed, and goes on with what was kept of it.
    Restarted,
    /// The cache isn't at rest, and is as it was.
    Busy,
}

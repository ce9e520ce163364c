// What a line says, which borrows from it.
use hc_trace_text::Value;
use hc_types::Why;

/// What a call asks for.
#[derive(Clone, Copy)]
pub enum OpText<'a> {
    Insert(&'a [u8], Value<'a>, u64),
    Add(&'a [u8], Value<'a>, u64),
    Find(&'a [u8]),
    Remove(&'a [u8]),
}

/// What a call is answered.
#[derive(Clone, Copy)]
pub enum ReplyText<'a> {
    Stored,
    Exists,
    Hit(Value<'a>),
    Miss,
    FoundInMemory,
    NotInMemory,
}

/// What is forgotten.
#[derive(Clone, Copy)]
pub enum ScopeText<'a> {
    Key(&'a [u8]),
    Bucket(u32),
    Hash(u64),
    HashBut(u64, &'a [u8]),
}

/// Why it is forgotten.
#[derive(Clone, Copy)]
pub enum CauseText<'a> {
    Evicted(u8, u64, Why),
    BucketFull,
    Reclaimed(u32),
    NoCleanRegion,
    Collision(&'a [u8]),
    Expired,
    Fault,
}

/// What a note says. Pages are in hexadecimal.
#[derive(Clone, Copy)]
pub enum NoteText<'a> {
    Begin(u64, u8, OpText<'a>),
    Did(u64, ReplyText<'a>),
    End(u64),
    Lose(ScopeText<'a>, CauseText<'a>),
    Charged(u64, &'a [u8], u8, u64),
    Linked(u64),
    Freed(u64),
    Queued(&'a [u8]),
    Unqueued(&'a [u8]),
    Writing(&'a [u8]),
    Written(&'a [u8]),
    Buried(&'a [u8]),
    Raised(&'a [u8]),
    Read(u32, &'a [u8]),
    ReadFailed(u32),
    Wrote(u32, &'a [u8], bool),
    Opened(u32),
    Flushed(u32),
    Cleared(u32),
    Now(u64),
}

// How notes are shown: keys as they show themselves, values and pages by their length.

use crate::note::{Op, Reply, Said};
use std::alloc::Allocator;
use std::fmt::{self, Debug};

/// A value by its length.
impl<A: Allocator> Debug for Op<A> {
    fn fmt<W: fmt::Write>(&self, f: &mut fmt::Formatter<W>) -> fmt::Result {
        match self {
            Op::Insert(key, value, expiry) => {
                write!(f, "Insert({key:?}, {} bytes, {expiry})", value.len())
            }
            Op::Add(key, value, expiry) => {
                write!(f, "Add({key:?}, {} bytes, {expiry})", value.len())
            }
            Op::Find(key) => write!(f, "Find({key:?})"),
            Op::Remove(key) => write!(f, "Remove({key:?})"),
        }
    }
}

/// A value by its length.
impl<A: Allocator> Debug for Reply<A> {
    fn fmt<W: fmt::Write>(&self, f: &mut fmt::Formatter<W>) -> fmt::Result {
        match self {
            Reply::Stored => f.write_str("Stored"),
            Reply::Exists => f.write_str("Exists"),
            Reply::Hit(value) => write!(f, "Hit({} bytes)", value.len()),
            Reply::Miss => f.write_str("Miss"),
            Reply::FoundInMemory => f.write_str("FoundInMemory"),
            Reply::NotInMemory => f.write_str("NotInMemory"),
        }
    }
}

// What a note is called, and its first number, where it begins with one.
fn heading<A: Allocator>(said: &Said<A>) -> (&'static str, Option<u64>) {
    match said {
        Said::Begin { call, .. } => ("Begin", Some(*call)),
        Said::Did { call, .. } => ("Did", Some(*call)),
        Said::End { call } => ("End", Some(*call)),
        Said::Lose { .. } => ("Lose", None),
        Said::Charged { charge, .. } => ("Charged", Some(*charge)),
        Said::Linked { charge } => ("Linked", Some(*charge)),
        Said::Freed { charge } => ("Freed", Some(*charge)),
        Said::Queued { .. } => ("Queued", None),
        Said::Unqueued { .. } => ("Unqueued", None),
        Said::Writing { .. } => ("Writing", None),
        Said::Written { .. } => ("Written", None),
        Said::Buried { .. } => ("Buried", None),
        Said::Raised { .. } => ("Raised", None),
        Said::Read { page, .. } => ("Read", Some(u64::from(*page))),
        Said::Wrote { page, .. } => ("Wrote", Some(u64::from(*page))),
        Said::Opened { region } => ("Opened", Some(u64::from(*region))),
        Said::Flushed { region } => ("Flushed", Some(u64::from(*region))),
        Said::Cleared { region } => ("Cleared", Some(u64::from(*region))),
        Said::Now { moment } => ("Now", Some(*moment)),
    }
}

/// What it is, and its first number. A log as text has the rest.
impl<A: Allocator + Debug> Debug for Said<A> {
    fn fmt<W: fmt::Write>(&self, f: &mut fmt::Formatter<W>) -> fmt::Result {
        match heading(self) {
            (word, Some(number)) => write!(f, "{word}({number}, ..)"),
            (word, None) => f.write_str(word),
        }
    }
}

// What calls with tickets answer.
use hc_lease::Ticket;
use hc_memory::{ReadHandle, Sealed};
use std::alloc::{Allocator, Global};
use std::fmt;

/// What a find answers that hands out a ticket where it misses.
#[derive(Drop)]
#[must_use]
pub enum Lookup<A: Allocator = Global> {
    /// The value under the key, which stays readable for good.
    Hit(ReadHandle<A>),
    /// Load the value now, and store it with the ticket. There is none once 2^64 - 1 changes were made: then serve the
    /// value, and don't store it.
    Miss(Option<Ticket>),
    /// The value may be on flash: the call with this number waits for it, and its reply is taken later, with a ticket.
    Waiting(u64),
}

/// A hit by the length of its value.
impl<A: Allocator> fmt::Debug for Lookup<A> {
    fn fmt<W: fmt::Write>(&self, f: &mut fmt::Formatter<W>) -> fmt::Result {
        match self {
            Lookup::Hit(value) => write!(f, "Hit({} bytes)", value.len()),
            Lookup::Miss(Some(ticket)) => write!(f, "Miss({ticket:?})"),
            Lookup::Miss(None) => f.write_str("Miss"),
            Lookup::Waiting(call) => write!(f, "Waiting({call})"),
        }
    }
}

/// What a store with a ticket answers.
#[derive(Clone, Copy, Debug, PartialEq, Eq)]
#[must_use]
pub enum Kept {
    /// The value can be found.
    Stored,
    /// A key of its slot was changed since the ticket was handed out, or an add of one waits: nothing is stored. It is
    /// no error: serve what was loaded, or find it again.
    Stale,
}

impl fmt::Display for Kept {
    ghost use Rattle.std.specs.Prelude.{Some};
    ghost use Rattle.hc_leased.specs.Answers.{kept_text};

    ghost output = { λ kept. Some (kept_text kept) };

    fn fmt<W: fmt::Write>(&self, f: &mut fmt::Formatter<W>) -> fmt::Result {
        match self {
            Kept::Stored => f.write_str("stored"),
            Kept::Stale => f.write_str("stale"),
        }
    }
}

/// What an insert with a ticket answers.
#[must_use]
pub enum KeptItem<A: Allocator = Global> {
    /// The item can be found.
    Stored,
    /// As `Kept::Stale`: the item isn't inserted, and its handle comes back, to be given up.
    Stale(Sealed<A>),
}

/// By what it answers, without the handle.
impl<A: Allocator> fmt::Debug for KeptItem<A> {
    fn fmt<W: fmt::Write>(&self, f: &mut fmt::Formatter<W>) -> fmt::Result {
        match self {
            KeptItem::Stored => f.write_str("Stored"),
            KeptItem::Stale(_) => f.write_str("Stale"),
        }
    }
}

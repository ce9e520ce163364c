// What the core tells of its steps.
ghost use Rattle.std.specs.Prelude.{◌≡◌};
ghost use Rattle.hc_history.specs.Seen.{note_of};
ghost use Rattle.hc_history.specs.Note.{Note as Meaning};

use bytes::Bytes;
use hc_types::{Cause, Key, Scope};
use std::alloc::{Allocator, Global};
use std::marker::Model;

/// What a call asks for.
#[derive(Drop)]
pub enum Op<A: Allocator = Global> {
    /// To store the value under the key, until this second (0: for good).
    Insert(Key<A>, Bytes<A>, u64),
    /// The same, unless the key has an unexpired value.
    Add(Key<A>, Bytes<A>, u64),
    Find(Key<A>),
    Remove(Key<A>),
}

/// What a call is answered.
#[derive(Drop)]
pub enum Reply<A: Allocator = Global> {
    Stored,
    /// An add left the key's unexpired value as it is.
    Exists,
    Hit(Bytes<A>),
    Miss,
    FoundInMemory,
    NotInMemory,
}

/// What a note says. Calls and charges are numbered from 1, regions and pages from 0.
#[derive(Drop)]
pub enum Said<A: Allocator = Global> {
    /// A client's call begins.
    Begin {
        call: u64,
        client: u8,
        op: Op<A>,
    },
    /// The point at which the call is answered.
    Did {
        call: u64,
        reply: Reply<A>,
    },
    /// The reply is handed out.
    End {
        call: u64,
    },
    /// The covered keys that have no item and don't wait are forgotten.
    Lose {
        scope: Scope<A>,
        cause: Cause<A>,
    },
    /// The pool is charged so many bytes for an item of this key, which can't be found yet.
    Charged {
        charge: u64,
        key: Key<A>,
        pool: u8,
        bytes: u64,
    },
    /// The item of this charge can be found from here on.
    Linked {
        charge: u64,
    },
    /// The item of this charge is gone.
    Freed {
        charge: u64,
    },
    /// The key's entry waits for flash.
    Queued {
        key: Key<A>,
    },
    /// It waits no longer.
    Unqueued {
        key: Key<A>,
    },
    /// A small entry of the key is being written.
    Writing {
        key: Key<A>,
    },
    /// It is stored or lost.
    Written {
        key: Key<A>,
    },
    /// The key has a tombstone: what flash has of it is not to be found.
    Buried {
        key: Key<A>,
    },
    /// It has none any longer.
    Raised {
        key: Key<A>,
    },
    /// A page was read: its bytes, unless the read failed.
    Read {
        page: u32,
        result: Option<Bytes<A>>,
    },
    /// These bytes were written to a page, or the write failed.
    Wrote {
        page: u32,
        bytes: Bytes<A>,
        is_written: bool,
    },
    /// The region takes entries from here on.
    Opened {
        region: u32,
    },
    /// The region is whole on flash.
    Flushed {
        region: u32,
    },
    /// The region is clean again.
    Cleared {
        region: u32,
    },
    /// The clock moved on to this second.
    Now {
        moment: u64,
    },
}

/// A note of the log, which contracts see as what it says.
#[derive(Debug, Drop)]
pub struct Note<A: Allocator = Global> {
    pub said: Said<A>,
}

impl<A: Allocator> Model for Note<A> {
    ghost use Rattle.hc_history.specs.Note.{Note as Meaning};

    ghost Value = { Meaning };

    ghost use Rattle.hc_history.specs.Seen.{note_of};

    ghost view = { λ n. note_of n.said };
}

/// Says what notes say.
pub trait Says {
    /// What it says.
    ghost says: { Self → Meaning };
}

impl<A: Allocator> Says for Note<A> {
    ghost says = { λ n. n };
}

impl<A: Allocator> Note<A> {
    /// The note that says this.
    pub fn new(said: Said<A>) -> Note<A>
        ensures { result ≡ note_of said }
    {
        Note { said }
    }
}

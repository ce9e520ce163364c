// What a client did.
ghost use Rattle.std.specs.Prelude.{◌≡◌, []};
ghost use Rattle.hc_history.specs.Seen.{op_of, reply_of};

use hc_history::{Op, Reply};
use std::alloc::{Allocator, Global};
use std::marker::Model;

/// An answered call: its number, what it asked, and the reply that was handed out.
pub struct Entry<A: Allocator = Global> {
    pub call: u64,
    pub op: Op<A>,
    pub reply: Reply<A>,
}

// (written out, as that of a record is, so that who drops one calls one function)
impl<A: Allocator> Drop for Entry<A> {
    fn drop(self) {
        let Entry {
            call: _,
            op: _,
            reply: _,
        } = self;
    }
}

impl<A: Allocator> Model for Entry<A> {
    ghost use Rattle.hc_history.specs.Seen.{op_of, reply_of};
    ghost use Rattle.hc_client_records.specs.Records.{Entry as Answered};

    ghost Value = { Answered };

    ghost view = { λ e. record { call = e.call; op = op_of e.op; reply = reply_of e.reply } };
}

impl<A: Allocator> Entry<A> {
    /// The call of this number, which asked this and was answered so.
    #[must_use]
    pub fn new(call: u64, op: Op<A>, reply: Reply<A>) -> Entry<A>
        ensures { result ≡ record { call = call; op = op_of op; reply = reply_of reply } }
    {
        Entry { call, op, reply }
    }
}

/// A call that was begun, and whose reply was never handed out: its number, and what it asked.
#[derive(Drop)]
pub struct OpenCall<A: Allocator = Global> {
    pub call: u64,
    pub op: Op<A>,
}

impl<A: Allocator> Model for OpenCall<A> {
    ghost use Rattle.hc_history.specs.Seen.{op_of};
    ghost use Rattle.hc_client_records.specs.Records.{OpenCall as Asked};

    ghost Value = { Asked };

    ghost view = { λ o. record { call = o.call; op = op_of o.op } };
}

impl<A: Allocator> OpenCall<A> {
    /// The call of this number, which asked this.
    #[must_use]
    pub fn new(call: u64, op: Op<A>) -> OpenCall<A>
        ensures { result ≡ record { call = call; op = op_of op } }
    {
        OpenCall { call, op }
    }
}

/// What a client did: its answered calls, the calls that it left open, and the moments (in seconds) to which it moved the
/// clock, each in order.
pub struct Record<A: Allocator = Global> {
    pub client: u8,
    pub entries: Vec<Entry<A>, A>,
    pub open_calls: Vec<OpenCall<A>, A>,
    pub ticks: Vec<u64, A>,
}

impl<A: Allocator> Drop for Record<A> {
    fn drop(self) {
        let Record {
            client: _,
            entries: _,
            open_calls: _,
            ticks: _,
        } = self;
    }
}

impl<A: Allocator> Model for Record<A> {
    ghost use Rattle.hc_client_records.specs.Records.{Record as Did};

    ghost Value = { Did };

    ghost view = { λ r. record { client = r.client; entries = r.entries.items; open_calls = r.open_calls.items; ticks = r.ticks.items } };
}

impl<A: Allocator + Copy> Record<A> {
    /// The record of a client that did nothing yet.
    #[must_use]
    pub fn new(alloc: A, client: u8) -> Record<A>
        ensures { result ≡ record { client = client; entries = []; open_calls = []; ticks = [] } }
    {
        Record {
            client,
            entries: Vec::new(alloc),
            open_calls: Vec::new(alloc),
            ticks: Vec::new(alloc),
        }
    }
}

impl<A: Allocator> Record<A> {
    /// Forgets all that the client did.
    pub fn clear(&mut self)
        ensures { self.new ≡ record self.old { entries = []; open_calls = []; ticks = [] } }
    {
        self.entries.clear();
        self.open_calls.clear();
        self.ticks.clear();
    }
}

/// Whoever has a record.
pub trait Recorded {
    ghost use Rattle.hc_client_records.specs.Records.{Record as Did};

    /// Its record.
    ghost recorded: { Self → Did };

    /// Its record.
    fn record(&self) -> &Record
        ensures { result.now ≡ recorded self.now };
}

impl Recorded for Record {
    ghost recorded = { λ r. r };

    fn record(&self) -> &Record {
        self
    }
}

/// What was seen and what a log tells don't agree.
#[derive(Clone, Copy, Debug, PartialEq, Eq)]
pub struct Mismatch;

// What a log comes to in numbers.
ghost use Rattle.std.specs.Prelude.{◌≡◌, ◌≤◌, ◌<◌, ◌^◌, ◌+◌, ◌∷◌, [], ℕ, nat_le, MatchOption};
ghost use Rattle.hc_history.specs.Told.{total, left_to_count, counts_more, counts_one, kind_of};
ghost use Rattle.hc_history.specs.Note.{Did};
ghost use Rattle.hc_history.specs.Seen.{reply_of};
ghost use Rattle.hc_history.specs.Stats as spec;
ghost use Rattle.hc_history.specs.Stats.{counts_of};

use crate::losses::Reason;
use crate::note::{Note, Reply, Said};
use crate::notes::Kept;
use std::alloc::Allocator;
use std::fmt;

/// Counts over a log. A call that isn't answered is in none of them. It shows each with its name.
#[derive(Clone, Copy, Debug, Default, PartialEq, Eq)]
pub struct Stats {
    /// Answered inserts, and adds that stored.
    pub stored: u64,
    /// Finds answered with a value.
    pub hits: u64,
    /// Finds answered without one.
    pub misses: u64,
    /// Answered removes.
    pub removes: u64,
    /// Forgettings.
    pub losses: u64,
    /// Pages that were read, and reads that failed.
    pub reads: u64,
    /// Pages that were written, and writes that failed.
    pub writes: u64,
}

impl fmt::Display for Stats {
    ghost use Rattle.std.specs.Prelude.{Some};
    ghost use Rattle.hc_history.specs.Counts.{counts_text};

    ghost output = { λ counts. Some (counts_text counts) };

    fn fmt<W: fmt::Write>(&self, f: &mut fmt::Formatter<W>) -> fmt::Result {
        let Stats {
            stored,
            hits,
            misses,
            removes,
            losses,
            reads,
            writes,
        } = self;
        write!(
            f,
            "stored {stored} hits {hits} misses {misses} removes {removes}"
        )?;
        write!(f, " losses {losses} reads {reads} writes {writes}")
    }
}

/// What is counted of a log: a kind for each of the seven counts.
#[derive(Clone, Copy, Debug, PartialEq, Eq)]
pub enum Kind {
    Stored,
    Hit,
    Miss,
    Removed,
    /// Something is forgotten, for this reason.
    Lost(Reason),
    Read,
    Written,
}

impl Stats {
    /// All that was counted, where 64 bits hold it.
    fn total(self) -> Option<u64>
        ensures { MatchOption result (2 ^ 64 ≤ total self) (λ n. n ≡ total self) }
    {
        self.stored
            .checked_add(self.hits)?
            .checked_add(self.misses)?
            .checked_add(self.removes)?
            .checked_add(self.losses)?
            .checked_add(self.reads)?
            .checked_add(self.writes)
    }

    /// One more of this kind.
    pub fn count(&mut self, kind: Kind)
        requires { 0 < left_to_count self.old }
        ensures room { left_to_count self.old ≤ left_to_count self.new + 1 }
        ensures counts { self.new ≡ counts_one self.old kind }
    {
        match kind {
            Kind::Stored => self.stored += 1,
            Kind::Hit => self.hits += 1,
            Kind::Miss => self.misses += 1,
            Kind::Removed => self.removes += 1,
            Kind::Lost(_) => self.losses += 1,
            Kind::Read => self.reads += 1,
            Kind::Written => self.writes += 1,
        }
    }

    /// A call more is answered.
    fn answered<A: Allocator>(&mut self, reply: &Reply<A>)
        requires { 0 < left_to_count self.old }
        ensures room { left_to_count self.old ≤ left_to_count self.new + 1 }
        ensures counts { (call : ℕ) → self.new ≡ counts_more self.old (Did call (reply_of reply.now) ∷ []) }
    {
        if let Some(kind) = reply.kind() {
            self.count(kind);
        }
    }

    /// A note more is heard.
    pub fn heard<A: Allocator>(&mut self, note: &Note<A>)
        requires { 0 < left_to_count self.old }
        ensures room { left_to_count self.old ≤ left_to_count self.new + 1 }
        ensures counts { self.new ≡ counts_more self.old (note.now ∷ []) }
    {
        match &note.said {
            Said::Did { reply, .. } => self.answered(reply),
            Said::Lose { cause, .. } => self.count(Kind::Lost(Reason::of(cause))),
            Said::Read { .. } => self.count(Kind::Read),
            Said::Wrote { .. } => self.count(Kind::Written),
            _ => {}
        }
    }

    /// Whether so many notes more can be counted.
    pub fn can_count(self, n: u64) -> bool
        ensures { result ≡ nat_le n (left_to_count self) }
    {
        match self.total() {
            Some(total) => total.checked_add(n).is_some(),
            None => n == 0,
        }
    }
}

impl<A: Allocator> Reply<A> {
    /// As what it is counted. An add that found the key's value is counted nowhere.
    #[must_use]
    pub fn kind(&self) -> Option<Kind>
        ensures { result ≡ kind_of (reply_of self.now) }
    {
        match self {
            Reply::Stored => Some(Kind::Stored),
            Reply::Exists => None,
            Reply::Hit(_) => Some(Kind::Hit),
            Reply::Miss => Some(Kind::Miss),
            Reply::FoundInMemory | Reply::NotInMemory => Some(Kind::Removed),
        }
    }
}

impl<A: Allocator> Kept<A> {
    /// The seven counts over the log, in one pass.
    #[must_use]
    pub fn stats(&self) -> Stats
        ensures { result ≡ counts_of self.now.notes.items }
    {
        let mut counts = Stats::default();
        'notes: for note in self.notes.as_slice() {
            counts.stored += u64::from(is_stored(note));
            counts.hits += u64::from(is_hit(note));
            counts.misses += u64::from(is_miss(note));
            counts.removes += u64::from(is_removed(note));
            counts.losses += u64::from(is_loss(note));
            counts.reads += u64::from(is_read(note));
            counts.writes += u64::from(is_write(note));
        }
        counts
    }
}

fn is_stored<A: Allocator>(note: &Note<A>) -> bool
    ensures { result ≡ spec.is_stored note.now }
{
    matches!(
        &note.said,
        Said::Did {
            reply: Reply::Stored,
            ..
        }
    )
}

fn is_hit<A: Allocator>(note: &Note<A>) -> bool
    ensures { result ≡ spec.is_hit note.now }
{
    matches!(
        &note.said,
        Said::Did {
            reply: Reply::Hit(_),
            ..
        }
    )
}

fn is_miss<A: Allocator>(note: &Note<A>) -> bool
    ensures { result ≡ spec.is_miss note.now }
{
    matches!(
        &note.said,
        Said::Did {
            reply: Reply::Miss,
            ..
        }
    )
}

fn is_removed<A: Allocator>(note: &Note<A>) -> bool
    ensures { result ≡ spec.is_removed note.now }
{
    matches!(
        &note.said,
        Said::Did {
            reply: Reply::FoundInMemory | Reply::NotInMemory,
            ..
        }
    )
}

/// Whether it tells that something is forgotten.
pub fn is_loss<A: Allocator>(note: &Note<A>) -> bool
    ensures { result ≡ spec.is_loss note.now }
{
    matches!(&note.said, Said::Lose { .. })
}

fn is_read<A: Allocator>(note: &Note<A>) -> bool
    ensures { result ≡ spec.is_read note.now }
{
    matches!(&note.said, Said::Read { .. })
}

fn is_write<A: Allocator>(note: &Note<A>) -> bool
    ensures { result ≡ spec.is_write note.now }
{
    matches!(&note.said, Said::Wrote { .. })
}

// Whom the notes are told.
ghost use Rattle.std.specs.Prelude.{◌≡◌, ℕ, ◌+◌, ◌-◌, ◌^◌, ◌<◌, ◌≤◌, List, [], ◌∷◌, ◌++◌, min, OnOk, OnErr, IfOk, vec_len, vec_capacity};
ghost use Rattle.hc_types.specs.Loss.{scope_of, cause_of};
ghost use Rattle.hc_history.specs.Note.{Lose};
ghost use Rattle.hc_history.specs.Told.{Heard, Nothing, Log, Counts, told_more, told_count, is_log, keeps_losses as are_losses_kept, Hears, left_to_count, no_counts};

use crate::losses::Reason;
use crate::note::{Note, Said, Says};
use crate::stats::{Kind, Stats, is_loss};
use hc_types::{Cause, Scope};
use std::alloc::{AllocError, Allocator, Global};
use std::fmt;
use std::marker::PhantomData;

/// Who hears of a log: what is heard, and room for what is to come. A cache is generic in it, and needs no more to be dropped
/// or read.
pub trait Listener: Drop {
    /// What is heard of the log.
    ghost told: { Self → Heard };

    /// How many notes there is room for.
    ghost room: { Self → ℕ };

    /// Whether notes are kept. Where they aren't, those that copy a key or a value need not be made.
    fn keeps(&self) -> bool
        ensures { result ≡ is_log (told self.now) };

    /// Whether losses are kept. Where they aren't, a loss is counted, and its note need not be made.
    fn keeps_losses(&self) -> bool
        ensures { result ≡ are_losses_kept (told self.now) };

    /// Makes room for `n` notes, and takes none away. It fails only where something is heard.
    fn reserve(&mut self, n: usize) -> Result<(), AllocError>
        ensures same { told self.new ≡ told self.old }
        ensures room { OnOk result (n ≤ room self.new) }
        ensures more { room self.old ≤ room self.new }
        ensures fails { OnErr result (Hears (told self.old)) };

    /// Counts one more of this kind, in place of a note that isn't made where notes aren't kept.
    fn count(&mut self, kind: Kind)
        requires { 0 < room self.old }
        ensures told { told self.new ≡ told_count (told self.old) kind }
        ensures room { room self.old ≤ room self.new + 1 };
}

/// Whom the core tells its notes. Room is made first; then telling a note can't fail.
pub trait Notes<T: Says>: Listener {
    /// Tells a note, for which there is room.
    fn note(&mut self, note: T)
        requires { 0 < Self.room self.old }
        ensures told { Self.told self.new ≡ told_more (Self.told self.old) (T.says note ∷ []) }
        ensures room { Self.room self.old ≤ Self.room self.new + 1 };
}

/// Tells that the covered keys are forgotten, and why: by a note where losses are kept, else by a count.
pub fn tell_loss<A: Allocator, N: Notes<Note<A>>>(notes: &mut N, scope: Scope<A>, cause: Cause<A>)
    requires { 0 < N.room notes.old }
    ensures told { N.told notes.new ≡ told_more (N.told notes.old) (Lose (scope_of scope) (cause_of cause) ∷ []) }
    ensures room { N.room notes.old ≤ N.room notes.new + 1 }
{
    if notes.keeps_losses() {
        notes.note(Note::new(Said::Lose { scope, cause }));
        return;
    }
    let reason = Reason::of(&cause);
    drop(cause);
    drop(scope);
    notes.count(Kind::Lost(reason));
}

/// Keeps every note. A call takes some 480 bytes for its notes, and a find looks its value up twice, since its note
/// shares the value: take `Counting` where the counts and the losses are enough.
#[derive(Drop)]
pub struct Kept<A: Allocator = Global> {
    /// The log, the oldest note first.
    pub notes: Vec<Note<A>, A>,
}

impl<A: Allocator> Kept<A> {
    /// An empty log.
    pub fn new(alloc: A) -> Kept<A>
        ensures { result.notes.items ≡ [] }
    {
        Kept {
            notes: Vec::new(alloc),
        }
    }
}

impl<A: Allocator> Listener for Kept<A> {
    ghost told = { λ k. Log k.notes.items };

    ghost room = { λ k. vec_capacity k.notes - vec_len k.notes };

    fn keeps(&self) -> bool {
        true
    }

    fn keeps_losses(&self) -> bool {
        true
    }

    fn reserve(&mut self, n: usize) -> Result<(), AllocError> {
        self.notes.reserve(n)
    }

    fn count(&mut self, _kind: Kind) {}
}

impl<A: Allocator> Notes<Note<A>> for Kept<A> {
    fn note(&mut self, note: Note<A>) {
        self.notes.push_reserved(note);
    }
}

/// Keeps nothing, takes no memory and refuses nothing.
#[derive(Clone, Copy)]
pub struct Silent<A: Allocator = Global> {
    note: PhantomData<Note<A>>,
}

impl<A: Allocator> Silent<A> {
    /// Whom nothing is told.
    #[must_use]
    pub const fn new() -> Silent<A> {
        Silent { note: PhantomData }
    }
}

impl<A: Allocator> Default for Silent<A> {
    fn default() -> Silent<A> {
        Silent::new()
    }
}

impl<A: Allocator> fmt::Debug for Silent<A> {
    fn fmt<W: fmt::Write>(&self, f: &mut fmt::Formatter<W>) -> fmt::Result {
        f.write_str("Silent")
    }
}

impl<A: Allocator> Listener for Silent<A> {
    ghost told = { λ _. Nothing };

    ghost room = { λ _. 2 ^ 64 };

    fn keeps(&self) -> bool {
        false
    }

    fn keeps_losses(&self) -> bool {
        false
    }

    fn reserve(&mut self, _n: usize) -> Result<(), AllocError> {
        Ok(())
    }

    fn count(&mut self, _kind: Kind) {}
}

impl<A: Allocator> Notes<Note<A>> for Silent<A> {
    fn note(&mut self, _note: Note<A>) {}
}

/// Counts the notes, and keeps the losses until they are taken. Its memory doesn't grow with the log. Where 64 bits
/// can't count more, it refuses room as when out of memory.
#[derive(Drop)]
pub struct Counting<A: Allocator = Global> {
    /// The counts of the log.
    pub counts: Stats,
    /// The losses that weren't taken yet, the oldest first.
    pub losses: Vec<Note<A>, A>,
}

impl<A: Allocator> Counting<A> {
    /// The counts of an empty log.
    pub fn new(alloc: A) -> Counting<A>
        ensures { (result.counts ≡ no_counts) × (result.losses.items ≡ []) }
    {
        Counting {
            counts: Stats::default(),
            losses: Vec::new(alloc),
        }
    }

    /// The losses are taken, and forgotten here.
    pub fn forget_losses(&mut self)
        ensures counts { self.new.counts ≡ self.old.counts }
        ensures losses { self.new.losses.items ≡ [] }
        ensures room { vec_capacity self.old.losses - vec_len self.old.losses ≤ vec_capacity self.new.losses - vec_len self.new.losses }
    {
        self.losses.clear();
    }
}

impl<A: Allocator> Listener for Counting<A> {
    ghost told = { λ c. Counts c.counts c.losses.items };

    ghost room = { λ c. min (vec_capacity c.losses - vec_len c.losses) (left_to_count c.counts) };

    fn keeps(&self) -> bool {
        false
    }

    fn keeps_losses(&self) -> bool {
        true
    }

    fn reserve(&mut self, n: usize) -> Result<(), AllocError> {
        if !self.counts.can_count(n as u64) {
            return Err(AllocError);
        }
        self.losses.reserve(n)
    }

    fn count(&mut self, kind: Kind) {
        self.counts.count(kind);
    }
}

impl<A: Allocator> Notes<Note<A>> for Counting<A> {
    #[inline(always)]
    fn note(&mut self, note: Note<A>) {
        self.counts.heard(&note);
        if is_loss(&note) {
            self.losses.push_reserved(note);
        } else {
            drop(note);
        }
    }
}

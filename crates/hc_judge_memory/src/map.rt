// The map that answered calls and losses come to, at a key.
ghost use Rattle.std.specs.Prelude.{◌≡◌, ◌||◌, nat_lt, ◌≤◌, ◌<◌, ◌^◌, length, [], ◌∷◌, is_some, option_map, IfOk, IfSome};
ghost use Rattle.hc_types.specs.Loss.{scope_of};
ghost use Rattle.hc_types.specs.Tally.{count};
ghost use Rattle.hc_history.specs.Seen.{op_of};
ghost use Rattle.hc_history.specs.Books as books;
ghost use Rattle.hc_history.specs.Books.{open_call, open_calls, is_among, is_linked};
ghost use Rattle.hc_history.specs.Lawful.{past};

use crate::calls::open_op;
use crate::clock::now_at;
use crate::live::{Charge, charge_note, has_linked};
use crate::queue::is_waiting_after;
use bytes::Bytes;
use hc_history::{Note, Op, Said};
use hc_types::{FlashConfig, Key, Scope};
use std::alloc::{AllocError, Allocator, Global};
use std::marker::Model;

/// What the map has under a key: the value, and the second at which it expires (0: never).
#[derive(Drop)]
pub struct Entry<'a, A: Allocator = Global> {
    pub value: &'a Bytes<A>,
    pub expiry: u64,
}

impl<'a, A: Allocator> Model for Entry<'a, A> {
    ghost use Rattle.hc_history.specs.Books.{Entry as Meaning};

    ghost Value = { Meaning };

    ghost view = { λ e. record { value = e.value.now; expiry = e.expiry } };
}

impl<A: Allocator> Entry<'_, A> {
    /// Whether it is expired at this moment, in seconds.
    #[must_use]
    pub fn is_expired(&self, now: u64) -> bool
        ensures { result ≡ books.is_expired now self.now }
    {
        self.expiry != 0 && now >= self.expiry
    }

    /// How many bytes its value has.
    #[must_use]
    #[allow(clippy::len_without_is_empty)]
    pub fn len(&self) -> u64
        ensures value { result ≡ length self.now.value }
        ensures bound { result < 2 ^ 63 }
    {
        self.value.len() as u64
    }
}

/// What the map has under the key after these notes. Refused only when out of memory.
pub fn entry_at<'a, A: Allocator + Clone>(
    flash: &Option<FlashConfig>,
    notes: &'a [Note<A>],
    key: &Key<A>,
    alloc: &A,
) -> Result<Option<Entry<'a, A>>, AllocError>
    requires bits { IfSome flash.now (λ f. f.bits ≤ 64) }
    requires buckets { IfSome flash.now (λ f. 1 ≤ f.buckets) }
    ensures { IfOk result (λ entry. entry ≡ books.entry_at flash.now (past [] notes.now) key.now) }
{
    let mut live = Vec::new(alloc.clone()?);
    let mut waits = false;
    let mut entry = None;
    for place in 0..notes.len() {
        let note = &notes[place];
        entry = entry_after(flash, &notes[..place], note, key, entry, &live, waits);
        charge_note(&mut live, note)?;
        waits = is_waiting_after(note, key, waits);
    }
    Ok(entry)
}

/// What the note leaves of it, after those before, with the charges that are live and whether the key waits.
fn entry_after<'a, A: Allocator>(
    flash: &Option<FlashConfig>,
    before: &'a [Note<A>],
    note: &Note<A>,
    key: &Key<A>,
    was: Option<Entry<'a, A>>,
    live: &[Charge<A>],
    waits: bool,
) -> Option<Entry<'a, A>>
    requires bits { IfSome flash.now (λ f. f.bits ≤ 64) }
    requires buckets { IfSome flash.now (λ f. 1 ≤ f.buckets) }
    requires live { live.now ≡ books.charges (past [] before.now) }
    requires waits { waits ≡ is_among key.now (books.waiting (past [] before.now)) }
    requires entry { was ≡ books.entry_at flash.now (past [] before.now) key.now }
    ensures { result ≡ books.entry_at flash.now (note.now ∷ past [] before.now) key.now }
{
    match &note.said {
        Said::Did { call, .. } => done_by(before, *call, key, was),
        Said::Lose { scope, .. } => entry_left(flash, scope, key, was, live, waits),
        _ => was,
    }
}

/// What the answered call leaves of it.
fn done_by<'a, A: Allocator>(
    before: &'a [Note<A>],
    call: u64,
    key: &Key<A>,
    was: Option<Entry<'a, A>>,
) -> Option<Entry<'a, A>>
    ensures { result ≡ books.done_by (books.now_at (past [] before.now)) (open_call call (open_calls (past [] before.now))) key.now was.entry }
{
    match open_op(before, call) {
        Some(op) => stored_by(op, before, key, was),
        None => was,
    }
}

/// What a call that asks for this leaves of it, where it is answered after these notes.
fn stored_by<'a, A: Allocator>(
    op: &'a Op<A>,
    before: &[Note<A>],
    key: &Key<A>,
    was: Option<Entry<'a, A>>,
) -> Option<Entry<'a, A>>
    ensures { result ≡ books.entry_after (books.now_at (past [] before.now)) (op_of op.now) key.now was.entry }
{
    match op {
        Op::Insert(stored, value, expiry) if stored == key => Some(Entry {
            value,
            expiry: *expiry,
        }),
        Op::Add(stored, value, expiry) if stored == key && !is_unexpired(&was, now_at(before)) => {
            Some(Entry {
                value,
                expiry: *expiry,
            })
        }
        Op::Remove(removed) if removed == key => None,
        _ => was,
    }
}

/// Whether there is an entry, and it isn't expired at this moment.
fn is_unexpired<A: Allocator>(entry: &Option<Entry<'_, A>>, now: u64) -> bool
    ensures { result ≡ is_some (books.unexpired now entry.now) }
{
    match entry {
        Some(entry) => !entry.is_expired(now),
        None => false,
    }
}

/// What a loss leaves of it: it goes where it is covered, and has no linked charge among those that are live, and doesn't
/// wait.
fn entry_left<'a, A: Allocator>(
    flash: &Option<FlashConfig>,
    scope: &Scope<A>,
    key: &Key<A>,
    was: Option<Entry<'a, A>>,
    live: &[Charge<A>],
    waits: bool,
) -> Option<Entry<'a, A>>
    requires bits { IfSome flash.now (λ f. f.bits ≤ 64) }
    requires buckets { IfSome flash.now (λ f. 1 ≤ f.buckets) }
    ensures { result ≡ books.entry_left flash.now (scope_of scope.now) (nat_lt 0 (count (is_linked key.now) live.now) || waits) key.now was.entry }
{
    if is_covered(flash, scope, key, &was) && !waits && !has_linked(live, key) {
        return None;
    }
    was
}

fn is_covered<A: Allocator>(
    flash: &Option<FlashConfig>,
    scope: &Scope<A>,
    key: &Key<A>,
    entry: &Option<Entry<'_, A>>,
) -> bool
    requires bits { IfSome flash.now (λ f. f.bits ≤ 64) }
    requires buckets { IfSome flash.now (λ f. 1 ≤ f.buckets) }
    ensures { result ≡ books.covers flash.now (scope_of scope.now) key.now entry.now }
{
    match entry {
        Some(entry) => scope.covers(flash, key, entry.len()),
        None => false,
    }
}

/// Whether the map has an entry of the key, and it is expired. Refused only when out of memory.
pub fn expired_at<A: Allocator + Clone>(
    flash: &Option<FlashConfig>,
    notes: &[Note<A>],
    key: &Key<A>,
    alloc: &A,
) -> Result<bool, AllocError>
    requires bits { IfSome flash.now (λ f. f.bits ≤ 64) }
    requires buckets { IfSome flash.now (λ f. 1 ≤ f.buckets) }
    ensures { IfOk result (λ is_expired. is_expired ≡ books.expired_at flash.now (past [] notes.now) key.now) }
{
    match entry_at(flash, notes, key, alloc)? {
        Some(entry) => Ok(entry.is_expired(now_at(notes))),
        None => Ok(false),
    }
}

/// What a find of the key answers. Refused only when out of memory.
pub fn value_at<'a, A: Allocator + Clone>(
    flash: &Option<FlashConfig>,
    notes: &'a [Note<A>],
    key: &Key<A>,
    alloc: &A,
) -> Result<Option<&'a Bytes<A>>, AllocError>
    requires bits { IfSome flash.now (λ f. f.bits ≤ 64) }
    requires buckets { IfSome flash.now (λ f. 1 ≤ f.buckets) }
    ensures { IfOk result (λ found. option_map (λ value. value.now) found ≡ books.value_at flash.now (past [] notes.now) key.now) }
{
    match entry_at(flash, notes, key, alloc)? {
        Some(entry) if !entry.is_expired(now_at(notes)) => Ok(Some(entry.value)),
        _ => Ok(None),
    }
}

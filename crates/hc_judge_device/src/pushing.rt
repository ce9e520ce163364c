// What a put pushes out of its bucket.
ghost use Rattle.std.specs.Prelude.{◌≡◌, ◌==◌, ◌+◌, ◌-◌, ◌≤◌, ℕ, nat_lt, nat_le, false, Bool, List, [], ◌∷◌, ◌++◌, length, IfOk, SomeIff};
ghost use Rattle.hc_types.specs.FlashEntry.{entry_of, entries_of};
ghost use Rattle.hc_bucket.specs.Page.{entry_bytes, entries_bytes, used};
ghost use Rattle.hc_bucket.specs.Putting as spec;
ghost use Rattle.hc_bucket.specs.Putting.{last_of, entries_without};
ghost use Rattle.hc_history.specs.Stats.{is_loss};
ghost use Rattle.hc_history.specs.Lawful.{past};
ghost use Rattle.hc_legal.specs.Judge as judge;

use crate::buckets::{bucket_entries, entries_in};
use crate::ends::{before_losses, last};
use hc_bucket::entry_len;
use hc_history::{Note, Said};
use hc_types::{Entry, FlashConfig, Key};
use std::alloc::{AllocError, Allocator};

/// Whether the last note but losses wrote a bucket's page, and pushed the key out.
pub fn pushes_out<A: Allocator + Clone>(
    flash: &FlashConfig,
    notes: &[Note<A>],
    key: &Key<A>,
    alloc: &A,
) -> Result<bool, AllocError>
    ensures { IfOk result (λ pushes. pushes ≡ judge.pushes_out flash.now (past [] notes.now) key.now) }
{
    match last(before_losses(notes)) {
        Some((note, before)) => pushed_by(flash, note, before, key, alloc),
        None => Ok(false),
    }
}

/// Whether this note, which is no loss, wrote a bucket's page, and pushed the key out.
fn pushed_by<A: Allocator + Clone>(
    flash: &FlashConfig,
    note: &Note<A>,
    before: &[Note<A>],
    key: &Key<A>,
    alloc: &A,
) -> Result<bool, AllocError>
    ensures { IfOk result (λ pushed. is_loss note.now ≡ false → pushed ≡ judge.pushes_out flash.now (note.now ∷ past [] before.now) key.now) }
{
    match &note.said {
        Said::Wrote {
            page,
            bytes,
            is_written: true,
        } if u64::from(*page) < flash.buckets => {
            let was = bucket_entries(flash, before, u64::from(*page), alloc)?;
            let put = entries_in(flash.page, bytes.as_slice(), alloc)?;
            Ok(is_pushed_out(flash.page, &was, &put, key))
        }
        _ => Ok(false),
    }
}

/// Whether, of a page of `size` bytes that held the entries `was`, the key's entry and those behind it have no room
/// beside the last entry of `put`.
#[must_use]
pub fn is_pushed_out<A: Allocator>(
    size: u64,
    was: &[Entry<A>],
    put: &[Entry<A>],
    key: &Key<A>,
) -> bool
    ensures { result ≡ spec.is_pushed_out size (entries_of was.now) (last_of (entries_of put.now)) key.now }
{
    if put.is_empty() {
        return false;
    }
    is_pushed_by(size, was, &put[put.len() - 1], key)
}

/// Whether the key's entry and those behind it have no room beside this one.
fn is_pushed_by<A: Allocator>(size: u64, was: &[Entry<A>], put: &Entry<A>, key: &Key<A>) -> bool
    ensures { result ≡ spec.is_too_long size (spec.from_key key.now (entries_without put.now.key (entries_of was.now))) (entry_of put.now) }
{
    if *key == put.key {
        return false;
    }
    let rest = from_key(was, key);
    if rest.is_empty() {
        return false;
    }
    is_too_long(size, rest, put)
}

/// The entries from the key's on.
fn from_key<'a, A: Allocator>(entries: &'a [Entry<A>], key: &Key<A>) -> &'a [Entry<A>]
    ensures { entries_of result.now ≡ spec.from_key key.now (entries_of entries.now) }
{
    for place in 0..entries.len() {
        if entries[place].key == *key {
            return &entries[place..];
        }
    }
    &entries[entries.len()..]
}

/// Whether these entries, in which the key of `put` doesn't count, and `put` behind them are too long for a page.
fn is_too_long<A: Allocator>(size: u64, entries: &[Entry<A>], put: &Entry<A>) -> bool
    ensures { result ≡ nat_lt size (used (entries_without put.now.key (entries_of entries.now) ++ entry_of put.now ∷ [])) }
{
    match room_beside(size, put) {
        Some(room) => !fit(entries, &put.key, room),
        None => true,
    }
}

/// How many bytes a page of this size has beside this entry.
fn room_beside<A: Allocator>(size: u64, put: &Entry<A>) -> Option<u64>
    ensures { SomeIff result (4 + length (entry_bytes (entry_of put.now)) ≤ size) (size - (4 + length (entry_bytes (entry_of put.now)))) }
{
    size.checked_sub(4)?.checked_sub(entry_len(put) as u64)
}

/// Whether these entries, but those of the key, take no more bytes than there is room for.
fn fit<A: Allocator>(entries: &[Entry<A>], but: &Key<A>, room: u64) -> bool
    ensures { result ≡ nat_le (length (entries_bytes (entries_without but.now (entries_of entries.now)))) room }
{
    let mut left = room;
    for entry in entries {
        let len = len_but(entry, but);
        if left < len {
            return false;
        }
        left -= len;
    }
    true
}

/// How many bytes the entry takes, unless it is the key's.
fn len_but<A: Allocator>(entry: &Entry<A>, but: &Key<A>) -> u64
    ensures { result ≡ length (entries_bytes (entries_without but.now (entry_of entry.now ∷ []))) }
{
    if entry.key == *but {
        0
    } else {
        entry_len(entry) as u64
    }
}

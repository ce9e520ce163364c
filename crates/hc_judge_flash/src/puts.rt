// Large puts: entries that leave the queue for a region.
ghost use Rattle.std.specs.Prelude.{◌≡◌, ◌<◌, ◌≤◌, ◌^◌, List, [], ◌∷◌, length, Option, Some, option_map, IfOk, IfSome};
ghost use Rattle.std.specs.Str.{bytes_eq};
ghost use Rattle.hc_history.specs.Note.{Note as Meaning};
ghost use Rattle.hc_history.specs.Seen.{op_of};
ghost use Rattle.hc_history.specs.Books as books;
ghost use Rattle.hc_history.specs.Lawful.{past};
ghost use Rattle.hc_history.specs.Regions as spec;
ghost use Rattle.hc_judge_device.specs.Limits.{IsLimited};
ghost use Rattle.hc_judge_flash.specs.Puts as reading;

use hc_history::{Note, Op, Said};
use hc_judge_device::last;
use hc_judge_memory::entry_at;
use hc_types::{FlashConfig, Key, is_small};
use std::alloc::{AllocError, Allocator, Global};
use std::marker::Model;

/// An entry that leaves the queue for a region: its key, and how many bytes it takes there.
#[derive(Drop)]
pub struct Put<'a, A: Allocator = Global> {
    pub key: &'a Key<A>,
    pub bytes: u64,
}

impl<'a, A: Allocator> Model for Put<'a, A> {
    ghost use Rattle.hc_history.specs.Regions.{Put as Meaning};

    ghost Value = { Meaning };

    ghost view = { λ p. record { key = p.key.now; bytes = p.bytes } };
}

/// The large put of a key that leaves the queue, unless a call of its own takes it out. Refused only where memory
/// lacks.
pub fn put_from<'a, A: Allocator + Clone>(
    flash: &FlashConfig,
    before: &[Note<A>],
    key: &'a Key<A>,
    alloc: &A,
) -> Result<Option<Put<'a, A>>, AllocError>
    requires { IsLimited flash.now }
    ensures { IfOk result (λ put. put ≡ spec.put_from flash.now (past [] before.now) key.now) }
{
    if begins(before, key) {
        return Ok(None);
    }
    let len = value_len(flash, before, key, alloc)?;
    Ok(put_of(flash, key, len))
}

/// The large put of an entry of the key with a value of `len` bytes.
fn put_of<'a, A: Allocator>(
    flash: &FlashConfig,
    key: &'a Key<A>,
    len: Option<u64>,
) -> Option<Put<'a, A>>
    requires { IfSome len (λ n. n < 2 ^ 63) }
    ensures { (entry : Option books.Entry) → len ≡ option_map (λ e. length e.value) entry → result ≡ spec.put_of flash.now key.now entry }
{
    match len {
        Some(len) if !is_small(key, len, flash) => Some(Put {
            key,
            bytes: 14 + key.len() as u64 + len,
        }),
        _ => None,
    }
}

/// How many bytes the value has that the map has under the key.
fn value_len<A: Allocator + Clone>(
    flash: &FlashConfig,
    notes: &[Note<A>],
    key: &Key<A>,
    alloc: &A,
) -> Result<Option<u64>, AllocError>
    requires { IsLimited flash.now }
    ensures value { IfOk result (λ len. len ≡ option_map (λ e. length e.value) (books.entry_at (Some flash.now) (past [] notes.now) key.now)) }
    ensures bound { IfOk result (λ len. IfSome len (λ n. n < 2 ^ 63)) }
{
    match entry_at(&Some(*flash), notes, key, alloc)? {
        Some(entry) => Ok(Some(entry.len())),
        None => Ok(None),
    }
}

/// Whether the last note begins a call of the key.
fn begins<A: Allocator>(notes: &[Note<A>], key: &Key<A>) -> bool
    ensures { result ≡ spec.begins (past [] notes.now) key.now }
{
    match last(notes) {
        Some((note, _)) => is_begin(note, key),
        None => false,
    }
}

fn is_begin<A: Allocator>(note: &Note<A>, key: &Key<A>) -> bool
    ensures { (older : List Meaning) → result ≡ spec.begins (note.now ∷ older) key.now }
{
    match &note.said {
        Said::Begin { op, .. } => is_of(op, key),
        _ => false,
    }
}

/// Whether the call is one of the key.
fn is_of<A: Allocator>(op: &Op<A>, key: &Key<A>) -> bool
    ensures { result ≡ bytes_eq (spec.key_of (op_of op.now)) key.now }
{
    match op {
        Op::Insert(other, ..) | Op::Add(other, ..) | Op::Find(other) | Op::Remove(other) => {
            other == key
        }
    }
}

/// The large put that the last note tells. Refused only when out of memory.
pub fn put_told<'a, A: Allocator + Clone>(
    flash: &FlashConfig,
    notes: &'a [Note<A>],
    alloc: &A,
) -> Result<Option<Put<'a, A>>, AllocError>
    requires { IsLimited flash.now }
    ensures { IfOk result (λ put. put ≡ spec.put_told flash.now (past [] notes.now)) }
{
    match last(notes) {
        Some((note, before)) => told_by(flash, note, before, alloc),
        None => Ok(None),
    }
}

/// The large put that this note tells, after those before.
fn told_by<'a, A: Allocator + Clone>(
    flash: &FlashConfig,
    note: &'a Note<A>,
    before: &[Note<A>],
    alloc: &A,
) -> Result<Option<Put<'a, A>>, AllocError>
    requires { IsLimited flash.now }
    ensures { IfOk result (λ put. put ≡ spec.put_told flash.now (note.now ∷ past [] before.now)) }
{
    match &note.said {
        Said::Unqueued { key } => put_from(flash, before, key, alloc),
        _ => Ok(None),
    }
}

/// The notes before the opening of a region, where that comes last.
fn before_opening<A: Allocator>(notes: &[Note<A>]) -> &[Note<A>]
    ensures { past [] result.now ≡ reading.before_opening (past [] notes.now) }
{
    match last(notes) {
        Some((note, before)) if is_opening(note) => before,
        _ => notes,
    }
}

fn is_opening<A: Allocator>(note: &Note<A>) -> bool
    ensures { result ≡ reading.is_opening note.now }
{
    matches!(&note.said, Said::Opened { .. })
}

/// The large put that is under way: the last note tells it, or the one before the opening of its region. Refused only
/// when out of memory.
pub fn put_under_way<'a, A: Allocator + Clone>(
    flash: &FlashConfig,
    notes: &'a [Note<A>],
    alloc: &A,
) -> Result<Option<Put<'a, A>>, AllocError>
    requires { IsLimited flash.now }
    ensures { IfOk result (λ put. put ≡ spec.put_under_way flash.now (past [] notes.now)) }
{
    put_told(flash, before_opening(notes), alloc)
}

/// The notes before that put.
#[must_use]
pub fn before_put<A: Allocator>(notes: &[Note<A>]) -> &[Note<A>]
    ensures { past [] result.now ≡ spec.before_put (past [] notes.now) }
{
    match last(before_opening(notes)) {
        Some((note, before)) if is_unqueuing(note) => before,
        _ => notes,
    }
}

fn is_unqueuing<A: Allocator>(note: &Note<A>) -> bool
    ensures { result ≡ reading.is_unqueuing note.now }
{
    matches!(&note.said, Said::Unqueued { .. })
}

/// Whether the put is one of the key.
#[must_use]
pub fn is_put_of<A: Allocator>(key: &Key<A>, put: &Option<Put<'_, A>>) -> bool
    ensures { result ≡ spec.is_put_of key.now put.now }
{
    match put {
        Some(put) => put.key == key,
        None => false,
    }
}

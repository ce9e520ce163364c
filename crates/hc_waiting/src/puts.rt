// The puts that wait.
ghost use Rattle.std.specs.Prelude.{◌≡◌, ◌==◌, ℕ, ◌<◌, ◌≤◌, ◌+◌, ◌++◌, ◌^◌, ◌∷◌, [], Bool, length, find, is_some, option_map, slice_get, drop, None, Some, IfOk, OnOk};
ghost use Rattle.std.specs.Option.{option_copied};
ghost use Rattle.hc_types.specs.FlashEntry.{entry_of};
ghost use Rattle.hc_machine.specs.Nvm.{put_at, without_put};
ghost use Rattle.hc_queue.specs.Queue.{Answers};
ghost use Rattle.hc_waiting.specs.Line.{piece_by, piece_of};
ghost use Rattle.hc_waiting.specs.Puts.{can_be_put, lane_of as lane_of_put, put_in as put_in_piece, ArePutsApart};

use crate::line::Line;
use bytes::Bytes;
use hc_queue::{Named, Piece};
use hc_types::{Entry, FlashConfig, Key, bucket_of, is_small};
use std::alloc::{AllocError, Allocator, Global};
use std::marker::Model;

/// What is put under a key.
#[derive(Drop)]
pub(crate) struct Waiting<A: Allocator = Global> {
    value: Bytes<A>,
    pool: u8,
    /// The second at which it expires (0: never).
    expiry: u64,
}

/// The puts that wait, the oldest first, of which no two are of one key. Small ones of one bucket wait for each other.
///
/// Room is made first, by `reserve`: then a put is pushed or removed without an allocation. Contracts see the puts, and for how
/// many more there is room.
#[derive(Drop)]
pub struct Puts<A: Allocator = Global> {
    flash: FlashConfig,
    line: Line<Waiting<A>, A>,
}

impl<A: Allocator> Model for Puts<A> {
    ghost use Rattle.std.specs.Prelude.{◌≤◌};
    ghost use Rattle.hc_waiting.specs.Puts.{PutLine, AreLaned, puts_in};

    ghost Value = { PutLine };

    ghost view = { λ p. record { flash = p.flash; puts = puts_in p.line.pieces; room = p.line.room } };

    ghost invariant = { λ p. (p.flash.bits ≤ 64) × (1 ≤ p.flash.buckets) × (p.flash.buckets ≤ 1048576) × AreLaned p.flash p.line.pieces };
}

/// The put that the piece is.
fn put_in<A: Allocator>(piece: Piece<Named<Waiting<A>, A>>) -> Entry<A>
    ensures { entry_of result ≡ put_in_piece piece }
{
    let Named { key, value } = piece.value;
    let Waiting {
        value,
        pool,
        expiry,
    } = value;
    Entry {
        key,
        value,
        pool,
        expiry,
    }
}

/// The put that the piece is, where there is one.
fn put_by<A: Allocator>(piece: Option<Piece<Named<Waiting<A>, A>>>) -> Option<Entry<A>>
    ensures { option_map entry_of result ≡ option_map put_in_piece piece }
{
    match piece {
        Some(piece) => Some(put_in(piece)),
        None => None,
    }
}

/// The lane of an entry that is put: its bucket, where it is small.
fn lane_of<A: Allocator>(flash: &FlashConfig, entry: &Entry<A>) -> Option<u32>
    requires bits { flash.now.bits ≤ 64 }
    requires some_bucket { 1 ≤ flash.now.buckets }
    requires most_buckets { flash.now.buckets ≤ 1048576 }
    ensures { result ≡ lane_of_put flash.now (entry_of entry.now) }
{
    if is_small(&entry.key, entry.value.len() as u64, flash) {
        Some(bucket_of(&entry.key, flash) as u32)
    } else {
        None
    }
}

impl<A: Allocator> Puts<A> {
    /// How many wait.
    #[must_use]
    pub fn len(&self) -> usize
        ensures { result ≡ length self.now.puts }
    {
        self.line.len()
    }

    /// Whether there is none.
    #[must_use]
    pub fn is_empty(&self) -> bool
        ensures { result ≡ (length self.now.puts == 0) }
    {
        self.line.len() == 0
    }

    /// Whether one of this key waits.
    #[must_use]
    pub fn contains(&self, key: &Key<A>) -> bool
        ensures { result ≡ is_some (put_at key.now self.now.puts) }
    {
        self.line.contains(key)
    }

    /// What holds of the puts at every time: a law to call where a proof asks for it. It does nothing.
    pub fn is_sound(&self)
        ensures { ArePutsApart self.now.puts }
    {
        self.line.is_sound();
    }
}

impl<A: Allocator + Copy> Puts<A> {
    /// None waits.
    pub fn new(alloc: A, flash: FlashConfig) -> Puts<A>
        requires bits { flash.bits ≤ 64 }
        requires some_bucket { 1 ≤ flash.buckets }
        requires most_buckets { flash.buckets ≤ 1048576 }
        ensures { result ≡ record { flash = flash; puts = []; room = 0 } }
    {
        Puts {
            flash,
            line: Line::new(alloc),
        }
    }

    /// A copy of the key's, which takes no more than a key's memory. Refused only when out of memory.
    pub fn value(&self, key: &Key<A>) -> Result<Option<Entry<A>>, AllocError>
        ensures { IfOk result (λ put. option_map entry_of put ≡ put_at key.now self.now.puts) }
    {
        copy_at(&self.line, key)
    }

    /// The second at which the key's expires (0: never).
    #[must_use]
    pub fn expiry(&self, key: &Key<A>) -> Option<u64>
        ensures { result ≡ option_map (λ put. put.expiry) (put_at key.now self.now.puts) }
    {
        expiry_by(self.line.get(key))
    }

    /// Makes room for so many more. Refused only when out of memory; the puts stay as they were.
    pub fn reserve(&mut self, more: usize) -> Result<(), AllocError>
        ensures flash { self.new.flash ≡ self.old.flash }
        ensures puts { self.new.puts ≡ self.old.puts }
        ensures room { OnOk result (more ≤ self.new.room) }
        ensures kept { self.old.room ≤ self.new.room }
    {
        self.line.reserve(more)
    }

    /// One more waits, behind the others. `copy` is its key once more.
    pub fn push(&mut self, copy: Key<A>, entry: Entry<A>)
        requires copy { copy ≡ entry.key }
        requires absent { put_at entry.key self.old.puts ≡ None }
        requires room { 1 ≤ self.old.room }
        ensures flash { self.new.flash ≡ self.old.flash }
        ensures puts { self.new.puts ≡ self.old.puts ++ entry_of entry ∷ [] }
        ensures room { self.old.room ≤ self.new.room + 1 }
    {
        let lane = lane_of(&self.flash, &entry);
        let Entry {
            key,
            value,
            pool,
            expiry,
        } = entry;
        let waiting = Waiting {
            value,
            pool,
            expiry,
        };
        self.line.push(copy, key, lane, waiting);
    }

    /// Takes the key's out.
    pub fn remove(&mut self, key: &Key<A>) -> Option<Entry<A>>
        ensures flash { self.new.flash ≡ self.old.flash }
        ensures put { option_map entry_of result ≡ put_at key.now self.old.puts }
        ensures puts { self.new.puts ≡ without_put key.now self.old.puts }
        ensures room { self.old.room ≤ self.new.room }
    {
        put_by(self.line.remove(key))
    }

    /// Takes the oldest out. Nothing is refused.
    pub fn remove_oldest(&mut self) -> Option<Entry<A>>
        ensures flash { self.new.flash ≡ self.old.flash }
        ensures put { option_map entry_of result ≡ slice_get self.old.puts 0 }
        ensures puts { self.new.puts ≡ drop 1 self.old.puts }
        ensures room { self.old.room ≤ self.new.room }
    {
        put_by(self.line.remove_oldest())
    }

    /// The first whose bucket isn't busy, or that is large: a copy of it, which takes no more than a key's memory.
    pub fn next<F: Fn(u32) -> bool>(&mut self, is_busy: F) -> Result<Option<Entry<A>>, AllocError>
        requires { F.IsAlwaysCallable is_busy }
        ensures flash { self.new.flash ≡ self.old.flash }
        ensures puts { self.new.puts ≡ self.old.puts }
        ensures room { self.old.room ≤ self.new.room }
        ensures next { (busy : ℕ → Bool) → Answers (F.post is_busy) busy → IfOk result (λ put. option_map entry_of put ≡ find (can_be_put self.old.flash busy) self.old.puts) }
    {
        let first = self.line.first(is_busy)?;
        copy_by(&self.line, first)
    }
}

/// A copy of the put of this key, where one is named.
fn copy_by<A: Allocator>(
    line: &Line<Waiting<A>, A>,
    key: Option<Key<A>>,
) -> Result<Option<Entry<A>>, AllocError>
    ensures { IfOk result (λ put. option_map entry_of put ≡ option_map put_in_piece (piece_by key line.now.pieces)) }
{
    let Some(key) = key else {
        return Ok(None);
    };
    copy_at(line, &key)
}

/// A copy of the put of this key, where there is one.
fn copy_at<A: Allocator>(
    line: &Line<Waiting<A>, A>,
    key: &Key<A>,
) -> Result<Option<Entry<A>>, AllocError>
    ensures { IfOk result (λ put. option_map entry_of put ≡ option_map put_in_piece (piece_of key.now line.now.pieces)) }
{
    match line.get(key) {
        Some(piece) => {
            let copy = copy_of(piece)?;
            Ok(Some(copy))
        }
        None => Ok(None),
    }
}

/// When the put that the piece is expires, where there is one.
fn expiry_by<A: Allocator>(piece: Option<&Piece<Named<Waiting<A>, A>>>) -> Option<u64>
    ensures { result ≡ option_map (λ put. put.expiry) (option_map put_in_piece (option_copied piece.entry)) }
{
    match piece {
        Some(piece) => Some(piece.value.value.expiry),
        None => None,
    }
}

/// A copy of the put that the piece is.
fn copy_of<A: Allocator>(piece: &Piece<Named<Waiting<A>, A>>) -> Result<Entry<A>, AllocError>
    ensures { IfOk result (λ entry. entry_of entry ≡ put_in_piece piece.now) }
{
    let key = piece.value.key.clone()?;
    let waiting = &piece.value.value;
    let value = waiting.value.clone()?;
    Ok(Entry {
        key,
        value,
        pool: waiting.pool,
        expiry: waiting.expiry,
    })
}

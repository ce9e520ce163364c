// The tombstones: keys whose copies on flash are stale, until a delete of them is over.
ghost use Rattle.std.specs.Prelude.{◌≡◌, ◌==◌, ℕ, ◌≤◌, ◌+◌, ◌++◌, ◌∷◌, [], Bool, false, length, find, filter, map, is_some, option_map, slice_get, drop, None, Some, IfOk, OnOk, if◌then◌else◌};
ghost use Rattle.std.specs.List.{list_any};
ghost use Rattle.hc_machine.specs.Nvm.{is_stone_of, taken_stone, without_stone};
ghost use Rattle.hc_types.specs.Places.{bucket_at};
ghost use Rattle.hc_queue.specs.Queue.{Answers};
ghost use Rattle.hc_waiting.specs.Tombstones.{can_be_deleted, is_of_bucket, is_out, AreStonesApart};
ghost use Rattle.hc_waiting.specs.Line.{without_first};
ghost use Rattle.hc_queue.specs.declared.queue.Piece.{Piece as PieceSeen};
ghost use Rattle.hc_queue.specs.declared.keyed.Named.{Named as NamedSeen};

use crate::line::Line;
use hc_queue::{Named, Piece};
use hc_types::{FlashConfig, Key, bucket_of};
use std::alloc::{AllocError, Allocator, Global};
use std::marker::Model;

/// The tombstones, in the order of their burying, of which no two are of one key. Those of one bucket wait for each other.
///
/// Room is made first, by `reserve`: then a tombstone is pushed, marked or removed without an allocation. Contracts see the
/// tombstones, and for how many more there is room.
#[derive(Drop)]
pub struct Tombstones<A: Allocator = Global> {
    flash: FlashConfig,
    line: Line<(), A>,
}

impl<A: Allocator> Model for Tombstones<A> {
    ghost use Rattle.std.specs.Prelude.{◌≤◌};
    ghost use Rattle.hc_waiting.specs.Tombstones.{StoneLine, AreBuried, stones_in};

    ghost Value = { StoneLine };

    ghost view = { λ t. record { flash = t.flash; stones = stones_in t.line.pieces; room = t.line.room } };

    ghost invariant = { λ t. (t.flash.bits ≤ 64) × (1 ≤ t.flash.buckets) × (t.flash.buckets ≤ 1048576) × AreBuried t.flash t.line.pieces };
}

/// The lane of a key: its bucket.
pub(crate) fn lane_of<A: Allocator>(flash: &FlashConfig, key: &Key<A>) -> u32
    requires bits { flash.now.bits ≤ 64 }
    requires some_bucket { 1 ≤ flash.now.buckets }
    requires most_buckets { flash.now.buckets ≤ 1048576 }
    ensures { result ≡ bucket_at flash.now key.now }
{
    bucket_of(key, flash) as u32
}

/// The key of the piece, where there is one.
fn key_of<A: Allocator>(piece: Option<Piece<Named<(), A>>>) -> Option<Key<A>>
    ensures { result ≡ option_map (λ (piece : PieceSeen (NamedSeen _ _)). piece.value.key) piece }
{
    match piece {
        Some(piece) => Some(piece.value.key),
        None => None,
    }
}

impl<A: Allocator> Tombstones<A> {
    /// How many stand.
    #[must_use]
    pub fn len(&self) -> usize
        ensures { result ≡ length self.now.stones }
    {
        self.line.len()
    }

    /// Whether there is none.
    #[must_use]
    pub fn is_empty(&self) -> bool
        ensures { result ≡ (length self.now.stones == 0) }
    {
        self.line.len() == 0
    }

    /// Whether one of this key stands.
    #[must_use]
    pub fn contains(&self, key: &Key<A>) -> bool
        ensures { result ≡ list_any (is_stone_of key.now) self.now.stones }
    {
        self.line.contains(key)
    }

    /// Whether a delete is out. All of them are looked at.
    #[must_use]
    pub fn any_out(&self) -> bool
        ensures { result ≡ list_any is_out self.now.stones }
    {
        self.line.any_taken()
    }

    /// What holds of the tombstones at every time: a law to call where a proof asks for it. It does nothing.
    pub fn is_sound(&self)
        ensures { AreStonesApart self.now.stones }
    {
        self.line.is_sound();
    }
}

impl<A: Allocator + Copy> Tombstones<A> {
    /// None stands.
    pub fn new(alloc: A, flash: FlashConfig) -> Tombstones<A>
        requires bits { flash.bits ≤ 64 }
        requires some_bucket { 1 ≤ flash.buckets }
        requires most_buckets { flash.buckets ≤ 1048576 }
        ensures { result ≡ record { flash = flash; stones = []; room = 0 } }
    {
        Tombstones {
            flash,
            line: Line::new(alloc),
        }
    }

    /// Makes room for so many more. Refused only when out of memory; what waits stays as it was.
    pub fn reserve(&mut self, more: usize) -> Result<(), AllocError>
        ensures flash { self.new.flash ≡ self.old.flash }
        ensures stones { self.new.stones ≡ self.old.stones }
        ensures room { OnOk result (more ≤ self.new.room) }
        ensures kept { self.old.room ≤ self.new.room }
    {
        self.line.reserve(more)
    }

    /// The key gets one. `copy` is the key once more.
    pub fn push(&mut self, copy: Key<A>, key: Key<A>)
        requires copy { copy ≡ key }
        requires absent { list_any (is_stone_of key) self.old.stones ≡ false }
        requires room { 1 ≤ self.old.room }
        ensures flash { self.new.flash ≡ self.old.flash }
        ensures stones { self.new.stones ≡ self.old.stones ++ record { key = key; taken = false } ∷ [] }
        ensures room { self.old.room ≤ self.new.room + 1 }
    {
        let lane = lane_of(&self.flash, &key);
        self.line.push(copy, key, Some(lane), ());
    }

    /// The key's delete is out from here on.
    pub fn mark(&mut self, key: &Key<A>)
        ensures flash { self.new.flash ≡ self.old.flash }
        ensures stones { self.new.stones ≡ taken_stone key.now self.old.stones }
        ensures room { self.new.room ≡ self.old.room }
    {
        self.line.mark(key);
    }

    /// The key's ends. Answers whether there was one.
    pub fn remove(&mut self, key: &Key<A>) -> bool
        ensures flash { self.new.flash ≡ self.old.flash }
        ensures there { result ≡ list_any (is_stone_of key.now) self.old.stones }
        ensures stones { self.new.stones ≡ without_stone key.now self.old.stones }
        ensures one { map (λ stone. stone.key) (filter (is_stone_of key.now) self.old.stones) ≡ (if result then key.now ∷ [] else []) }
        ensures room { self.old.room ≤ self.new.room }
    {
        self.line.is_sound();
        self.line.remove(key).is_some()
    }

    /// The bucket's first ends, whether its delete is out or not. Answers its key.
    pub fn remove_first(&mut self, bucket: u32) -> Option<Key<A>>
        ensures flash { self.new.flash ≡ self.old.flash }
        ensures key { result ≡ option_map (λ stone. stone.key) (find (is_of_bucket self.old.flash bucket) self.old.stones) }
        ensures stones { self.new.stones ≡ without_first (is_of_bucket self.old.flash bucket) self.old.stones }
        ensures room { self.old.room ≤ self.new.room }
    {
        key_of(self.line.remove_first(bucket))
    }

    /// The oldest ends, whether its delete is out or not. Answers its key. Nothing is refused.
    pub fn remove_oldest(&mut self) -> Option<Key<A>>
        ensures flash { self.new.flash ≡ self.old.flash }
        ensures key { result ≡ option_map (λ stone. stone.key) (slice_get self.old.stones 0) }
        ensures stones { self.new.stones ≡ drop 1 self.old.stones }
        ensures room { self.old.room ≤ self.new.room }
    {
        key_of(self.line.remove_oldest())
    }

    /// The key of the first delete that isn't out and whose bucket isn't busy.
    pub fn next<F: Fn(u32) -> bool>(&mut self, is_busy: F) -> Result<Option<Key<A>>, AllocError>
        requires { F.IsAlwaysCallable is_busy }
        ensures flash { self.new.flash ≡ self.old.flash }
        ensures stones { self.new.stones ≡ self.old.stones }
        ensures room { self.old.room ≤ self.new.room }
        ensures next { (busy : ℕ → Bool) → Answers (F.post is_busy) busy → IfOk result (λ key. key ≡ option_map (λ stone. stone.key) (find (can_be_deleted self.old.flash busy) self.old.stones)) }
    {
        self.line.first(is_busy)
    }
}

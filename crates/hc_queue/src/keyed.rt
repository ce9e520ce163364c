// A queue whose pieces have keys, of which no two are the same.
ghost use Rattle.std.specs.Prelude.{◌≡◌, ◌+◌, ◌<◌, ◌≤◌, ◌==◌, ◌++◌, length, List, if◌then◌else◌, [], ◌∷◌, ℕ, Bool, false, find, option_map, is_some, IfOk, OnOk, OnErr, max, Some, None};
ghost use Rattle.std.specs.Option.{option_copied};
ghost use Rattle.indexmap.specs.IndexMap.{get, spare};
ghost use Rattle.hc_queue.specs.Queue.{Answers, can_go, piece_at, without_number, taken_at, piece_by, pieces_of, in_lane, first_in_lane, above, IsRising, oldest, any_taken};
ghost use Rattle.hc_queue.specs.Keys.{number_of, without_key, same_key, value_of, named_at, AreApart};

use crate::queue::{Piece, Queue};
use hc_types::Key;
use indexmap::IndexMap;
use std::alloc::{AllocError, Allocator, Global};
use std::hash::{BuildHasherDefault, FoldHasher};
use std::marker::Model;

/// A value, and the key under which it waits.
#[derive(Drop)]
pub struct Named<V, A: Allocator = Global> {
    pub key: Key<A>,
    pub value: V,
}

/// A queue whose pieces are found by their keys, of which no two are the same.
#[derive(Drop)]
pub struct KeyedQueue<V, A: Allocator = Global> {
    queue: Queue<Named<V, A>, A>,
    numbers: IndexMap<Key<A>, u64, BuildHasherDefault<FoldHasher>, A>,
}

impl<V, A: Allocator> Model for KeyedQueue<V, A> {
    ghost use Rattle.hc_queue.specs.Queued.{Queued};
    ghost use Rattle.hc_queue.specs.declared.keyed.Named.{Named};
    ghost use Rattle.hc_queue.specs.Keys.{IsIndexed};

    ghost Value = { Queued (Named V A) };

    ghost view = { λ s. s.queue };

    ghost invariant = { λ s. IsIndexed s.queue.entries s.queue.room s.numbers };
}

impl<V, A: Allocator + Copy> KeyedQueue<V, A> {
    /// Nothing waits, and there is no room.
    pub fn new(alloc: A) -> KeyedQueue<V, A>
        ensures { result ≡ record { entries = []; room = 0 } }
    {
        KeyedQueue {
            queue: Queue::new(alloc),
            numbers: IndexMap::new(alloc),
        }
    }
}

impl<V, A: Allocator> KeyedQueue<V, A> {
    /// How many pieces there are, the taken ones among them.
    #[must_use]
    pub fn len(&self) -> usize
        ensures { result ≡ length self.now.entries }
    {
        self.queue.len()
    }

    /// Whether there is no piece.
    #[must_use]
    pub fn is_empty(&self) -> bool
        ensures { result ≡ (length self.now.entries == 0) }
    {
        self.queue.is_empty()
    }

    /// How many more pieces can be pushed.
    #[must_use]
    pub fn room(&self) -> usize
        ensures { result ≡ self.now.room }
    {
        self.queue.room()
    }

    /// The piece with this number.
    #[must_use]
    pub fn get(&self, number: u64) -> Option<&Piece<Named<V, A>>>
        ensures { option_copied result ≡ piece_at number self.now.entries }
    {
        self.queue.get(number)
    }

    /// The number of the piece with this key.
    #[must_use]
    pub fn number_of(&self, key: &Key<A>) -> Option<u64>
        ensures { result ≡ number_of key.now self.now.entries }
    {
        self.numbers.get(key).copied()
    }

    /// Whether a piece has this key.
    #[must_use]
    pub fn contains(&self, key: &Key<A>) -> bool
        ensures { result ≡ is_some (number_of key.now self.now.entries) }
    {
        self.numbers.get(key).is_some()
    }

    /// What holds of the pieces at every time.
    pub fn is_sound(&self)
        ensures rising { IsRising self.now.entries }
        ensures apart { AreApart self.now.entries }
    {
        let _numbers = &self.numbers;
        self.queue.is_sound();
    }

    /// The number of the lane's first piece, taken or not. Nothing is refused; see [`Queue::first_of`] for what it looks at.
    #[must_use]
    pub fn first_of(&self, lane: u32) -> Option<u64>
        ensures { result ≡ first_in_lane lane self.now.entries }
    {
        self.queue.first_of(lane)
    }

    /// The number of the first piece, taken or not. Nothing is refused; see [`Queue::oldest`] for what it looks at.
    #[must_use]
    pub fn oldest(&self) -> Option<u64>
        ensures { result ≡ oldest self.now.entries }
    {
        self.queue.oldest()
    }

    /// Whether a piece is taken. All pieces are looked at.
    #[must_use]
    pub fn any_taken(&self) -> bool
        ensures { result ≡ any_taken self.now.entries }
    {
        self.queue.any_taken()
    }

    /// The value waits behind all others under a key that no piece has; its number is answered. It needs room, and the key
    /// twice: nothing is copied here, so that nothing is refused.
    pub fn push(&mut self, copy: Key<A>, key: Key<A>, lane: Option<u32>, value: V) -> u64
        requires same { copy ≡ key }
        requires apart { number_of key self.old.entries ≡ None }
        requires room { 1 ≤ self.old.room }
        ensures entries { self.new.entries ≡ self.old.entries ++ (result, record { lane = lane; taken = false; value = record { key = key; value = value } }) ∷ [] }
        ensures room { self.old.room ≡ self.new.room + 1 }
    {
        let number = self.queue.push(lane, Named { key, value });
        note(&mut self.numbers, copy, number);
        number
    }

    /// The piece with this number stays, but its turn doesn't come again. Nothing is refused.
    pub fn mark(&mut self, number: u64)
        ensures entries { self.new.entries ≡ taken_at number self.old.entries }
        ensures room { self.new.room ≡ self.old.room }
    {
        self.queue.mark(number);
    }

    /// Takes the piece with this key out, where there is one. Nothing is refused.
    pub fn remove(&mut self, key: &Key<A>) -> Option<Piece<Named<V, A>>>
        ensures piece { result ≡ piece_by (number_of key.now self.old.entries) self.old.entries }
        ensures entries { self.new.entries ≡ without_key key.now self.old.entries }
        ensures room { self.new.room ≡ self.old.room }
    {
        let _len = self.queue.len();
        let Some(number) = self.numbers.get(key).copied() else {
            return None;
        };
        forget(&mut self.numbers, key);
        self.queue.remove(number)
    }

    /// Takes the piece with this number out, where there is one. Nothing is refused.
    pub fn remove_at(&mut self, number: u64) -> Option<Piece<Named<V, A>>>
        ensures piece { result ≡ piece_at number self.old.entries }
        ensures entries { self.new.entries ≡ without_number number self.old.entries }
        ensures room { self.new.room ≡ self.old.room }
    {
        let _len = self.queue.len();
        let Some(piece) = self.queue.remove(number) else {
            return None;
        };
        forget(&mut self.numbers, &piece.value.key);
        Some(piece)
    }
}

impl<V: Drop, A: Allocator> KeyedQueue<V, A> {
    /// The value of the piece with this number is another from here on, under the same key. The one before comes back; where
    /// there is no such piece, the value is dropped. Nothing is refused.
    pub fn replace(&mut self, number: u64, value: V) -> Option<V>
        ensures value { result ≡ option_map value_of (piece_at number self.old.entries) }
        ensures entries { self.new.entries ≡ named_at number value self.old.entries }
        ensures room { self.new.room ≡ self.old.room }
    {
        self.queue.replace(number, value)
    }
}

impl<V: Drop, A: Allocator + Copy> KeyedQueue<V, A> {
    /// Room for so many more pieces. Refused only when out of memory, or where the numbers run out; the pieces stay as they
    /// were.
    pub fn reserve(&mut self, more: usize) -> Result<(), AllocError>
        ensures entries { self.new.entries ≡ self.old.entries }
        ensures grows { self.old.room ≤ self.new.room }
        ensures most { self.new.room ≤ max self.old.room more }
        ensures ok { OnOk result (more ≤ self.new.room) }
        ensures err { OnErr result (self.new ≡ self.old) }
    {
        self.numbers.reserve(more)?;
        self.queue.reserve(more)
    }

    /// The number of the first piece whose turn has come: of all that aren't taken and wait in no busy lane, the first. Refused
    /// only when out of memory; the pieces stay as they were.
    pub fn first<F: Fn(u32) -> bool>(&mut self, is_busy: F) -> Result<Option<u64>, AllocError>
        requires { F.IsAlwaysCallable is_busy }
        ensures same { self.new ≡ self.old }
        ensures number { (busy : ℕ → Bool) → Answers (F.post is_busy) busy → IfOk result (λ number. number ≡ option_map (λ e. e.0) (find (λ e. can_go busy e.1) self.old.entries)) }
        ensures piece { (busy : ℕ → Bool) → Answers (F.post is_busy) busy → IfOk result (λ number. piece_by number self.old.entries ≡ find (can_go busy) (pieces_of self.old.entries)) }
    {
        self.queue.first(is_busy)
    }

    /// The number of the lane's first piece behind this number, taken or not. Refused only when out of memory; the pieces stay
    /// as they were.
    pub fn next_of(&mut self, lane: u32, number: u64) -> Result<Option<u64>, AllocError>
        requires { number < u64.MAX }
        ensures same { self.new ≡ self.old }
        ensures number { IfOk result (λ next. next ≡ above number (in_lane lane self.old.entries)) }
    {
        self.queue.next_of(lane, number)
    }
}

type Numbers<A> = IndexMap<Key<A>, u64, BuildHasherDefault<FoldHasher>, A>;

/// The key leads to the number from here on.
fn note<A: Allocator>(numbers: &mut Numbers<A>, key: Key<A>, number: u64)
    requires { 0 < spare numbers.old }
    ensures leads { (q : List ℕ) → get same_key numbers.new q ≡ (if same_key key q then Some number else get same_key numbers.old q) }
    ensures room { spare numbers.old ≤ spare numbers.new + 1 }
{
    let _ = numbers.insert(key, number);
}

/// The key leads nowhere from here on.
fn forget<A: Allocator>(numbers: &mut Numbers<A>, key: &Key<A>)
    ensures leads { (q : List ℕ) → get same_key numbers.new q ≡ (if same_key key.now q then None else get same_key numbers.old q) }
    ensures room { spare numbers.old ≤ spare numbers.new }
{
    numbers.swap_remove(key);
}

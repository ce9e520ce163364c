// What waits in order, each under a key of its own.
ghost use Rattle.std.specs.Prelude.{◌≡◌, ◌≤◌, ◌+◌, ◌++◌, length, List, [], ◌∷◌, ℕ, Bool, find, IfOk, OnOk, Some, None, is_some, false, option_map, slice_get, drop};
ghost use Rattle.std.specs.List.{list_any};
ghost use Rattle.std.specs.Option.{option_copied};
ghost use Rattle.hc_queue.specs.declared.queue.Piece.{Piece as PieceSeen};
ghost use Rattle.hc_queue.specs.declared.keyed.Named.{Named as NamedSeen};
ghost use Rattle.hc_queue.specs.Queue.{Answers, can_go, piece_by as piece_numbered};
ghost use Rattle.hc_waiting.specs.Line.{piece_of, piece_by, without_key, taken_key, with_value, in_lane, without_first, is_taken, AreApart};
ghost use Rattle.hc_queue.specs.Keys.{value_of};

use hc_queue::{KeyedQueue, Named, Piece};
use hc_types::Key;
use std::alloc::{AllocError, Allocator, Global};
use std::marker::Model;

/// A queue of pieces that are named by their keys alone.
#[derive(Drop)]
pub(crate) struct Line<V, A: Allocator = Global> {
    queue: KeyedQueue<V, A>,
}

impl<V, A: Allocator> Model for Line<V, A> {
    ghost use Rattle.hc_waiting.specs.Line.{Lined};
    ghost use Rattle.hc_queue.specs.Queue.{pieces_of};
    ghost use Rattle.hc_queue.specs.declared.keyed.Named.{Named};

    ghost Value = { Lined (Named V A) };

    ghost view = { λ l. record { pieces = pieces_of l.queue.entries; room = l.queue.room } };
}

impl<V, A: Allocator + Copy> Line<V, A> {
    /// Nothing waits.
    pub(crate) fn new(alloc: A) -> Line<V, A>
        ensures { result ≡ record { pieces = []; room = 0 } }
    {
        Line {
            queue: KeyedQueue::new(alloc),
        }
    }
}

impl<V: Drop, A: Allocator> Line<V, A> {
    /// How many wait, the taken ones among them.
    pub(crate) fn len(&self) -> usize
        ensures { result ≡ length self.now.pieces }
    {
        self.queue.len()
    }

    /// The piece under the key.
    pub(crate) fn get(&self, key: &Key<A>) -> Option<&Piece<Named<V, A>>>
        ensures { option_copied result ≡ piece_of key.now self.now.pieces }
    {
        self.queue.is_sound();
        match self.queue.number_of(key) {
            Some(number) => self.queue.get(number),
            None => None,
        }
    }

    /// Whether a piece is taken.
    pub(crate) fn any_taken(&self) -> bool
        ensures { result ≡ list_any is_taken self.now.pieces }
    {
        self.queue.any_taken()
    }

    /// Whether a piece is under the key.
    pub(crate) fn contains(&self, key: &Key<A>) -> bool
        ensures { result ≡ is_some (piece_of key.now self.now.pieces) }
    {
        self.queue.contains(key)
    }

    /// What holds of it at all times.
    pub(crate) fn is_sound(&self)
        ensures { AreApart self.now.pieces }
    {
        self.queue.is_sound();
    }
}

impl<V: Drop, A: Allocator + Copy> Line<V, A> {
    /// Makes room for so many pieces more. Refused only when out of memory.
    pub(crate) fn reserve(&mut self, more: usize) -> Result<(), AllocError>
        ensures pieces { self.new.pieces ≡ self.old.pieces }
        ensures room { OnOk result (more ≤ self.new.room) }
        ensures kept { self.old.room ≤ self.new.room }
    {
        self.queue.reserve(more)
    }

    /// The value waits behind all others. `copy` is its key once more.
    pub(crate) fn push(&mut self, copy: Key<A>, key: Key<A>, lane: Option<u32>, value: V)
        requires copy { copy ≡ key }
        requires absent { piece_of key self.old.pieces ≡ None }
        requires room { 1 ≤ self.old.room }
        ensures pieces { self.new.pieces ≡ self.old.pieces ++ record { lane = lane; taken = false; value = record { key = key; value = value } } ∷ [] }
        ensures room { self.old.room ≤ self.new.room + 1 }
    {
        self.queue.push(copy, key, lane, value);
    }

    /// The piece under the key stays, but its turn doesn't come again.
    pub(crate) fn mark(&mut self, key: &Key<A>)
        ensures pieces { self.new.pieces ≡ taken_key key.now self.old.pieces }
        ensures room { self.new.room ≡ self.old.room }
    {
        self.queue.is_sound();
        match self.queue.number_of(key) {
            Some(number) => self.queue.mark(number),
            None => (),
        }
    }

    /// Takes the piece under the key out.
    pub(crate) fn remove(&mut self, key: &Key<A>) -> Option<Piece<Named<V, A>>>
        ensures piece { result ≡ piece_of key.now self.old.pieces }
        ensures pieces { self.new.pieces ≡ without_key key.now self.old.pieces }
        ensures room { self.old.room ≤ self.new.room }
    {
        self.queue.is_sound();
        self.queue.remove(key)
    }

    /// Takes the first piece of the lane out, taken or not.
    pub(crate) fn remove_first(&mut self, lane: u32) -> Option<Piece<Named<V, A>>>
        ensures piece { result ≡ find (in_lane lane) self.old.pieces }
        ensures pieces { self.new.pieces ≡ without_first (in_lane lane) self.old.pieces }
        ensures room { self.old.room ≤ self.new.room }
    {
        self.queue.is_sound();
        match self.queue.first_of(lane) {
            Some(number) => self.queue.remove_at(number),
            None => None,
        }
    }

    /// Takes the oldest piece out, taken or not. Nothing is refused.
    pub(crate) fn remove_oldest(&mut self) -> Option<Piece<Named<V, A>>>
        ensures piece { result ≡ slice_get self.old.pieces 0 }
        ensures pieces { self.new.pieces ≡ drop 1 self.old.pieces }
        ensures room { self.old.room ≤ self.new.room }
    {
        self.queue.is_sound();
        match self.queue.oldest() {
            Some(number) => self.queue.remove_at(number),
            None => None,
        }
    }

    /// The value under the key is this from here on. The one before comes back; where there is none, nothing changes.
    pub(crate) fn replace(&mut self, key: &Key<A>, value: V) -> Option<V>
        ensures old { result ≡ option_map value_of (piece_of key.now self.old.pieces) }
        ensures pieces { self.new.pieces ≡ with_value key.now value self.old.pieces }
        ensures room { self.new.room ≡ self.old.room }
    {
        self.queue.is_sound();
        match self.queue.number_of(key) {
            Some(number) => self.queue.replace(number, value),
            None => {
                drop(value);
                None
            }
        }
    }

    /// The key of the first piece whose turn has come: of all that aren't taken and stand in no busy lane, the first.
    /// Refused only when out of memory.
    pub(crate) fn first<F: Fn(u32) -> bool>(
        &mut self,
        is_busy: F,
    ) -> Result<Option<Key<A>>, AllocError>
        requires { F.IsAlwaysCallable is_busy }
        ensures pieces { self.new.pieces ≡ self.old.pieces }
        ensures room { self.old.room ≤ self.new.room }
        ensures first { (busy : ℕ → Bool) → Answers (F.post is_busy) busy → IfOk result (λ key. key ≡ option_map (λ (piece : PieceSeen (NamedSeen _ _)). piece.value.key) (find (can_go busy) self.old.pieces)) }
        ensures piece { (busy : ℕ → Bool) → Answers (F.post is_busy) busy → IfOk result (λ key. piece_by key self.old.pieces ≡ find (can_go busy) self.old.pieces) }
    {
        self.queue.is_sound();
        let first = self.queue.first(is_busy)?;
        key_of(&self.queue, first)
    }
}

/// The key of the piece with this number, where one is named.
fn key_of<V: Drop, A: Allocator>(
    queue: &KeyedQueue<V, A>,
    number: Option<u64>,
) -> Result<Option<Key<A>>, AllocError>
    ensures { IfOk result (λ key. key ≡ option_map (λ (piece : PieceSeen (NamedSeen _ _)). piece.value.key) (piece_numbered number queue.now.entries)) }
{
    let Some(number) = number else {
        return Ok(None);
    };
    match queue.get(number) {
        Some(piece) => {
            let key = piece.value.key.clone()?;
            Ok(Some(key))
        }
        None => Ok(None),
    }
}

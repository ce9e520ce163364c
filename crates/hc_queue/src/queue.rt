// Pieces of work in order, and the first whose turn has come.
ghost use Rattle.std.specs.Prelude.{◌≡◌, ◌+◌, ◌<◌, ◌≤◌, ◌^◌, ◌==◌, ◌++◌, [], ◌∷◌, ℕ, Bool, false, length, find, option_map, IfOk, OnOk, OnErr, max, Some, None};
ghost use Rattle.std.specs.Option.{option_copied};
ghost use Rattle.std.specs.VecDeque.{deque_len, deque_capacity};
ghost use Rattle.hc_queue.specs.Queue.{Answers, can_go, piece_at, without_number, taken_at, in_lane, first_in_lane, above, pieces_of, piece_by, IsRising, Rises, numbered, oldest, any_taken};
ghost use Rattle.hc_queue.specs.Keys.{value_of, named_at};

use crate::inbox::{
    Inbox, any_taken_in, first_in, get_in, mark_in, oldest_in, replace_in, settle, take_in,
};
use crate::keyed::Named;
use crate::order::Order;
use std::alloc::{AllocError, Allocator, Global};
use std::collections::VecDeque;
use std::marker::Model;

/// A piece of work that waits in a lane, or in none. One that was taken stays, but its turn doesn't come again.
#[derive(Drop)]
pub struct Piece<V> {
    pub lane: Option<u32>,
    pub taken: bool,
    pub value: V,
}

/// Pieces of work in order. A piece in no lane may always go, one in a lane while that isn't busy, and of each lane the first
/// goes first; which lanes are busy is the caller's to say. `first` looks at no more than a piece of each busy lane, however many
/// pieces or lanes there are.
///
/// Room is made first, by `reserve`: then a piece is pushed, taken out or marked without an allocation, so that these can't be
/// refused. What they change is put in order by the next call that may be. `first_of` can't be refused either: where no piece
/// of its lane stands in order, it looks at those that were pushed since, so that these are few where each plan makes room.
///
/// Contracts see the pieces with their numbers, which rise, and how many more can be pushed.
#[derive(Drop)]
pub struct Queue<V, A: Allocator = Global> {
    /// The pieces that stand in order.
    order: Order<V, A>,
    /// The pieces that were pushed since.
    inbox: Inbox<V, A>,
    /// The number of the inbox's first place.
    from: u64,
    /// How many more pieces can be pushed.
    room: usize,
    /// How many pieces there are.
    count: usize,
}

impl<V, A: Allocator> Model for Queue<V, A> {
    ghost use Rattle.std.specs.Prelude.{◌++◌};
    ghost use Rattle.hc_queue.specs.Queued.{Queued};
    ghost use Rattle.hc_queue.specs.Queue.{Stands, numbered};

    ghost Value = { Queued V };

    ghost view = { λ s. record { entries = s.order.entries ++ numbered s.from s.inbox.items; room = s.room } };

    ghost invariant = { λ s. Stands s.order s.inbox s.from s.room s.count };
}

impl<V, A: Allocator + Copy> Queue<V, A> {
    /// Nothing waits, and there is no room.
    pub fn new(alloc: A) -> Queue<V, A>
        ensures { result ≡ record { entries = []; room = 0 } }
    {
        Queue {
            order: Order::new(alloc),
            inbox: VecDeque::new(alloc),
            from: 0,
            room: 0,
            count: 0,
        }
    }
}

impl<V, A: Allocator> Queue<V, A> {
    /// How many pieces there are, the taken ones among them.
    #[must_use]
    pub fn len(&self) -> usize
        ensures len { result ≡ length self.now.entries }
        ensures rising { IsRising self.now.entries }
    {
        let _from = self.from;
        self.count
    }

    /// Whether there is no piece.
    #[must_use]
    pub fn is_empty(&self) -> bool
        ensures { result ≡ (length self.now.entries == 0) }
    {
        self.count == 0
    }

    /// How many more pieces can be pushed.
    #[must_use]
    pub fn room(&self) -> usize
        ensures { result ≡ self.now.room }
    {
        self.room
    }

    /// The piece with this number.
    #[must_use]
    pub fn get(&self, number: u64) -> Option<&Piece<V>>
        ensures { option_copied result ≡ piece_at number self.now.entries }
    {
        if number < self.from {
            self.order.get(number)
        } else {
            get_in(&self.inbox, (number - self.from) as usize)
        }
    }

    /// What holds of the pieces at every time.
    pub fn is_sound(&self)
        ensures { IsRising self.now.entries }
    {
        let _len = self.len();
    }

    /// The number of the lane's first piece, taken or not. Nothing is refused: the lane's first piece that stands in order is
    /// found at once, and where there is none, those that were pushed since the last `reserve` that made room, `first` or
    /// `next_of` are looked at one by one.
    #[must_use]
    pub fn first_of(&self, lane: u32) -> Option<u64>
        ensures { result ≡ first_in_lane lane self.now.entries }
    {
        match self.order.first_of(lane) {
            Some(number) => Some(number),
            None => first_in(&self.inbox, self.from, lane),
        }
    }

    /// The number of the first piece, taken or not. Nothing is refused; where no piece stands in order, the places of those that
    /// were pushed since are looked at one by one, up to the first that has one.
    #[must_use]
    pub fn oldest(&self) -> Option<u64>
        ensures { result ≡ oldest self.now.entries }
    {
        match self.order.oldest() {
            Some(number) => Some(number),
            None => oldest_in(&self.inbox, self.from),
        }
    }

    /// Whether a piece is taken. All pieces are looked at.
    #[must_use]
    pub fn any_taken(&self) -> bool
        ensures { result ≡ any_taken self.now.entries }
    {
        if self.order.any_taken() {
            return true;
        }
        any_taken_in(&self.inbox)
    }

    /// The value waits in the lane, or in none, behind all others; its number is answered. It needs room.
    pub fn push(&mut self, lane: Option<u32>, value: V) -> u64
        requires { 1 ≤ self.old.room }
        ensures entries { self.new.entries ≡ self.old.entries ++ (result, record { lane = lane; taken = false; value = value }) ∷ [] }
        ensures room { self.old.room ≡ self.new.room + 1 }
    {
        let number = self.from + self.inbox.len() as u64;
        let taken = false;
        self.inbox
            .push_back_reserved(Some(Piece { lane, taken, value }));
        self.room -= 1;
        self.count += 1;
        number
    }

    /// Takes the piece with this number out, where there is one. Nothing is refused.
    pub fn remove(&mut self, number: u64) -> Option<Piece<V>>
        ensures piece { result ≡ piece_at number self.old.entries }
        ensures entries { self.new.entries ≡ without_number number self.old.entries }
        ensures room { self.new.room ≡ self.old.room }
    {
        let piece = take(&mut self.order, &mut self.inbox, self.from, number);
        if piece.is_some() {
            self.count -= 1;
        }
        piece
    }

    /// The piece with this number stays, but its turn doesn't come again. Nothing is refused.
    pub fn mark(&mut self, number: u64)
        ensures entries { self.new.entries ≡ taken_at number self.old.entries }
        ensures room { self.new.room ≡ self.old.room }
    {
        if number < self.from {
            self.order.mark(number);
        } else {
            mark_in(&mut self.inbox, (number - self.from) as usize);
        }
    }
}

impl<V: Drop, A: Allocator> Queue<Named<V, A>, A> {
    /// The value of the piece with this number is another from here on, under the same key. The one before comes back; where
    /// there is no such piece, the value is dropped. Nothing is refused.
    pub(crate) fn replace(&mut self, number: u64, value: V) -> Option<V>
        ensures value { result ≡ option_map value_of (piece_at number self.old.entries) }
        ensures entries { self.new.entries ≡ named_at number value self.old.entries }
        ensures room { self.new.room ≡ self.old.room }
    {
        if number < self.from {
            self.order.replace(number, value)
        } else {
            replace_in(&mut self.inbox, (number - self.from) as usize, value)
        }
    }
}

impl<V: Drop, A: Allocator + Copy> Queue<V, A> {
    /// Room for so many more pieces. Refused only when out of memory, or where the numbers run out; the pieces stay as they
    /// were.
    pub fn reserve(&mut self, more: usize) -> Result<(), AllocError>
        ensures entries { self.new.entries ≡ self.old.entries }
        ensures grows { self.old.room ≤ self.new.room }
        ensures most { self.new.room ≤ max self.old.room more }
        ensures ok { OnOk result (more ≤ self.new.room) }
        ensures err { OnErr result (self.new ≡ self.old) }
    {
        if more <= self.room {
            return Ok(());
        }
        settle(&mut self.order, &mut self.inbox, &mut self.from)?;
        if more as u64 >= u64::MAX - self.from {
            return Err(AllocError);
        }
        self.order.reserve(more)?;
        self.inbox.reserve(more)?;
        self.room = more;
        Ok(())
    }

    /// The number of the first piece whose turn has come: of all that aren't taken and wait in no busy lane, the first. Refused
    /// only when out of memory; the pieces stay as they were.
    pub fn first<F: Fn(u32) -> bool>(&mut self, is_busy: F) -> Result<Option<u64>, AllocError>
        requires { F.IsAlwaysCallable is_busy }
        ensures same { self.new ≡ self.old }
        ensures number { (busy : ℕ → Bool) → Answers (F.post is_busy) busy → IfOk result (λ number. number ≡ option_map (λ e. e.0) (find (λ e. can_go busy e.1) self.old.entries)) }
        ensures piece { (busy : ℕ → Bool) → Answers (F.post is_busy) busy → IfOk result (λ number. piece_by number self.old.entries ≡ find (can_go busy) (pieces_of self.old.entries)) }
    {
        settle(&mut self.order, &mut self.inbox, &mut self.from)?;
        Ok(self.order.first_open(&is_busy))
    }

    /// The number of the lane's first piece behind this number, taken or not. Refused only when out of memory; the pieces stay
    /// as they were.
    pub fn next_of(&mut self, lane: u32, number: u64) -> Result<Option<u64>, AllocError>
        requires { number < u64.MAX }
        ensures same { self.new ≡ self.old }
        ensures number { IfOk result (λ next. next ≡ above number (in_lane lane self.old.entries)) }
    {
        settle(&mut self.order, &mut self.inbox, &mut self.from)?;
        Ok(self.order.next_of(lane, number))
    }
}

/// Takes the piece with this number out, wherever it stands.
fn take<V, A: Allocator>(
    order: &mut Order<V, A>,
    inbox: &mut Inbox<V, A>,
    from: u64,
    number: u64,
) -> Option<Piece<V>>
    requires rises { Rises 0 from order.old.entries }
    requires numbers { from + deque_len inbox.old < 2 ^ 64 }
    ensures piece { result ≡ piece_at number (order.old.entries ++ numbered from inbox.old.items) }
    ensures entries { order.new.entries ++ numbered from inbox.new.items ≡ without_number number (order.old.entries ++ numbered from inbox.old.items) }
    ensures rises { Rises 0 from order.new.entries }
    ensures grows { order.old.spare ≤ order.new.spare }
    ensures len { deque_len inbox.new ≡ deque_len inbox.old }
    ensures capacity { deque_capacity inbox.new ≡ deque_capacity inbox.old }
{
    if number < from {
        order.remove(number)
    } else {
        take_in(inbox, (number - from) as usize)
    }
}

// When the keys of a cache were changed last.
ghost use Rattle.std.specs.Prelude.{◌≡◌, ◌+◌, ◌<◌, ◌≤◌, ◌%◌, ◌++◌, [], ◌∷◌, length, not, filter, find, replicate, slice_set, IfOk, OnOk, OnErr, vec_len, vec_capacity};
ghost use Rattle.std.specs.List.{list_any};
ghost use Rattle.hc_lease.specs.Stamps.{slot_of, changed, stamped, after_restart, ticket_at, is_fresh, is_fresh_in, with_add, with_add_in, replied, is_add_in, is_of_call, is_add};

use crate::ticket::Ticket;
use hc_types::{Key, digest_of};
use std::alloc::{AllocError, Allocator, Global};
use std::marker::Model;

/// An add that waits for flash: the number of its call, and the slot of its key.
#[derive(Clone, Copy)]
pub struct Adding {
    pub call: u64,
    pub slot: usize,
}

/// When the keys of a cache were changed last: for each of a fixed number of slots, which of all changes was the last of a
/// key there. A key's slot is what maps are fed of it, modulo their number, so that two keys may share one: then a change
/// of the one ends tickets for the other too, without need.
///
/// Whoever calls the cache tells each change of a key: a store and a remove that are answered, also a remove that finds
/// nothing (`change`), an add that waits for flash (`wait`), and the reply of a call that waited (`reply`). What is
/// forgotten, evicted, expired or brought from flash is no change.
#[derive(Drop)]
pub struct Stamps<A: Allocator = Global> {
    count: u64,
    slots: Vec<u64, A>,
    adds: Vec<Adding, A>,
}

impl<A: Allocator> Model for Stamps<A> {
    ghost use Rattle.std.specs.Prelude.{◌-◌, ◌<◌, length, vec_len, vec_capacity};
    ghost use Rattle.hc_lease.specs.Stamps.{Stamps as Seen};

    ghost Value = { Seen };

    ghost view = { λ s. record { count = s.count; slots = s.slots.items; adds = s.adds.items; room = vec_capacity s.adds - vec_len s.adds } };

    ghost invariant = { λ s. 0 < length s.slots.items };
}

impl<A: Allocator + Copy> Stamps<A> {
    /// Of a cache that nobody has used yet. The slots, 8 bytes each, are allocated here; later `reserve` alone allocates.
    /// Refused only when out of memory. The more slots, the fewer tickets end without need: of n slots about one in n for
    /// each change during a load.
    pub fn new(alloc: A, slots: usize) -> Result<Stamps<A>, AllocError>
        requires { 0 < slots }
        ensures { IfOk result (λ stamps. (stamps.count ≡ 0) × (stamps.slots ≡ replicate slots 0) × (stamps.adds ≡ [])) }
    {
        Ok(Stamps {
            count: 0,
            slots: Vec::from_elem(alloc, 0, slots)?,
            adds: Vec::new(alloc),
        })
    }

    /// Of a cache that goes on where another was closed, of whose keys there had been `changes` changes: each key counts as
    /// changed, by one change more, so that no ticket of before is fresh, and no add waits. There may be another number of
    /// slots, 8 bytes each, which are allocated here, as by `new`. Refused only when out of memory.
    pub fn after_restart(alloc: A, changes: u64, slots: usize) -> Result<Stamps<A>, AllocError>
        requires { 0 < slots }
        ensures { IfOk result (λ stamps. stamps ≡ after_restart slots changes) }
    {
        let count = changes.saturating_add(1);
        Ok(Stamps {
            count,
            slots: Vec::from_elem(alloc, count, slots)?,
            adds: Vec::new(alloc),
        })
    }
}

impl<A: Allocator> Stamps<A> {
    /// How many slots there are.
    #[must_use]
    pub fn slots(&self) -> usize
        ensures count { result ≡ length self.now.slots }
        ensures some { 0 < result }
    {
        self.slots.len()
    }

    /// How many changes of keys there were.
    #[must_use]
    pub fn changes(&self) -> u64
        ensures { result ≡ self.now.count }
    {
        self.count
    }

    /// The ticket of a miss, to be taken before the row is loaded. None once there were 2^64 - 1 changes.
    #[must_use]
    pub fn ticket(&self) -> Option<Ticket>
        ensures { result ≡ ticket_at self.now }
    {
        if self.count < u64::MAX {
            Some(Ticket::from_number(self.count))
        } else {
            None
        }
    }

    /// A call that stores or removes under the key is answered: no earlier ticket is fresh for the key any more.
    pub fn change(&mut self, key: &Key<A>)
        ensures { self.new ≡ changed key.now self.old }
    {
        let slot = self.slot(key);
        self.change_in(slot);
    }

    /// As `change`, by the slot of the key.
    pub fn change_in(&mut self, slot: usize)
        requires { slot < length self.old.slots }
        ensures { self.new ≡ stamped slot self.old }
    {
        self.stamp(slot);
    }

    /// Whether what was loaded for the key after the ticket was handed out may be stored: no key of its slot was changed
    /// since then, and no add of one waits.
    #[must_use]
    pub fn is_fresh(&self, key: &Key<A>, ticket: Ticket) -> bool
        ensures { result ≡ is_fresh key.now ticket self.now }
    {
        self.is_fresh_in(self.slot(key), ticket)
    }

    /// As `is_fresh`, by the slot of the key.
    #[must_use]
    pub fn is_fresh_in(&self, slot: usize, ticket: Ticket) -> bool
        requires { slot < length self.now.slots }
        ensures { result ≡ is_fresh_in slot ticket self.now }
    {
        self.slots[slot] <= ticket.number() && !has_add_in(self.adds.as_slice(), slot)
    }

    /// Makes room for one more add that waits, to be called before the add is. Refused only when out of memory.
    pub fn reserve(&mut self) -> Result<(), AllocError>
        ensures same { (self.new.count ≡ self.old.count) × (self.new.slots ≡ self.old.slots) × (self.new.adds ≡ self.old.adds) }
        ensures ok { OnOk result (0 < self.new.room) }
        ensures err { OnErr result (self.new ≡ self.old) }
    {
        self.adds.reserve(1)
    }

    /// The call, an add of the key, waits for flash from here on: no ticket is fresh for the key until its reply is taken,
    /// for a worker, or another's remove, may store its value at any time. One whose reply is never taken bars its slot for
    /// good.
    pub fn wait(&mut self, call: u64, key: &Key<A>)
        requires { 0 < self.old.room }
        ensures waits { self.new ≡ record (with_add call key.now self.old) { room = self.new.room } }
        ensures room { self.old.room ≡ self.new.room + 1 }
    {
        let slot = self.slot(key);
        self.wait_in(call, slot);
    }

    /// As `wait`, by the slot of the key.
    pub fn wait_in(&mut self, call: u64, slot: usize)
        requires slot { slot < length self.old.slots }
        requires room { 0 < self.old.room }
        ensures waits { self.new ≡ record (with_add_in call slot self.old) { room = self.new.room } }
        ensures room { self.old.room ≡ self.new.room + 1 }
    {
        self.adds.push_reserved(Adding { call, slot });
    }

    /// The reply of a call that waited is handed out: of an add, its key counts as changed now. Of another call nothing.
    pub fn reply(&mut self, call: u64)
        ensures replied { self.new ≡ record (replied call self.old) { room = self.new.room } }
        ensures room { self.old.room ≤ self.new.room }
    {
        if let Some(add) = add_of(self.adds.as_slice(), call) {
            end_add(&mut self.adds, add);
            self.stamp(add.slot);
        }
    }

    /// The slot of the key, for whoever gives the key away before the call is answered. The key's bytes are not read.
    #[must_use]
    pub fn slot(&self, key: &Key<A>) -> usize
        ensures is { result ≡ slot_of key.now (length self.now.slots) }
        ensures within { result < length self.now.slots }
    {
        self.slot_at(key.digest())
    }

    /// The slot of the key of these bytes.
    #[must_use]
    pub fn slot_of_bytes(&self, key: &[u8]) -> usize
        ensures is { result ≡ slot_of key.now (length self.now.slots) }
        ensures within { result < length self.now.slots }
    {
        self.slot_at(digest_of(key))
    }

    /// The slot of a key of which maps are fed this digest (`Key::digest`, `digest_of`).
    #[must_use]
    pub fn slot_at(&self, digest: u64) -> usize
        ensures is { result ≡ digest % length self.now.slots }
        ensures within { result < length self.now.slots }
    {
        (digest % self.slots.len() as u64) as usize
    }

    // A key of the slot is changed.
    fn stamp(&mut self, slot: usize)
        ensures { self.new ≡ stamped slot self.old }
    {
        if self.count < u64::MAX {
            self.count += 1;
        }
        if let Some(place) = self.slots.get_mut(slot) {
            *place = self.count;
        }
    }
}

// The add of this call that waits.
fn add_of(adds: &[Adding], call: u64) -> Option<Adding>
    ensures { result ≡ find (is_of_call call) adds.now }
{
    for add in adds {
        if add.call == call {
            return Some(*add);
        }
    }
    None
}

// Whether an add of a key of the slot waits.
fn has_add_in(adds: &[Adding], slot: usize) -> bool
    ensures { result ≡ list_any (is_add_in slot) adds.now }
{
    for add in adds {
        if add.slot == slot {
            return true;
        }
    }
    false
}

// The add waits no longer.
fn end_add<A: Allocator>(adds: &mut Vec<Adding, A>, add: Adding)
    ensures items { adds.new.items ≡ filter (λ other. not (is_add add.call add.slot other)) adds.old.items }
    ensures capacity { vec_capacity adds.new ≡ vec_capacity adds.old }
    ensures len { vec_len adds.new ≤ vec_len adds.old }
{
    adds.retain(|other| !is_same(other, add));
}

// Whether it is this add.
fn is_same(other: &Adding, add: Adding) -> bool
    ensures { result ≡ is_add add.call add.slot other.now }
{
    other.call == add.call && other.slot == add.slot
}

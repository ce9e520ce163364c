// A cache, and when its keys were changed last.
ghost use Rattle.std.specs.Prelude.{◌≡◌, ◌%◌, ◌<◌, ◌≤◌, [], None, length, replicate, IfOk, IfErr};
ghost use Rattle.hc_lease.specs.Stamps.{stamped, ticket_at};
ghost use Rattle.hc_lease.specs.Turns.{without_turn_at};
ghost use Rattle.hc_leased.specs.Leased.{lease_slots};

use crate::cache::Cache;
use hc_lease::{Stamps, Ticket, Turns};
use std::alloc::{AllocError, Allocator, Global};
use std::marker::Model;

/// How many slots serve most caches: 512 KB. With them a ticket ends without need once in 65,536 changes during its
/// load.
pub const DEFAULT_SLOTS: usize = 65_536;

/// How many places for turns serve most caches: 96 KB.
pub const DEFAULT_PLACES: usize = 4_096;

/// How many slots serve a cache that is one of so many shards: `DEFAULT_SLOTS` for one, and the fewer the more there are,
/// so that all of them have at least as many together. A sixteenth of them are as many places for turns as serve it.
#[must_use]
pub fn slots_for(shards: u8) -> usize
    ensures slots { result ≡ lease_slots shards }
    ensures enough { 4096 ≤ result }
{
    match shards {
        0..=1 => 65_536,
        2..=3 => 32_768,
        4..=7 => 16_384,
        8..=15 => 8_192,
        _ => 4_096,
    }
}

/// A cache with leases. Who has it can't call the cache beside it, so that each change of a key is noticed: a store and
/// a remove that are answered, and an add that waits for flash, until its reply is taken. What is evicted, expires, is
/// lost or comes from flash is no change. Each call of the cache is here by its own name, with its own clauses.
///
/// A service that loads what it misses asks `find_or_lease`, loads the value once it has the ticket, and stores it with
/// `set_leased` or `insert_leased`; and who changes a row in the database deletes its key afterwards. Then nothing
/// stale is found once that delete is answered (`leased_never_stale` has this as a law). A loader never uses `add`: an
/// add that waits for flash stores later, also behind a delete that came in between.
pub struct Leased<C: Cache, A: Allocator = Global> {
    pub(crate) cache: C,
    pub(crate) stamps: Stamps<A>,
    pub(crate) turns: Turns<A>,
}

impl<C: Cache, A: Allocator> Model for Leased<C, A> {
    ghost use Rattle.hc_leased.specs.Leased.{Leased as Seen};

    ghost Value = { Seen };

    ghost view = { λ l. record { logged = C.seen l.cache; stamps = l.stamps; turns = l.turns } };
}

// (written out, so that who drops it calls this one function, whatever stands in it)
impl<C: Cache, A: Allocator> Drop for Leased<C, A> {
    fn drop(self) {
        let Leased {
            cache: _,
            stamps: _,
            turns: _,
        } = self;
    }
}

impl<C: Cache, A: Allocator + Clone + Copy> Leased<C, A> {
    /// Of a cache that no call was made of yet, with so many slots for keys (8 bytes each) and places for turns (24
    /// bytes each), which are allocated here. Refused when out of memory alone; then the cache comes back.
    pub fn new(alloc: A, cache: C, slots: usize, places: usize) -> Result<Leased<C, A>, C>
        requires new { (C.seen cache).cache.calls ≡ 0 }
        requires slots { 0 < slots }
        requires places { 0 < places }
        ensures cache { IfOk result (λ leased. leased.logged ≡ C.seen cache) }
        ensures changes { IfOk result (λ leased. leased.stamps.count ≡ 0) }
        ensures slots { IfOk result (λ leased. leased.stamps.slots ≡ replicate slots 0) }
        ensures adds { IfOk result (λ leased. leased.stamps.adds ≡ []) }
        ensures turns { IfOk result (λ leased. leased.turns ≡ replicate places None) }
        ensures cache_returned { IfErr result (λ back. back ≡ cache) }
    {
        let Ok(stamps) = Stamps::new(alloc, slots) else {
            return Err(cache);
        };
        let Ok(turns) = Turns::new(alloc, places) else {
            return Err(cache);
        };
        Ok(Leased {
            cache,
            stamps,
            turns,
        })
    }
}

impl<C: Cache, A: Allocator> Leased<C, A> {
    /// The cache, to be looked at.
    #[must_use]
    pub fn cache(&self) -> &C
        ensures { C.seen result.now ≡ self.now.logged }
    {
        &self.cache
    }

    /// The cache, whose tickets are no good any more.
    #[must_use]
    pub fn into_cache(self) -> C
        ensures { C.seen result ≡ self.logged }
    {
        let Leased {
            cache,
            stamps: _,
            turns: _,
        } = self;
        cache
    }

    /// The cache, and how many changes of keys there were, by which the tickets of a cache that goes on where this one stood are
    /// told from those of this one (`Leased::resume`).
    #[must_use]
    pub fn into_parts(self) -> (C, u64)
        ensures cache { C.seen result.0 ≡ self.logged }
        ensures changes { result.1 ≡ self.stamps.count }
    {
        let Leased {
            cache,
            stamps,
            turns: _,
        } = self;
        (cache, stamps.changes())
    }

    /// How many calls were begun: inserts, finds and removes that weren't refused.
    #[must_use]
    pub fn calls(&self) -> u64
        ensures { result ≡ self.now.logged.cache.calls }
    {
        self.cache.calls()
    }

    /// The moment that holds, in seconds.
    #[must_use]
    pub fn now(&self) -> u64
        ensures { result ≡ self.now.logged.cache.now }
    {
        self.cache.now()
    }

    /// How many changes of keys there were.
    #[must_use]
    pub fn changes(&self) -> u64
        ensures { result ≡ self.now.stamps.count }
    {
        self.stamps.changes()
    }

    /// The ticket of now, for who is about to load. None once there were 2^64 - 1 changes.
    #[must_use]
    pub fn ticket(&self) -> Option<Ticket>
        ensures { result ≡ ticket_at self.now.stamps }
    {
        self.stamps.ticket()
    }

    // A call that stores or removes under a key of this digest is answered.
    pub(crate) fn note_change(&mut self, digest: u64)
        ensures logged { self.new.logged ≡ self.old.logged }
        ensures stamps { self.new.stamps ≡ stamped (digest % length self.old.stamps.slots) self.old.stamps }
        ensures turns { self.new.turns ≡ without_turn_at digest self.old.turns }
    {
        let slot = self.stamps.slot_at(digest);
        self.stamps.change_in(slot);
        self.turns.end_at(digest);
    }
}

// Who loads what.
ghost use Rattle.std.specs.Prelude.{◌≡◌, ◌<◌, ◌%◌, None, length, replicate, slice_get, slice_set, IfOk};
ghost use Rattle.hc_lease.specs.Turns.{turn_in, busy_in, busy_at, turned, without_turn, without_turn_at, is_turn_of};

use hc_types::Key;
use std::alloc::{AllocError, Allocator, Global};
use std::marker::Model;

/// Someone loads a key of this digest (what maps are fed of it), since this second by the cache's clock.
#[derive(Clone, Copy)]
pub struct Turn {
    pub digest: u64,
    pub since: u64,
}

/// Which keys are being loaded, so that of many who miss one key one loads it: a fixed number of places, by what maps are
/// fed of a key. No promise rests on it: a key takes the place of another, and then both may be loaded twice.
#[derive(Drop)]
pub struct Turns<A: Allocator = Global> {
    places: Vec<Option<Turn>, A>,
}

impl<A: Allocator> Model for Turns<A> {
    ghost use Rattle.std.specs.Prelude.{◌<◌, length, List, Option};
    ghost use Rattle.hc_lease.specs.declared.turns.Turn.{Turn};

    ghost Value = { List (Option Turn) };

    ghost view = { λ t. t.places.items };

    ghost invariant = { λ t. 0 < length t.places.items };
}

impl<A: Allocator> Turns<A> {
    /// Nobody loads anything. The places, 24 bytes each, are allocated here, and nothing afterwards. Refused for want of
    /// memory alone.
    pub fn new(alloc: A, places: usize) -> Result<Turns<A>, AllocError>
        requires { 0 < places }
        ensures { IfOk result (λ turns. turns ≡ replicate places None) }
    {
        Ok(Turns {
            places: Vec::from_elem(alloc, None, places)?,
        })
    }

    /// How many places there are.
    #[must_use]
    pub fn places(&self) -> usize
        ensures count { result ≡ length self.now }
        ensures some { 0 < result }
    {
        self.places.len()
    }

    /// Since which second someone loads the key, who began fewer than `patience` seconds before `now`, if anyone does.
    #[must_use]
    pub fn busy(&self, key: &Key<A>, now: u64, patience: u64) -> Option<u64>
        ensures { result ≡ busy_at key.now now patience self.now }
    {
        let digest = key.digest();
        busy(self.turn(self.place(digest)), digest, now, patience)
    }

    /// Since which second another loads the key, who began fewer than `patience` seconds before `now`. Where nobody does,
    /// the turn is the caller's, who loads the key and then ends the turn; one who never does is passed over once
    /// `patience` is up.
    #[must_use]
    pub fn ask(&mut self, key: &Key<A>, now: u64, patience: u64) -> Option<u64>
        ensures busy { result ≡ busy_at key.now now patience self.old }
        ensures turned { self.new ≡ turned key.now now result self.old }
    {
        let digest = key.digest();
        let place = self.place(digest);
        let busy = busy(self.turn(place), digest, now, patience);
        if busy.is_none() {
            self.put(place, Some(Turn { digest, since: now }));
        }
        busy
    }

    /// The key's load is over, or given up. Where another key has its place, nothing.
    pub fn end(&mut self, key: &Key<A>)
        ensures { self.new ≡ without_turn key.now self.old }
    {
        self.end_at(key.digest());
    }

    /// As `end`, by what maps are fed of the key (`Key::digest`, `digest_of`).
    pub fn end_at(&mut self, digest: u64)
        ensures { self.new ≡ without_turn_at digest self.old }
    {
        let place = self.place(digest);
        if is_of(self.turn(place), digest) {
            self.put(place, None);
        }
    }

    // Where a key of the digest has its place.
    fn place(&self, digest: u64) -> usize
        ensures { result ≡ digest % length self.now }
    {
        (digest % self.places.len() as u64) as usize
    }

    // The turn at a place.
    fn turn(&self, place: usize) -> Option<Turn>
        ensures { result ≡ turn_in (slice_get self.now place) }
    {
        match self.places.get(place) {
            Some(turn) => *turn,
            None => None,
        }
    }

    fn put(&mut self, place: usize, turn: Option<Turn>)
        ensures { self.new ≡ slice_set self.old place turn }
    {
        if let Some(at) = self.places.get_mut(place) {
            *at = turn;
        }
    }
}

// Whether a key of the digest is being loaded.
fn is_of(turn: Option<Turn>, digest: u64) -> bool
    ensures { result ≡ is_turn_of digest turn }
{
    match turn {
        Some(turn) => turn.digest == digest,
        None => false,
    }
}

// Since when a key of the digest is being loaded.
fn busy(turn: Option<Turn>, digest: u64, now: u64, patience: u64) -> Option<u64>
    ensures { result ≡ busy_in digest now patience turn }
{
    match turn {
        Some(turn) if turn.digest == digest && now.saturating_sub(turn.since) < patience => {
            Some(turn.since)
        }
        _ => None,
    }
}

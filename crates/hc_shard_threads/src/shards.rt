// The shards, as clients and workers share them.
ghost use Rattle.std.specs.Prelude.{◌≡◌, ◌⊎◌, ◌<◌, [], None, Some, IfOk, IfErr, OnOk, replicate};
ghost use Rattle.hc_types.specs.Limits.{first_wrong};
ghost use Rattle.hc_history.specs.Told.{IfLog};
ghost use Rattle.hc_shards.specs.Shards as spec;

use hc_core::Core;
use hc_history::{Listener, Note, Notes};
use hc_shards::{Sharded, shares_are_right};
use hc_threads::{Shared, slots_for};
use hc_types::{Config, Key, Refusal};
use std::alloc::{AllocError, Allocator, Global};
use std::marker::Model;
use std::sync::Wait;

/// Shards that clients and workers share: each is a cache by itself, under a lock of its own, and each call takes the lock
/// of its key's shard and no other. Contracts see the configuration that was cut into shards.
pub struct Shards<N: Listener, A: Allocator = Global> {
    /// A shard each, in the order of their numbers.
    pub(crate) lanes: Vec<Shared<N, A>, A>,
    sharded: Sharded<A>,
}

// (written out, so that who drops the shards calls this one function)
impl<N: Listener, A: Allocator> Drop for Shards<N, A> {
    fn drop(self) {
        let Shards {
            lanes: _,
            sharded: _,
        } = self;
    }
}

impl<N: Listener, A: Allocator> Model for Shards<N, A> {
    ghost use Rattle.std.specs.Prelude.{◌≡◌, None, replicate};
    ghost use Rattle.hc_shards.specs.Shards.{Sharded as Settings, share_of, sharded_wrong};

    ghost Value = { Settings };

    ghost view = { λ s. s.sharded };

    ghost invariant = { λ s. (s.lanes.items ≡ replicate s.sharded.shards (share_of s.sharded)) × (sharded_wrong s.sharded ≡ None) };
}

impl<N: Notes<Note<A>>, A: Allocator + Clone + Copy> Shards<N, A> {
    /// New shards. `notes` makes the notes of each. Refused as `Sharded::check` refuses, and with `NoMemory`.
    pub fn new<F: Fn() -> N>(
        alloc: A,
        sharded: &Sharded<A>,
        notes: F,
    ) -> Result<Shards<N, A>, Refusal>
        requires makes { F.pre notes }
        requires log { (n : N) → F.post notes n → IfLog (N.told n) (λ log. log ≡ []) }
        ensures ok { IfOk result (λ shards. shards ≡ sharded.now) }
        ensures fits { OnOk result (spec.sharded_wrong sharded.now ≡ None) }
        ensures err { IfErr result (λ refusal. (spec.sharded_wrong sharded.now ≡ Some refusal) ⊎ ((spec.sharded_wrong sharded.now ≡ None) × (refusal ≡ Refusal.NoMemory))) }
    {
        sharded.check()?;
        let Ok(own) = copy_of(sharded) else {
            return Err(Refusal::NoMemory);
        };
        let Ok(share) = sharded.share(alloc) else {
            return Err(Refusal::NoMemory);
        };
        shares_are_right();
        let Ok(lanes) = lanes_of(alloc, &share, sharded.shards, &notes) else {
            return Err(Refusal::NoMemory);
        };
        Ok(Shards {
            lanes,
            sharded: own,
        })
    }
}

impl<N: Listener, A: Allocator> Shards<N, A> {
    /// The configuration that was cut into shards.
    #[must_use]
    pub fn sharded(&self) -> &Sharded<A>
        ensures { result.now ≡ self.now }
    {
        &self.sharded
    }

    /// How many shards there are: 1 to 16.
    #[must_use]
    pub fn count(&self) -> u8
        ensures value { result ≡ self.now.shards }
        ensures some { 0 < result }
    {
        shares_are_right();
        self.sharded.shards
    }

    /// The shard that the key is of, from 0.
    #[must_use]
    pub fn shard_of(&self, key: &Key<A>) -> u8
        ensures value { result ≡ spec.shard_of self.now.shards key.now }
        ensures below { result < self.now.shards }
    {
        shares_are_right();
        self.sharded.shard_of(key)
    }

    /// The shard of this number, a cache under a lock of its own. A call that is made through it isn't kept to the shard's
    /// own keys.
    #[must_use]
    pub fn shard(&self, number: u8) -> &Shared<N, A>
        requires { number < self.now.shards }
        ensures { result.now ≡ spec.share_of self.now }
    {
        &self.lanes[usize::from(number)]
    }

    /// The shards, each by itself, in the order of their numbers.
    pub(crate) fn into_lanes(self) -> Vec<Shared<N, A>, A>
        ensures { result.items ≡ replicate self.shards (spec.share_of self) }
    {
        let Shards { lanes, sharded: _ } = self;
        lanes
    }

    /// How many reads of the device were lies so far, of all shards together: pages that were read otherwise than they were
    /// written, of which each is a failed read to the cache.
    #[must_use]
    pub fn lies<R: Wait>(&self, rt: &R) -> u64 {
        let mut lies: u64 = 0;
        for lane in &self.lanes {
            lies = lies.saturating_add(lane.lies(rt));
        }
        lies
    }

    /// Has the workers of each shard try again what there was no memory for, and the calls that wait look again, as
    /// `Shared::stir` does.
    pub fn stir<R: Wait>(&self, rt: &R) {
        for lane in &self.lanes {
            lane.stir(rt);
        }
    }
}

impl<N: Notes<Note<A>>, A: Allocator + Clone + Copy> Shards<N, A> {
    /// Waits while another loads the key, as `Shared::await_load` does.
    pub fn await_load<R: Wait>(&self, rt: &R, key: &Key<A>, patience: u64) {
        self.lanes[usize::from(self.shard_of(key))].await_load(rt, key, patience);
    }

    /// The key's load is given up, as by `Shared::end_turn`.
    pub fn end_turn<R: Wait>(&self, rt: &R, key: &Key<A>) {
        self.lanes[usize::from(self.shard_of(key))].end_turn(rt, key);
    }
}

/// A copy of the configuration.
fn copy_of<A: Allocator + Clone + Copy>(sharded: &Sharded<A>) -> Result<Sharded<A>, AllocError>
    ensures { IfOk result (λ copy. copy ≡ sharded.now) }
{
    Ok(Sharded {
        config: sharded.config.clone()?,
        shards: sharded.shards,
    })
}

/// So many caches of this configuration, each under a lock of its own.
fn lanes_of<N: Notes<Note<A>>, A: Allocator + Clone + Copy, F: Fn() -> N>(
    alloc: A,
    config: &Config<A>,
    count: u8,
    notes: &F,
) -> Result<Vec<Shared<N, A>, A>, AllocError>
    requires makes { F.pre notes.now }
    requires log { (n : N) → F.post notes.now n → IfLog (N.told n) (λ log. log ≡ []) }
    ensures { IfOk result (λ lanes. lanes.items ≡ replicate count config.now) }
{
    let mut lanes = Vec::with_capacity(alloc, usize::from(count))?;
    let slots = slots_for(count);
    for _ in 0..count {
        lanes.push_reserved(lane_of(alloc, config, slots, notes())?);
    }
    Ok(lanes)
}

/// A new cache of this configuration with so many slots for leases, under a lock of its own.
fn lane_of<N: Notes<Note<A>>, A: Allocator + Clone + Copy>(
    alloc: A,
    config: &Config<A>,
    slots: usize,
    notes: N,
) -> Result<Shared<N, A>, AllocError>
    requires log { IfLog (N.told notes) (λ log. log ≡ []) }
    ensures { IfOk result (λ lane. lane ≡ config.now) }
{
    let Ok(core) = Core::new(alloc, config, notes) else {
        return Err(AllocError);
    };
    match Shared::with_slots(core, slots) {
        Ok(lane) => Ok(lane),
        Err(core) => {
            drop(core);
            Err(AllocError)
        }
    }
}

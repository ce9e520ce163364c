// A cache with leases that goes on where another was closed: its tickets are others.
ghost use Rattle.std.specs.Prelude.{◌≡◌, ◌<◌, true, None, replicate, IfOk, IfErr};
ghost use Rattle.hc_lease.specs.Stamps.{after_restart};
ghost use Rattle.hc_state.specs.Resting.{is_at_rest};

use crate::cache::Cache;
use crate::leased::Leased;
use hc_lease::{Stamps, Turns};
use std::alloc::{AllocError, Allocator};

/// What a cache with leases has beside the cache, where another was closed of whose keys there had been so many changes.
pub(crate) fn tables<A: Allocator + Copy>(
    alloc: A,
    changes: u64,
    slots: usize,
    places: usize,
) -> Result<(Stamps<A>, Turns<A>), AllocError>
    requires slots { 0 < slots }
    requires places { 0 < places }
    ensures stamps { IfOk result (λ both. both.0 ≡ after_restart slots changes) }
    ensures turns { IfOk result (λ both. both.1 ≡ replicate places None) }
{
    let stamps = Stamps::after_restart(alloc, changes, slots)?;
    let turns = Turns::new(alloc, places)?;
    Ok((stamps, turns))
}

impl<C: Cache, A: Allocator + Clone + Copy> Leased<C, A> {
    /// Of a cache that goes on where one with leases stood, of whose keys there had been `changes` changes (`into_parts`): no
    /// ticket of before is fresh, and nobody has a turn. There may be other numbers of slots (8 bytes each) and places (24 bytes
    /// each) than before, which are allocated here. Refused when out of memory alone; then the cache comes back.
    ///
    /// A service goes on with it as with one cache: also behind restarts, nothing stale is found (`nothing_stale` in
    /// hc_restart_laws has this as a law).
    pub fn resume(
        alloc: A,
        cache: C,
        changes: u64,
        slots: usize,
        places: usize,
    ) -> Result<Leased<C, A>, C>
        requires rests { is_at_rest (C.seen cache).cache ≡ true }
        requires slots { 0 < slots }
        requires places { 0 < places }
        ensures cache { IfOk result (λ leased. leased.logged ≡ C.seen cache) }
        ensures stamps { IfOk result (λ leased. leased.stamps ≡ after_restart slots changes) }
        ensures turns { IfOk result (λ leased. leased.turns ≡ replicate places None) }
        ensures cache_returned { IfErr result (λ back. back ≡ cache) }
    {
        match tables(alloc, changes, slots, places) {
            Ok((stamps, turns)) => Ok(Leased {
                cache,
                stamps,
                turns,
            }),
            Err(_) => Err(cache),
        }
    }
}

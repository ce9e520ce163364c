// Items are allocated: room is made in a pool, and an item is charged.
ghost use Rattle.std.specs.Prelude.{◌≡◌, ◌+◌, ◌*◌, ◌≤◌, ◌⊎◌, None, Some, length, IfOk, OnOk, IfErr, OnErr};
ghost use Rattle.hc_types.specs.Charge.{charge_of};
ghost use Rattle.hc_memory.specs.Memory.{victims_of, handle_for};
ghost use Rattle.hc_memory.specs.Seen.{filled};
ghost use Rattle.hc_machine.specs.items.Allocating.{refusal_of, expiry_of};
ghost use Rattle.hc_history.specs.Told.{where_kept};
ghost use Rattle.hc_machine.specs.Evicting.{make_charge};
ghost use Rattle.hc_invariant.specs.Structure.{Structured};
ghost use Rattle.hc_state.specs.Whole.{HasRoom, Stays, costs};
ghost use Rattle.hc_state.specs.allocate.Charge.{Affords, Opens};

use crate::allocate::evict::Leave;
use crate::begin::{NOTES_OF_A_CHARGE, NOTES_OF_A_VICTIM};
use crate::state::State;
use crate::tells;
use hc_history::{Note, Notes};
use hc_memory::{Blank, Charged, Fill, Pools, Uncharged};
use hc_proof::evicted_never_waits;
use hc_types::{Key, Refusal, VALUE_MAX, charge};
use std::alloc::{AllocError, Allocator};

/// What an allocation needs before it changes anything: how many items go to make room, what each of them needs to leave,
/// and a copy of the key, where notes are kept.
#[derive(Drop)]
pub(crate) struct Room<A: Allocator> {
    count: usize,
    leaves: Vec<Leave<A>, A>,
    copy: Option<Key<A>>,
}

/// The second at which an item expires that is to live for `ttl` seconds from `now` on: never where `ttl` is 0, and at
/// the last second at the latest.
pub(crate) fn expiry_after(now: u64, ttl: u32) -> u64
    ensures { result ≡ expiry_of now ttl }
{
    if ttl == 0 {
        return 0;
    }
    now.saturating_add(u64::from(ttl))
}

/// A copy of the key, where notes are kept.
pub(crate) fn copy_of<A: Allocator, N: Notes<Note<A>>>(
    notes: &N,
    key: &Key<A>,
) -> Result<Option<Key<A>>, AllocError>
    ensures { IfOk result (λ copy. copy ≡ where_kept (N.told notes.now) key.now) }
{
    if !notes.keeps() {
        return Ok(None);
    }
    Ok(Some(key.clone()?))
}

/// Why an item of this key that begins as `fill` isn't allocated: `NoPool`, `ValueTooLong` or `NoRoom`, the first that
/// holds. Otherwise how many items go to make room for it.
pub(crate) fn victims_for<A: Allocator>(
    pools: &Pools<A>,
    pool: u8,
    key: &Key<A>,
    fill: Fill<'_>,
) -> Result<usize, Refusal>
    ensures count { IfOk result (λ count. count ≡ length (victims_of pools.now pool (charge_of key.now (length (filled fill.entry))))) }
    ensures most { IfOk result (λ count. count ≤ 1048576) }
    ensures fits { OnOk result (refusal_of pools.now pool key.now (length (filled fill.entry)) ≡ None) }
    ensures err { IfErr result (λ refusal. refusal_of pools.now pool key.now (length (filled fill.entry)) ≡ Some refusal) }
{
    let size = fill.len();
    if usize::from(pool) >= pools.len() {
        return Err(Refusal::NoPool);
    }
    if size > VALUE_MAX {
        return Err(Refusal::ValueTooLong);
    }
    pools.victims(pool, charge(key, size))
}

impl<N: Notes<Note<A>>, A: Allocator + Clone + Copy> State<N, A> {
    /// Makes room for what so many items need as they leave, for so many tombstones and other notes, and for giving up each
    /// charge that is open.
    pub(crate) fn reserve_to_leave(
        &mut self,
        count: usize,
        stones: usize,
        others: usize,
    ) -> Result<(), AllocError>
        requires count { count ≤ 1048576 }
        requires others { others ≤ 16 }
        ensures same { Stays self.old self.new }
        ensures room { OnOk result (HasRoom (costs (2 * count + others + length self.old.cache.memory.charges) count stones 0) self.new) }
    {
        if let Some(nvm) = &mut self.nvm {
            nvm.reserve(count, stones, 0)?;
        }
        self.notes.reserve(NOTES_OF_A_VICTIM * count + others + self.pools.open_charges())
    }

    /// What an allocation of an item of this key needs that begins as `fill`. Refused with `NoPool`, `ValueTooLong` and
    /// `NoRoom`, the first that holds, and with `NoMemory`.
    fn plan_to_charge(&mut self, pool: u8, key: &Key<A>, fill: Fill<'_>) -> Result<Room<A>, Refusal>
        ensures same { Stays self.old self.new }
        ensures ok { IfOk result (Affords pool key.now (length (filled fill.entry)) self.new) }
        ensures fits { OnOk result (refusal_of self.old.cache.memory pool key.now (length (filled fill.entry)) ≡ None) }
        ensures err { IfErr result (λ refusal. (refusal_of self.old.cache.memory pool key.now (length (filled fill.entry)) ≡ Some refusal) ⊎ ((refusal_of self.old.cache.memory pool key.now (length (filled fill.entry)) ≡ None) × (refusal ≡ Refusal.NoMemory))) }
    {
        let count = victims_for(&self.pools, pool, key, fill)?;
        self.reserve_to_leave(count, 0, NOTES_OF_A_CHARGE)?;
        let copy = copy_of(&self.notes, key)?;
        let leaves = self.plan_to_leave(pool, count)?;
        Ok(Room {
            count,
            leaves,
            copy,
        })
    }

    /// Makes room in the pool for an item of this key that begins as `fill` and expires `ttl` seconds from now (0: never),
    /// and charges it: the least recently used items are evicted, none while there is room, and wait for flash where
    /// they may. The item can't be found until its handle is sealed and inserted. Refused with `NoPool`, `ValueTooLong` and
    /// `NoRoom`, the first that holds, and with `NoMemory`; then the key comes back.
    pub fn allocate_with(
        &mut self,
        pool: u8,
        key: Key<A>,
        fill: Fill<'_>,
        ttl: u32,
    ) -> Result<Blank<A>, Uncharged<A>>
        requires structured { Structured self.old.cache }
        ensures ok { IfOk result (λ blank. Opens (make_charge pool key (length (filled fill.entry)) self.old.cache) blank self.old self.new) }
        ensures blank { IfOk result (λ blank. blank ≡ handle_for self.old.cache.memory pool key (filled fill.entry) (expiry_of self.old.cache.now ttl)) }
        ensures fits { OnOk result (refusal_of self.old.cache.memory pool key (length (filled fill.entry)) ≡ None) }
        ensures err { OnErr result (Stays self.old self.new) }
        ensures why { IfErr result (λ e. (refusal_of self.old.cache.memory pool key (length (filled fill.entry)) ≡ Some e.refusal) ⊎ ((refusal_of self.old.cache.memory pool key (length (filled fill.entry)) ≡ None) × (e.refusal ≡ Refusal.NoMemory))) }
        ensures key_returned { IfErr result (λ e. e.key ≡ key) }
    {
        let plan = match self.plan_to_charge(pool, &key, fill) {
            Ok(plan) => plan,
            Err(refusal) => return Err(Uncharged { refusal, key }),
        };
        let want = charge(&key, fill.len());
        let _sound = self.pools.len();
        let expiry = expiry_after(self.clock, ttl);
        let Charged { blank, victims } = match self
            .pools
            .charge(pool, key, fill, expiry, plan.count)
        {
            Ok(charged) => charged,
            Err(uncharged) => {
                drop(plan);
                return Err(uncharged);
            }
        };

        evicted_never_waits();
        let Room {
            count: _,
            leaves,
            copy,
        } = plan;
        self.leave_all(pool, want, victims, leaves);
        tells::charged(&mut self.notes, copy, blank.number(), pool, want);
        Ok(blank)
    }
}

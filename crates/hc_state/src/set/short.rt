// A value is stored in one step, where notes aren't kept and no call waits for its key.
ghost use Rattle.std.specs.Prelude.{◌≡◌, ◌+◌, ◌*◌, ◌<◌, ◌≤◌, ◌⊎◌, true, false, None, Some, length, IsSome, IfSome, IfOk, OnOk, OnErr, IfErr};
ghost use Rattle.hc_types.specs.Charge.{charge_of};
ghost use Rattle.hc_memory.specs.Memory.{is_hopeless, victims_of, oldest_of, after_evict};
ghost use Rattle.hc_memory.specs.Seen.{filled};
ghost use Rattle.hc_invariant.specs.Structure.{Structured};
ghost use Rattle.hc_machine.specs.items.Allocating.{refusal_of};
ghost use Rattle.hc_history.specs.Note.{Stored};
ghost use Rattle.hc_machine.specs.Cache.{Discarded, Replied, with_memory};
ghost use Rattle.hc_machine.specs.Evicting.{allocate as allocate_step};
ghost use Rattle.hc_state.specs.allocate.Evict.{one_leaves};
ghost use Rattle.hc_state.specs.set.Short.{set_step, give_up_step, MayRefuse, is_plain as is_plain_seen, is_brief as is_brief_seen, IsSetPlan, IsRoomed, IsPut, IsSkipped};
ghost use Rattle.hc_state.specs.Whole.{IsStep, HasRoom, Does, Stays, costs};

use crate::allocate::charge::{expiry_after, victims_for};
use crate::begin::NOTES_OF_A_CALL;
use crate::state::State;
use hc_history::{Kind, Note, Notes};
use hc_memory::{Fill, ItemValue};
use hc_types::{Key, Refusal, charge};
use std::alloc::Allocator;

/// The most notes of a value that is stored in one step, beside those of the items that go: one of its charge, and the call's.
const NOTES_OF_A_SET: usize = NOTES_OF_A_CALL + 1;

/// What a value that is stored in one step needs before anything changes: the number of its call and that of its charge, how
/// many items go to make room, and the value.
#[derive(Drop)]
pub(crate) struct SetPlan<A: Allocator> {
    pub call: u64,
    pub number: u64,
    pub count: usize,
    pub value: ItemValue<A>,
}

impl<N: Notes<Note<A>>, A: Allocator + Clone + Copy> State<N, A> {
    /// Whether there is no flash, and notes aren't kept.
    #[must_use]
    pub fn is_plain(&self) -> bool
        ensures { result ≡ is_plain_seen self.now.log self.now.cache }
    {
        self.nvm.is_none() && !self.notes.keeps()
    }

    /// Whether no call waits for the key, and notes aren't kept.
    #[must_use]
    pub fn is_brief(&self, key: &Key<A>) -> bool
        ensures { result ≡ is_brief_seen key.now self.now.log self.now.cache }
    {
        !self.is_awaited(key) && !self.notes.keeps()
    }

    /// What it takes to store what `fill` says under the key. Refused with `NoPool`, `ValueTooLong` and `NoRoom`, the first
    /// that holds, and with `NoMemory`.
    fn plan_to_set(&mut self, pool: u8, key: &Key<A>, fill: Fill<'_>) -> Result<SetPlan<A>, Refusal>
        ensures same { Stays self.old self.new }
        ensures ok { IfOk result (IsSetPlan pool key.now (filled fill.entry) self.new) }
        ensures fits { OnOk result (refusal_of self.old.cache.memory pool key.now (length (filled fill.entry)) ≡ None) }
        ensures err { IfErr result (λ refusal. (refusal_of self.old.cache.memory pool key.now (length (filled fill.entry)) ≡ Some refusal) ⊎ (refusal ≡ Refusal.NoMemory)) }
    {
        let count = victims_for(&self.pools, pool, key, fill)?;
        let call = self.next_call()?;
        self.reserve_to_leave(count, 1, NOTES_OF_A_SET)?;
        let number = self.pools.next_number()?;
        let value = self.pools.value_by(fill)?;
        Ok(SetPlan {
            call,
            number,
            count,
            value,
        })
    }

    /// The least recently used item of the pool goes, for `want` bytes, and its key is forgotten. Never inlined, since most
    /// values are stored where there is room.
    #[inline(never)]
    fn forget_oldest(&mut self, pool: u8, want: u64)
        requires flash { self.old.cache.nvm ≡ None }
        requires pool { pool < length self.old.cache.memory.pools }
        requires some { IsSome (oldest_of self.old.cache.memory pool) }
        requires room { HasRoom (costs 2 1 0 0) self.old }
        ensures { IfSome (oldest_of self.old.cache.memory pool) (λ item. Does (one_leaves pool want item (with_memory (after_evict self.old.cache.memory pool) self.old.cache)) (costs 2 1 0 0) self.old self.new) }
    {
        match self.pools.evict_oldest(pool) {
            Some(item) => self.leave(pool, want, item, None),
            None => unreachable!(),
        }
    }

    /// Makes room in the pool for `want` bytes: so many items go, and their keys are forgotten. It takes no memory.
    fn make_way(&mut self, pool: u8, want: u64, count: usize)
        requires flash { self.old.cache.nvm ≡ None }
        requires pool { pool < length self.old.cache.memory.pools }
        requires count { count ≡ length (victims_of self.old.cache.memory pool want) }
        requires room { HasRoom (costs (2 * count) count 0 0) self.old }
        ensures { IsRoomed pool want count self.old self.new }
    {
        for _ in 0..count {
            self.forget_oldest(pool, want);
        }
    }

    /// Puts the value of the plan under the key in the pool, which has room for it, and counts that. Refused only where memory
    /// lacks; then the number of the charge is gone, and nothing else.
    fn put_planned(
        &mut self,
        pool: u8,
        key: Key<A>,
        expiry: u64,
        plan: SetPlan<A>,
    ) -> Result<(), Refusal>
        requires number { plan.number ≡ self.old.cache.memory.made + 1 }
        requires pool { pool < length self.old.cache.memory.pools }
        requires room { is_hopeless self.old.cache.memory pool (charge_of key (length plan.value)) ≡ false }
        requires none { length (victims_of self.old.cache.memory pool (charge_of key (length plan.value))) ≡ 0 }
        requires notes { 1 ≤ self.old.notes }
        ensures ok { OnOk result (IsPut plan.call (record { number = plan.number; pool = pool; key = key; expiry = expiry; value = plan.value }) self.old self.new) }
        ensures err { OnErr result (IsSkipped plan.number self.old self.new) }
        ensures why { IfErr result (λ refusal. refusal ≡ Refusal.NoMemory) }
    {
        let SetPlan {
            call,
            number,
            count: _,
            value,
        } = plan;
        match self.pools.put(number, pool, key, value, expiry) {
            Ok(()) => {
                self.calls = call;
                self.notes.count(Kind::Stored);
                Ok(())
            }
            Err(_) => Err(Refusal::NoMemory),
        }
    }

    /// Stores what `fill` says under the key in the pool, in place of what the key has in whichever and on flash, for `ttl`
    /// seconds from now (0: for good), where notes aren't kept and no call waits for the key. It is one step: no handle is
    /// made, and no charge is open. Room is made as `allocate_with` makes it. Refused with `NoPool`, `ValueTooLong` and
    /// `NoRoom`, the first that holds, and with `NoMemory`, also once room was made: then what went to make it has left
    /// memory.
    pub fn set_short(
        &mut self,
        pool: u8,
        key: Key<A>,
        fill: Fill<'_>,
        ttl: u32,
    ) -> Result<(), Refusal>
        requires structured { Structured self.old.cache }
        requires brief { is_brief_seen key self.old.log self.old.cache ≡ true }
        ensures ok { OnOk result (IsStep (set_step pool key (filled fill.entry) ttl self.old.cache) (Replied Stored) self.old self.new) }
        ensures err { IfErr result (λ refusal. Stays self.old self.new ⊎ (IsStep (give_up_step pool key (filled fill.entry) ttl self.old.cache) Discarded self.old self.new × (refusal ≡ Refusal.NoMemory))) }
        ensures why { IfErr result (λ refusal. MayRefuse (allocate_step pool key (filled fill.entry) ttl self.old.cache).answer refusal) }
    {
        let plan = self.plan_to_set(pool, &key, fill)?;
        let want = charge(&key, fill.len());
        let _sound = self.pools.len();
        let expiry = expiry_after(self.clock, ttl);
        if self.has_flash() {
            return self.supersede(pool, key, want, expiry, plan);
        }
        self.make_way(pool, want, plan.count);
        self.put_planned(pool, key, expiry, plan)
    }
}

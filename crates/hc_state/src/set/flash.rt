// A value is stored in one step where there is flash: what flash has of its key is stale from then on.
ghost use Rattle.std.specs.Prelude.{◌≡◌, ◌⊎◌, ℕ, ◌+◌, ◌*◌, ◌<◌, ◌≤◌, true, false, [], None, length, IfOk, OnOk, OnErr, IfErr};
ghost use Rattle.hc_types.specs.Charge.{charge_of};
ghost use Rattle.hc_memory.specs.Memory.{is_hopeless, victims_of};
ghost use Rattle.hc_history.specs.Note.{Stored};
ghost use Rattle.hc_history.specs.Seen.{reply_of};
ghost use Rattle.hc_history.specs.Told.{is_log};
ghost use Rattle.hc_invariant.specs.Structure.{Structured};
ghost use Rattle.hc_machine.specs.items.Allocating.{refusal_of, expiry_of};
ghost use Rattle.hc_machine.specs.Cache.{Discarded, Replied, tells};
ghost use Rattle.hc_machine.specs.Calls.{replies_then};
ghost use Rattle.hc_machine.specs.Evicting.{make_room};
ghost use Rattle.hc_state.specs.allocate.Evict.{NoneWaits, keys_of};
ghost use Rattle.hc_state.specs.store.Clear.{ServesIn};
ghost use Rattle.hc_state.specs.set.Short.{set_step, give_up_step, is_awaited as is_awaited_seen, is_brief as is_brief_seen, IsSetPlan, IsFlashPlan, IsSkipped, put_in, stored_alone};
ghost use Rattle.hc_state.specs.Whole.{Does, HasRoom, IsStep, Stays, costs, for_notes};

use crate::set::short::SetPlan;
use crate::state::State;
use crate::tells;
use hc_history::{Note, Notes, Reply};
use hc_nvm::Outdating;
use hc_proof::evicted_never_waits;
use hc_types::{Key, Refusal};
use std::alloc::{AllocError, Allocator};

/// What a value that is stored in one step needs beside its plan where there is flash: its key once more, the keys of the items
/// that go to make room, and what the copies of its key on flash need to be stale.
#[derive(Drop)]
pub(crate) struct FlashPlan<A: Allocator> {
    copy: Key<A>,
    keys: Vec<Key<A>, A>,
    outdating: Outdating<A>,
}

impl<N: Notes<Note<A>>, A: Allocator + Clone + Copy> State<N, A> {
    /// Whether calls wait for the key from flash.
    #[must_use]
    pub(crate) fn is_awaited(&self, key: &Key<A>) -> bool
        ensures { result ≡ is_awaited_seen self.now.cache key.now }
    {
        match &self.nvm {
            Some(nvm) => nvm.is_awaited(key),
            None => false,
        }
    }

    /// What a value under the key needs where there is flash, and so many items go to make room. Refused only where memory
    /// lacks.
    fn plan_to_supersede(
        &self,
        pool: u8,
        key: &Key<A>,
        count: usize,
    ) -> Result<FlashPlan<A>, AllocError>
        requires { pool < length self.now.cache.memory.pools }
        ensures { IfOk result (λ plan. IsFlashPlan pool count key.now self.now plan) }
    {
        let copy = key.clone()?;
        let keys = self.pools.oldest_keys(pool, count)?;
        match self.plan_to_outdate(key) {
            Ok(outdating) => Ok(FlashPlan {
                copy,
                keys,
                outdating,
            }),
            Err(no_memory) => {
                drop(keys);
                drop(copy);
                Err(no_memory)
            }
        }
    }

    /// Makes room in the pool for `want` bytes, where notes aren't kept: the items of these keys go, and wait for flash where
    /// they may. It takes no memory.
    fn send_all(&mut self, pool: u8, want: u64, keys: Vec<Key<A>, A>)
        requires quiet { is_log self.old.log ≡ false }
        requires pool { pool < length self.old.cache.memory.pools }
        requires keys { keys.items ≡ keys_of (victims_of self.old.cache.memory pool want) }
        requires absent { NoneWaits pool want (victims_of self.old.cache.memory pool want) self.old.cache }
        requires room { HasRoom (costs (2 * length keys.items) (length keys.items) 0 0) self.old }
        ensures { Does (make_room pool want self.old.cache) (costs (2 * length keys.items) (length keys.items) 0 0) self.old self.new }
    {
        for copy in keys {
            self.send_oldest(pool, want, copy);
        }
    }

    /// The newest call is answered, and its reply is handed out: no call waits for its key.
    fn reply_alone(&mut self, reply: Reply<A>)
        requires room { 2 ≤ self.old.notes }
        ensures { Does (replies_then (reply_of reply) (tells []) self.old.cache) (for_notes 2) self.old self.new }
    {
        tells::end(&mut self.notes, self.calls, reply);
    }

    /// The newest call stored the item with this number under the key, which was linked: the key leaves each place where it
    /// stood. No call waits for it, and notes aren't kept.
    fn store_alone(&mut self, number: u64, key: &Key<A>, outdating: Outdating<A>)
        requires outdates { ServesIn (is_log self.old.log) key.now self.old.cache.nvm outdating }
        requires stones { 1 ≤ self.old.spare.stones }
        requires room { 7 ≤ self.old.notes }
        ensures { Does (stored_alone number key.now self.old.cache) (costs 7 0 1 0) self.old self.new }
    {
        self.plant(None, key, number, outdating);
        self.reply_alone(Reply::Stored);
    }

    /// Puts the value of the plan under the key in the pool, which has room for it. Refused only when out of memory; then the
    /// number of the charge is gone, and nothing else.
    fn put_over(
        &mut self,
        pool: u8,
        key: &Key<A>,
        copy: Key<A>,
        expiry: u64,
        plan: SetPlan<A>,
        outdating: Outdating<A>,
    ) -> Result<(), Refusal>
        requires copy { copy ≡ key.now }
        requires number { plan.number ≡ self.old.cache.memory.made + 1 }
        requires pool { pool < length self.old.cache.memory.pools }
        requires room { is_hopeless self.old.cache.memory pool (charge_of copy (length plan.value)) ≡ false }
        requires none { length (victims_of self.old.cache.memory pool (charge_of copy (length plan.value))) ≡ 0 }
        requires outdates { ServesIn (is_log self.old.log) key.now self.old.cache.nvm outdating }
        requires stones { 1 ≤ self.old.spare.stones }
        requires notes { 7 ≤ self.old.notes }
        ensures ok { OnOk result (Does (stored_alone plan.number key.now (put_in (record { number = plan.number; pool = pool; key = copy; expiry = expiry; value = plan.value }) plan.call self.old.cache)) (costs 7 0 1 0) self.old self.new) }
        ensures err { OnErr result (IsSkipped plan.number self.old self.new) }
        ensures why { IfErr result (λ refusal. refusal ≡ Refusal.NoMemory) }
    {
        let SetPlan {
            call,
            number,
            count: _,
            value,
        } = plan;
        match self.pools.put(number, pool, copy, value, expiry) {
            Ok(()) => {
                self.calls = call;
                self.store_alone(number, key, outdating);
                Ok(())
            }
            Err(_) => {
                drop(outdating);
                Err(Refusal::NoMemory)
            }
        }
    }

    /// Stores the value of the plan under the key in the pool, charged `want` bytes, where there is flash.
    #[inline(never)]
    pub(crate) fn supersede(
        &mut self,
        pool: u8,
        key: Key<A>,
        want: u64,
        expiry: u64,
        plan: SetPlan<A>,
    ) -> Result<(), Refusal>
        requires structured { Structured self.old.cache }
        requires brief { is_brief_seen key self.old.log self.old.cache ≡ true }
        requires fits { refusal_of self.old.cache.memory pool key (length plan.value) ≡ None }
        requires want { want ≡ charge_of key (length plan.value) }
        requires planned { IsSetPlan pool key plan.value self.old plan }
        ensures ok { OnOk result ((ttl : ℕ) → expiry ≡ expiry_of self.old.cache.now ttl → IsStep (set_step pool key plan.value ttl self.old.cache) (Replied Stored) self.old self.new) }
        ensures err { IfErr result (λ refusal. Stays self.old self.new ⊎ ((ttl : ℕ) → expiry ≡ expiry_of self.old.cache.now ttl → IsStep (give_up_step pool key plan.value ttl self.old.cache) Discarded self.old self.new)) }
        ensures why { IfErr result (λ refusal. refusal ≡ Refusal.NoMemory) }
    {
        let FlashPlan {
            copy,
            keys,
            outdating,
        } = self.plan_to_supersede(pool, &key, plan.count)?;
        evicted_never_waits();
        self.send_all(pool, want, keys);
        self.is_sound();
        self.put_over(pool, &key, copy, expiry, plan, outdating)
    }
}

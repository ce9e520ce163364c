// What a fill brought is linked in the pools, where it can be: what that needs is made first.
ghost use Rattle.std.specs.Prelude.{◌≡◌, ◌<◌, ◌≤◌, true, None, length, IfSome, IfOk, OnErr};
ghost use Rattle.hc_types.specs.Charge.{charge_of};
ghost use Rattle.hc_types.specs.FlashEntry.{entry_of};
ghost use Rattle.hc_memory.specs.Memory.{linked_at, victims_of};
ghost use Rattle.hc_memory.specs.Sound.{FlashFits};
ghost use Rattle.hc_machine.specs.Workers.{can_link};
ghost use Rattle.hc_history.specs.Told.{where_kept};
ghost use Rattle.hc_state.specs.fill.Plan.{IsComing, IsLinked, MayCome};
ghost use Rattle.hc_state.specs.Whole.{Stays};

use crate::allocate::charge::{copy_of, victims_for};
use crate::fill::bring::{Arrived, Coming};
use crate::state::State;
use bytes::Bytes;
use hc_history::{Note, Notes};
use hc_memory::{Fill, is_expired};
use hc_nvm::Ending;
use hc_types::{Entry, FlashConfig, Key};
use std::alloc::{AllocError, Allocator};

/// The entry's key once more, where notes are kept, and its key and its value, which is shared. Refused only where memory
/// lacks.
fn copies_of<A: Allocator, N: Notes<Note<A>>>(
    notes: &N,
    entry: &Entry<A>,
) -> Result<(Option<Key<A>>, Key<A>, Bytes<A>), AllocError>
    ensures copy { IfOk result (λ copies. copies.0 ≡ where_kept (N.told notes.now) entry.now.key) }
    ensures key { IfOk result (λ copies. copies.1 ≡ entry.now.key) }
    ensures value { IfOk result (λ copies. copies.2 ≡ entry.now.value) }
{
    let copy = copy_of(notes, &entry.key)?;
    let key = entry.key.clone()?;
    let value = entry.value.clone()?;
    Ok((copy, key, value))
}

impl<N: Notes<Note<A>>, A: Allocator + Clone + Copy> State<N, A> {
    /// The flash behind the pools.
    fn flash_of_pools(&self) -> Option<FlashConfig>
        ensures value { result ≡ self.now.cache.memory.flash }
        ensures fits { FlashFits result }
    {
        *self.pools.flash()
    }

    /// How many items go for the entry, where it can be linked: it isn't expired, and its pool exists and can make room.
    pub(crate) fn victims_of_entry(&self, entry: &Entry<A>) -> Option<usize>
        ensures may { MayCome self.now.cache (entry_of entry.now) result }
        ensures most { IfSome result (λ count. count ≤ 1048576) }
    {
        if is_expired(self.clock, entry.expiry) {
            return None;
        }
        let bytes = Fill::Copied(entry.value.as_slice());
        match victims_for(&self.pools, entry.pool, &entry.key, bytes) {
            Ok(count) => Some(count),
            Err(_) => None,
        }
    }

    /// What the entry needs that is linked, where so many items go for it. Refused only when out of memory.
    fn coming_of(&self, entry: &Entry<A>, count: usize) -> Result<Coming<A>, AllocError>
        requires pool { entry.now.pool < length self.now.cache.memory.pools }
        ensures { IfOk result (λ coming. IsComing (entry_of entry.now) count self.now coming) }
    {
        let leaves = self.plan_to_leave(entry.pool, count)?;
        match copies_of(&self.notes, entry) {
            Ok((copy, key, value)) => Ok(Coming {
                pool: entry.pool,
                key,
                value,
                expiry: entry.expiry,
                count,
                copy,
                leaves,
            }),
            Err(no_memory) => {
                drop(leaves);
                Err(no_memory)
            }
        }
    }

    /// Links the entry in the pools, clean, where so many items go for it, with room for what the end of its fill tells while
    /// so many calls wait: nothing is told yet. Refused only when out of memory, or no number is left.
    pub(crate) fn link_entry(
        &mut self,
        entry: &Entry<A>,
        count: usize,
        waiting: usize,
        ending: &Ending<A>,
    ) -> Result<Arrived<A>, AllocError>
        requires can { can_link self.old.cache (entry_of entry.now) ≡ true }
        requires count { count ≡ length (victims_of self.old.cache.memory entry.now.pool (charge_of entry.now.key (length entry.now.value))) }
        requires most { count ≤ 1048576 }
        requires absent { linked_at entry.now.key self.old.cache.memory.pools ≡ None }
        ensures ok { IfOk result (λ arrived. IsLinked (entry_of entry.now) ending.now waiting arrived self.old self.new) }
        ensures err { OnErr result (Stays self.old self.new) }
    {
        self.room_to_end(ending, count, waiting)?;
        let coming = self.coming_of(entry, count)?;
        let flash = self.flash_of_pools();
        self.link_coming(coming, &flash, ending.losses())
    }
}

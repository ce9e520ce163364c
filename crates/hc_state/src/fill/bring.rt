// An item that comes from flash is told: the pools have linked it already, before flash tells what it loses.
ghost use Rattle.std.specs.Prelude.{◌≡◌, ℕ, ◌+◌, ◌*◌, ◌<◌, ◌≤◌, ◌∷◌, [], List, None, Some, false, length, IfOk, OnOk, OnErr};
ghost use Rattle.hc_memory.specs.Memory.{linked_at, is_hopeless, victims_of};
ghost use Rattle.hc_memory.specs.Sound.{FlashFits};
ghost use Rattle.hc_history.specs.Note.{Charged};
ghost use Rattle.hc_history.specs.Told.{is_log, where_kept};
ghost use Rattle.hc_machine.specs.Cache.{tells as told_here, and_then, with_memory};
ghost use Rattle.hc_state.specs.fill.Bring.{Arrives, entry_coming, want_coming};
ghost use Rattle.hc_state.specs.wait.Courses.{AllFit, AllMayFree, all_served_as};
ghost use Rattle.hc_state.specs.fill.Link.{brought_in, brought_by};
ghost use Rattle.hc_state.specs.allocate.Evict.{AreFor, keys_of, NoneWaits};
ghost use Rattle.hc_state.specs.Whole.{Does, HasRoom, costs, for_notes};

use crate::allocate::evict::Leave;
use crate::fill::mark::mark_all;
use crate::state::State;
use crate::tells;
use crate::wait::commit::Course;
use bytes::Bytes;
use hc_engines::Loss;
use hc_history::{Note, Notes};
use hc_memory::{Brought, Item};
use hc_types::{FlashConfig, Key, charge};
use hc_waiting::Waiter;
use std::alloc::{AllocError, Allocator};

/// An entry from flash that can be linked, with what that needs: how many items go for it, its key once more where notes are
/// kept, and what each of the items needs to leave.
#[derive(Drop)]
pub(crate) struct Coming<A: Allocator> {
    pub pool: u8,
    pub key: Key<A>,
    pub value: Bytes<A>,
    // seconds, 0: never
    pub expiry: u64,
    pub count: usize,
    pub copy: Option<Key<A>>,
    pub leaves: Vec<Leave<A>, A>,
}

/// An item from flash that the pools have linked: the number of its charge, its pool, how many bytes it is charged, its key
/// once more where notes are kept, and the items that went for it, with what each needs to leave.
#[derive(Drop)]
pub(crate) struct Arrived<A: Allocator> {
    pub number: u64,
    pub pool: u8,
    pub want: u64,
    pub copy: Option<Key<A>>,
    pub victims: Vec<Item<A>, A>,
    pub leaves: Vec<Leave<A>, A>,
}

impl<N: Notes<Note<A>>, A: Allocator + Clone + Copy> State<N, A> {
    /// Tells a charge, whose key was copied where notes are kept.
    fn tell_charged(&mut self, copy: Option<Key<A>>, number: u64, pool: u8, want: u64)
        requires room { 1 ≤ self.old.notes }
        ensures room { self.old.notes ≤ self.new.notes + 1 }
        ensures told { (key : List ℕ) → copy ≡ where_kept self.old.log key → Does (told_here (Charged number key pool want ∷ []) self.old.cache) (for_notes 1) self.old self.new }
    {
        tells::charged(&mut self.notes, copy, number, pool, want);
    }

    /// Tells of an item that the pools have linked: the items that went for it leave, and it is charged and linked.
    pub(crate) fn tell_arrived(&mut self, arrived: Arrived<A>)
        requires leaves { AreFor self.old (keys_of arrived.victims.items) arrived.leaves.items }
        requires absent { NoneWaits arrived.pool arrived.want arrived.victims.items self.old.cache }
        requires room { HasRoom (costs (2 * length arrived.victims.items + 2) (length arrived.victims.items) 0 0) self.old }
        ensures { (key : List ℕ) → arrived.copy ≡ where_kept self.old.log key → Does (brought_by arrived.number arrived.pool key arrived.want arrived.victims.items self.old.cache) (costs (2 * length arrived.victims.items + 2) (length arrived.victims.items) 0 0) self.old self.new }
    {
        let Arrived {
            number,
            pool,
            want,
            copy,
            victims,
            leaves,
        } = arrived;
        self.leave_all(pool, want, victims, leaves);
        self.tell_charged(copy, number, pool, want);
        self.tell_linked(number);
    }

    /// Makes room in the pools for an entry from flash, charges it and links it, clean, at once: nothing is told yet. The
    /// items that went for it lose the marks that flash takes with these losses. Refused only when out of memory, or no number
    /// is left; then nothing changed.
    pub(crate) fn link_coming(
        &mut self,
        coming: Coming<A>,
        flash: &Option<FlashConfig>,
        losses: &[Loss<A>],
    ) -> Result<Arrived<A>, AllocError>
        requires fits { FlashFits flash.now }
        requires pool { coming.pool < length self.old.cache.memory.pools }
        requires size { length coming.value ≤ 1048576 }
        requires count { coming.count ≡ length (victims_of self.old.cache.memory coming.pool (want_coming coming)) }
        requires room { is_hopeless self.old.cache.memory coming.pool (want_coming coming) ≡ false }
        requires absent { linked_at coming.key self.old.cache.memory.pools ≡ None }
        ensures ok { OnOk result (self.new ≡ record self.old { cache = with_memory (brought_in (entry_coming coming) self.old.cache.memory) self.old.cache }) }
        ensures arrived { IfOk result (λ arrived. Arrives flash.now losses.now self.old.cache.memory coming arrived) }
        ensures err { OnErr result (self.new ≡ self.old) }
    {
        let want = charge(&coming.key, coming.value.len() as u64);
        let Coming {
            pool,
            key,
            value,
            expiry,
            count,
            copy,
            leaves,
        } = coming;
        match self.pools.bring(pool, key, value, expiry, count) {
            Ok(brought) => {
                let Brought {
                    number,
                    mut victims,
                } = brought;
                mark_all(flash, losses, &mut victims);
                Ok(Arrived {
                    number,
                    pool,
                    want,
                    copy,
                    victims,
                    leaves,
                })
            }
            Err(error) => {
                drop(leaves);
                drop(copy);
                Err(error)
            }
        }
    }

    /// Tells of an item that the pools have linked, once flash told what it lost: the items that went for it leave, it is
    /// charged and linked, and the calls that wait for its key are served, each by its course.
    pub(crate) fn end_brought(
        &mut self,
        arrived: Arrived<A>,
        key: &Key<A>,
        waiters: Vec<Waiter<A>, A>,
        courses: Vec<Course<A>, A>,
    )
        requires copy { arrived.copy ≡ where_kept self.old.log key.now }
        requires leaves { AreFor self.old (keys_of arrived.victims.items) arrived.leaves.items }
        requires absent { NoneWaits arrived.pool arrived.want arrived.victims.items self.old.cache }
        requires fit { AllFit (is_log self.old.log) key.now waiters.items courses.items }
        requires may_free { AllMayFree waiters.items courses.items self.old.cache.memory.charges }
        requires room { HasRoom (costs (2 * length arrived.victims.items + 2 + 6 * length waiters.items) (length arrived.victims.items) (length waiters.items) 0) self.old }
        ensures { Does (and_then (brought_by arrived.number arrived.pool key.now arrived.want arrived.victims.items self.old.cache) (all_served_as waiters.items courses.items (Some arrived.number))) (costs (2 * length arrived.victims.items + 2 + 6 * length waiters.items) (length arrived.victims.items) (length waiters.items) 0) self.old self.new }
    {
        let number = arrived.number;
        self.tell_arrived(arrived);
        self.serve_all(key, waiters, courses, Some(number));
    }
}

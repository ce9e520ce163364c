// Items leave their pool: each that has no copy on flash waits for flash, or its key is forgotten.
ghost use Rattle.std.specs.Prelude.{◌≡◌, ◌+◌, ◌*◌, ◌<◌, ◌≤◌, true, false, None, Some, [], ◌∷◌, length, map, is_some, option_map, IfSome, IfOk};
ghost use Rattle.hc_types.specs.Loss.{cause_of};
ghost use Rattle.hc_types.specs.Loss as loss;
ghost use Rattle.hc_types.specs.FlashEntry.{entry_of};
ghost use Rattle.hc_machine.specs.items.Allocating as items;
ghost use Rattle.hc_memory.specs.Item.{Item as Stored};
ghost use Rattle.hc_memory.specs.Memory.{oldest_keys, oldest_of, after_evict};
ghost use Rattle.hc_history.specs.Note.{Lose, Queued};
ghost use Rattle.hc_history.specs.Told.{told_more, where_kept, is_log};
ghost use Rattle.hc_machine.specs.Cache.{with_memory};
ghost use Rattle.hc_machine.specs.Nvm.{put_at};
ghost use Rattle.hc_machine.specs.Evicting.{entry_of_item, leaves_for, all_leave};
ghost use Rattle.hc_machine.specs.Calls.{queue_of};
ghost use Rattle.hc_state.specs.Whole.{HasRoom, Does, costs};
ghost use Rattle.hc_state.specs.allocate.Evict.{leave_of, AreFor, keys_of, NoneWaits, one_leaves};

use crate::state::{State, alloc_of};
use crate::tells;
use hc_history::{Note, Notes, Said, tell_loss};
use hc_memory::Item;
use hc_types::{Cause, Entry, Key, Scope, Why};
use std::alloc::{AllocError, Allocator};

/// What an item needs to leave for flash: its key once more, and the note that it waits, where notes are kept.
#[derive(Drop)]
pub(crate) struct Leave<A: Allocator> {
    copy: Key<A>,
    note: Option<Note<A>>,
}

/// The note that the key's item waits for flash, where notes are kept.
fn queued_note<A: Allocator, N: Notes<Note<A>>>(
    notes: &N,
    key: &Key<A>,
) -> Result<Option<Note<A>>, AllocError>
    ensures { IfOk result (λ note. note ≡ where_kept (N.told notes.now) (Queued key.now)) }
{
    if !notes.keeps() {
        return Ok(None);
    }
    let key = key.clone()?;
    Ok(Some(Note::new(Said::Queued { key })))
}

/// What the items of these keys need to leave for flash.
fn plan_leaves<A: Allocator, N: Notes<Note<A>>>(
    alloc: A,
    notes: &N,
    keys: Vec<Key<A>, A>,
) -> Result<Vec<Leave<A>, A>, AllocError>
    ensures { IfOk result (λ leaves. leaves.items ≡ map (leave_of (N.told notes.now)) keys.items) }
{
    let mut leaves = Vec::with_capacity(alloc, keys.len())?;
    for copy in keys {
        let note = queued_note(notes, &copy)?;
        leaves.push_reserved(Leave { copy, note });
    }
    Ok(leaves)
}

/// Why the key of an item is forgotten that is evicted from the pool for `want` bytes where there is no flash.
fn cause_for<A: Allocator>(item: &Item<A>, now: u64, pool: u8, want: u64) -> Cause<A>
    ensures { cause_of result ≡ items.cause_for now pool want item.now }
{
    if item.is_expired(now) {
        return Cause::Expired;
    }
    Cause::Evicted {
        pool,
        want,
        why: Why::NoFlash,
    }
}

/// Tells that the key of an item is forgotten that was evicted from the pool for `want` bytes.
fn forgotten<A: Allocator, N: Notes<Note<A>>>(
    notes: &mut N,
    now: u64,
    pool: u8,
    want: u64,
    item: Item<A>,
)
    requires { 0 < N.room notes.old }
    ensures told { N.told notes.new ≡ told_more (N.told notes.old) (Lose (loss.Key item.key) (items.cause_for now pool want item) ∷ []) }
    ensures room { N.room notes.old ≤ N.room notes.new + 1 }
{
    let cause = cause_for(&item, now, pool, want);
    let Item {
        number: _,
        pool: _,
        key,
        value: _,
        expiry: _,
        clean: _,
    } = item;
    tell_loss(notes, Scope::Key(key), cause);
}

/// The item as flash has it.
fn entry_by<A: Allocator>(item: Item<A>) -> Entry<A>
    ensures { entry_of result ≡ entry_of_item item }
{
    let Item {
        number: _,
        pool,
        key,
        value,
        expiry,
        clean: _,
    } = item;
    Entry {
        key,
        value,
        pool,
        expiry,
    }
}

impl<N: Notes<Note<A>>, A: Allocator + Clone + Copy> State<N, A> {
    /// An item with no copy on flash was evicted from the pool for `want` bytes: it waits for flash, or its key is
    /// forgotten.
    fn leave_unclean(&mut self, pool: u8, want: u64, item: Item<A>, leave: Option<Leave<A>>)
        requires short { length item.value ≤ 1048576 }
        requires absent { put_at item.key (queue_of self.old.cache.nvm) ≡ None }
        requires leave { is_some self.old.cache.nvm ≡ true → leave ≡ Some (leave_of self.old.log item.key) }
        requires room { HasRoom (costs 1 1 0 0) self.old }
        ensures { Does (leaves_for self.old.cache.nvm pool want item self.old.cache) (costs 1 1 0 0) self.old self.new }
    {
        match &mut self.nvm {
            Some(nvm) => match leave {
                Some(Leave { copy, note }) => {
                    let entry = entry_by(item);
                    nvm.evicted(self.clock, pool, want, copy, entry, note, &mut self.notes);
                }
                None => unreachable!(),
            },
            None => {
                drop(leave);
                forgotten(&mut self.notes, self.clock, pool, want, item);
            }
        }
    }

    /// An item was evicted from the pool for `want` bytes: its charge is free, and where no copy of it stands on flash it
    /// waits for flash, or its key is forgotten.
    pub(crate) fn leave(&mut self, pool: u8, want: u64, item: Item<A>, leave: Option<Leave<A>>)
        requires absent { put_at item.key (queue_of self.old.cache.nvm) ≡ None }
        requires leave { is_some self.old.cache.nvm ≡ true → leave ≡ Some (leave_of self.old.log item.key) }
        requires room { HasRoom (costs 2 1 0 0) self.old }
        ensures { Does (one_leaves pool want item self.old.cache) (costs 2 1 0 0) self.old self.new }
    {
        tells::freed(&mut self.notes, Some(item.number));
        if item.clean {
            drop(leave);
            drop(item);
        } else {
            item.is_short();
            self.leave_unclean(pool, want, item, leave);
        }
    }

    /// The least recently used item of the pool goes, for `want` bytes, where notes aren't kept: it waits for flash, or
    /// its key is forgotten. `copy` is its key once more.
    pub(crate) fn send_oldest(&mut self, pool: u8, want: u64, copy: Key<A>)
        requires quiet { is_log self.old.log ≡ false }
        requires pool { pool < length self.old.cache.memory.pools }
        requires first { option_map (λ (item : Stored). item.key) (oldest_of self.old.cache.memory pool) ≡ Some copy }
        requires absent { put_at copy (queue_of self.old.cache.nvm) ≡ None }
        requires room { HasRoom (costs 2 1 0 0) self.old }
        ensures { IfSome (oldest_of self.old.cache.memory pool) (λ item. Does (one_leaves pool want item (with_memory (after_evict self.old.cache.memory pool) self.old.cache)) (costs 2 1 0 0) self.old self.new) }
    {
        match self.pools.evict_oldest(pool) {
            Some(item) => {
                let leave = Leave { copy, note: None };
                self.leave(pool, want, item, Some(leave));
            }
            None => unreachable!(),
        }
    }

    /// These items were evicted from the pool for `want` bytes: they leave, in order.
    pub(crate) fn leave_all(
        &mut self,
        pool: u8,
        want: u64,
        victims: Vec<Item<A>, A>,
        leaves: Vec<Leave<A>, A>,
    )
        requires leaves { AreFor self.old (keys_of victims.items) leaves.items }
        requires absent { NoneWaits pool want victims.items self.old.cache }
        requires room { HasRoom (costs (2 * length victims.items) (length victims.items) 0 0) self.old }
        ensures { Does (all_leave pool want victims.items self.old.cache) (costs (2 * length victims.items) (length victims.items) 0 0) self.old self.new }
    {
        let mut prepared = leaves.into_iter();
        for item in victims {
            let leave = prepared.next();
            self.leave(pool, want, item, leave);
        }
    }

    /// What the least recently used items of the pool need to leave, so many of them, in that order: nothing where
    /// there is no flash. Refused only when out of memory.
    pub(crate) fn plan_to_leave(
        &self,
        pool: u8,
        count: usize,
    ) -> Result<Vec<Leave<A>, A>, AllocError>
        requires { pool < length self.now.cache.memory.pools }
        ensures { IfOk result (λ leaves. AreFor self.now (oldest_keys self.now.cache.memory pool count) leaves.items) }
    {
        let alloc = alloc_of(&self.config);
        if self.nvm.is_none() {
            return Ok(Vec::new(alloc));
        }
        let keys = self.pools.oldest_keys(pool, count)?;
        plan_leaves(alloc, &self.notes, keys)
    }
}

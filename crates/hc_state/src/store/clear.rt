// A key is inserted or removed: it leaves each place where it stood. What that needs of flash is made first.
ghost use Rattle.std.specs.Prelude.{◌≤◌, ◌∷◌, [], IfOk, OnErr, IsSome};
ghost use Rattle.hc_machine.specs.Cache.{on_flash, tells, and_then};
ghost use Rattle.hc_machine.specs.Leaving.{unqueue as unqueue_step, outdate as outdate_step};
ghost use Rattle.hc_state.specs.Whole.{Does, for_notes, costs};
ghost use Rattle.hc_history.specs.Note.{Linked};
ghost use Rattle.hc_history.specs.Told.{is_log};
ghost use Rattle.hc_state.specs.store.Clear.{ServesIn};
ghost use Rattle.hc_state.specs.wait.Commit.{clear_by};
ghost use Rattle.hc_state.specs.Tells.{freed_notes};

use crate::state::State;
use crate::tells;
use hc_history::{Note, Notes};
use hc_nvm::Outdating;
use hc_types::Key;
use std::alloc::{AllocError, Allocator};

impl<N: Notes<Note<A>>, A: Allocator + Clone + Copy> State<N, A> {
    /// The key's waiting put goes, where there is one.
    pub fn unqueue(&mut self, key: &Key<A>)
        requires room { 1 ≤ self.old.notes }
        ensures { Does (on_flash (unqueue_step key.now) self.old.cache) (for_notes 1) self.old self.new }
    {
        if let Some(nvm) = &mut self.nvm {
            nvm.unqueue(key, &mut self.notes);
        }
    }

    /// What the key's copies on flash need to be stale. Refused only when out of memory.
    pub fn plan_to_outdate(&self, key: &Key<A>) -> Result<Outdating<A>, AllocError>
        ensures serves { IfOk result (λ plan. ServesIn (is_log self.now.log) key.now self.now.cache.nvm plan) }
        ensures silent { OnErr result (IsSome self.now.cache.nvm) }
    {
        match &self.nvm {
            Some(nvm) => nvm.plan_to_outdate(key, self.notes.keeps()),
            None => Ok(Outdating::nothing()),
        }
    }

    /// Tells that a charge is free, where there was one.
    pub(crate) fn tell_freed(&mut self, old: Option<u64>)
        requires room { 1 ≤ self.old.notes }
        ensures { Does (tells (freed_notes old) self.old.cache) (for_notes 1) self.old self.new }
    {
        tells::freed(&mut self.notes, old);
    }

    /// Tells that an item can be found.
    pub(crate) fn tell_linked(&mut self, number: u64)
        requires room { 1 ≤ self.old.notes }
        ensures { Does (tells (Linked number ∷ []) self.old.cache) (for_notes 1) self.old self.new }
    {
        tells::linked(&mut self.notes, number);
    }

    /// The key's copies on flash are stale from here on.
    pub(crate) fn outdate(&mut self, key: &Key<A>, plan: Outdating<A>)
        requires plan { ServesIn (is_log self.old.log) key.now self.old.cache.nvm plan }
        requires stones { 1 ≤ self.old.spare.stones }
        requires room { 2 ≤ self.old.notes }
        ensures { Does (on_flash (outdate_step key.now) self.old.cache) (costs 2 0 1 0) self.old self.new }
    {
        match &mut self.nvm {
            Some(nvm) => nvm.outdate(plan, key, &mut self.notes, &mut self.pools),
            None => drop(plan),
        }
    }

    /// The key leaves each place where it stood: its waiting put goes, the charge of its old item is told as free, and its
    /// copies on flash are stale from here on. What becomes of the item in memory was done.
    pub fn clear(&mut self, key: &Key<A>, old: Option<u64>, plan: Outdating<A>)
        requires plan { ServesIn (is_log self.old.log) key.now self.old.cache.nvm plan }
        requires stones { 1 ≤ self.old.spare.stones }
        requires room { 4 ≤ self.old.notes }
        ensures { Does (clear_by old key.now self.old.cache) (costs 4 0 1 0) self.old self.new }
    {
        self.unqueue(key);
        self.tell_freed(old);
        self.outdate(key, plan);
    }

    /// An item stands under the key in place of the old one: the key leaves each place where it stood, and the item with
    /// this number can be found. It was linked.
    pub fn plant(&mut self, old: Option<u64>, key: &Key<A>, number: u64, plan: Outdating<A>)
        requires plan { ServesIn (is_log self.old.log) key.now self.old.cache.nvm plan }
        requires stones { 1 ≤ self.old.spare.stones }
        requires room { 5 ≤ self.old.notes }
        ensures { Does (and_then (clear_by old key.now self.old.cache) (tells (Linked number ∷ []))) (costs 5 0 1 0) self.old self.new }
    {
        self.clear(key, old, plan);
        self.tell_linked(number);
    }
}

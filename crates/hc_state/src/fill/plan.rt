// What the end of a key's fill needs is made before anything is told, and what it brought is linked, where it can be.
ghost use Rattle.std.specs.Prelude.{◌≡◌, ◌+◌, ◌≤◌, [], true, false, None, Some, length, option_map, vec_len, vec_capacity, IfOk, OnOk, OnErr};
ghost use Rattle.std.specs.Option.{option_copied};
ghost use Rattle.hc_types.specs.Charge.{charge_of};
ghost use Rattle.hc_types.specs.FlashEntry.{entry_of};
ghost use Rattle.hc_memory.specs.Memory.{linked_at, victims_of};
ghost use Rattle.hc_machine.specs.Workers.{can_link};
ghost use Rattle.hc_invariant.specs.Structure.{Structured};
ghost use Rattle.hc_state.specs.fill.Plan.{FindsOwn, HasRoomToEnd, IsOwn, IsPrepared, found_by};
ghost use Rattle.hc_state.specs.fill.Link.{can_bring};
ghost use Rattle.hc_state.specs.store.Link.{linked_without};
ghost use Rattle.hc_state.specs.wait.Plan.{IsThere};
ghost use Rattle.hc_state.specs.wait.Commit.{waiters_at};
ghost use Rattle.hc_state.specs.Whole.{Stays};

use crate::fill::bring::Arrived;
use crate::state::{State, alloc_of};
use crate::wait::commit::Course;
use crate::wait::plan::There;
use hc_history::{Note, Notes};
use hc_nvm::Ending;
use hc_types::{Entry, Key};
use std::alloc::{AllocError, Allocator};

/// What is made ready before a fill ends: how each of the calls that wait is served, and the item of what it brought, where
/// that can be linked.
#[derive(Drop)]
pub(crate) enum Prepared<A: Allocator> {
    Bare(Vec<Course<A>, A>),
    Item(Arrived<A>, Vec<Course<A>, A>),
}

/// What a key has of which this was found: the value is shared. Refused only when out of memory.
fn there_by<A: Allocator + Clone>(found: Option<&Entry<A>>) -> Result<Option<There<A>>, AllocError>
    ensures { IfOk result (λ there. IsThere (option_map entry_of (option_copied found.entry)) there) }
{
    match found {
        Some(entry) => match There::of_entry(entry) {
            Ok(there) => Ok(Some(there)),
            Err(no_memory) => Err(no_memory),
        },
        None => Ok(None),
    }
}

impl<N: Notes<Note<A>>, A: Allocator + Clone + Copy> State<N, A> {
    /// Room for so many numbers of charges.
    fn room_for_numbers(&self, count: usize) -> Result<Vec<u64, A>, AllocError>
        ensures empty { IfOk result (λ numbers. numbers.items ≡ []) }
        ensures room { IfOk result (λ numbers. vec_len numbers + count ≤ vec_capacity numbers) }
    {
        Vec::with_capacity(alloc_of(&self.config), count)
    }

    /// Links the last of the items that the calls store by these courses, where one is stored, with room for what the end of
    /// the key's fill tells: nothing is told yet. Refused only when out of memory.
    fn link_last(
        &mut self,
        key: &Key<A>,
        courses: &[Course<A>],
        ending: &Ending<A>,
    ) -> Result<(), AllocError>
        requires structured { Structured self.old.cache }
        requires courses { length courses.now ≡ length (waiters_at self.old.cache.nvm key.now) }
        ensures cache { OnOk result (self.new.cache ≡ linked_without key.now courses.now self.old.cache) }
        ensures log { OnOk result (self.new.log ≡ self.old.log) }
        ensures room { OnOk result (HasRoomToEnd ending.now 0 (length courses.now) self.old.cache self.new) }
        ensures err { OnErr result (Stays self.old self.new) }
    {
        self.room_to_end(ending, 0, courses.len())?;
        let mut earlier = self.room_for_numbers(courses.len())?;
        match self.unlink_stored(key, courses, &mut earlier) {
            Ok(_) => Ok(()),
            Err(no_memory) => Err(no_memory),
        }
    }

    /// What is made ready where nothing is linked of what was found. Refused only when out of memory.
    fn prepare_bare(&mut self, key: &Key<A>, ending: &Ending<A>) -> Result<Prepared<A>, AllocError>
        requires structured { Structured self.old.cache }
        requires cannot { can_bring self.old.cache (found_by ending.now) ≡ false }
        ensures ok { IfOk result (λ plan. IsPrepared key.now ending.now plan self.old self.new) }
        ensures err { OnErr result (Stays self.old self.new) }
    {
        let there = there_by(ending.found())?;
        let courses = self.plan_to_serve(key, there)?;
        match self.link_last(key, courses.as_slice(), ending) {
            Ok(()) => Ok(Prepared::Bare(courses)),
            Err(no_memory) => {
                drop(courses);
                Err(no_memory)
            }
        }
    }

    /// What is made ready where this entry was found, and can be linked: so many items go for it. Refused only where memory
    /// lacks.
    fn prepare_item(
        &mut self,
        key: &Key<A>,
        entry: &Entry<A>,
        count: usize,
        ending: &Ending<A>,
    ) -> Result<Prepared<A>, AllocError>
        requires absent { linked_at key.now self.old.cache.memory.pools ≡ None }
        requires found { found_by ending.now ≡ Some (entry_of entry.now) }
        requires own { IsOwn key.now self.old.cache.memory.flash ending.now (entry_of entry.now) }
        requires can { can_link self.old.cache (entry_of entry.now) ≡ true }
        requires count { count ≡ length (victims_of self.old.cache.memory entry.now.pool (charge_of entry.now.key (length entry.now.value))) }
        requires most { count ≤ 1048576 }
        ensures ok { IfOk result (λ plan. IsPrepared key.now ending.now plan self.old self.new) }
        ensures err { OnErr result (Stays self.old self.new) }
    {
        let there = There::of_entry(entry)?;
        let courses = self.plan_to_serve(key, Some(there))?;
        match self.link_entry(entry, count, courses.len(), ending) {
            Ok(arrived) => Ok(Prepared::Item(arrived, courses)),
            Err(no_memory) => {
                drop(courses);
                Err(no_memory)
            }
        }
    }

    /// Makes ready what the end of the key's fill needs, and links what it brought, where that can be linked: the pools
    /// alone change, and nothing is told yet. Refused only when out of memory; then nothing changed.
    pub(crate) fn prepare(
        &mut self,
        key: &Key<A>,
        ending: &Ending<A>,
    ) -> Result<Prepared<A>, AllocError>
        requires structured { Structured self.old.cache }
        requires absent { linked_at key.now self.old.cache.memory.pools ≡ None }
        requires own { FindsOwn key.now self.old.cache.memory.flash ending.now }
        ensures ok { IfOk result (λ plan. IsPrepared key.now ending.now plan self.old self.new) }
        ensures err { OnErr result (Stays self.old self.new) }
    {
        match ending.found() {
            Some(entry) => match self.victims_of_entry(entry) {
                Some(count) => self.prepare_item(key, entry, count, ending),
                None => self.prepare_bare(key, ending),
            },
            None => self.prepare_bare(key, ending),
        }
    }
}

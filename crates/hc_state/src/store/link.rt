// Of the items that are stored under a key, one in place of the other, the last one is linked, before anything is told.
ghost use Rattle.std.specs.Prelude.{◌≡◌, ◌≤◌, ◌+◌, ◌∷◌, [], None, true, length, vec_len, vec_capacity, IfOk, OnOk, OnErr, IfErr};
ghost use Rattle.std.specs.Option.{option_copied};
ghost use Rattle.hc_memory.specs.Item.{charge_by};
ghost use Rattle.hc_memory.specs.Charges.{is_open};
ghost use Rattle.hc_memory.specs.Memory.{early};
ghost use Rattle.hc_invariant.specs.Jobs.{AllWish};
ghost use Rattle.hc_machine.specs.Cache.{with_memory};
ghost use Rattle.hc_state.specs.store.Chosen.{stored_as, all_stored_as, last_of, before_last};
ghost use Rattle.hc_state.specs.store.Link.{linked_with, linked_without, number_at};
ghost use Rattle.hc_state.specs.wait.Commit.{waiters_at};

use crate::state::State;
use crate::wait::commit::Course;
use hc_history::{Note, Notes};
use hc_memory::{Parked, Sealed};
use hc_types::Key;
use hc_waiting::{Waiter, Wish};
use std::alloc::{AllocError, Allocator};

/// The item that the call stores by this course, where it stores one.
fn stored_in<'a, A: Allocator>(waiter: &'a Waiter<A>, course: &Course<A>) -> Option<&'a Parked<A>>
    ensures { option_copied result ≡ stored_as waiter.now.wish course.now }
{
    match course {
        Course::Store(_) => match &waiter.wish {
            Wish::Add(parked) => Some(parked),
            Wish::Find => None,
        },
        _ => None,
    }
}

/// The item that is stored last, where one is stored; `earlier` gets the charges of those before it.
fn last_stored<'a, A: Allocator>(
    waiters: &'a [Waiter<A>],
    courses: &[Course<A>],
    earlier: &mut Vec<u64, A>,
) -> Option<&'a Parked<A>>
    requires courses { length courses.now ≡ length waiters.now }
    requires room { vec_len earlier.old + length waiters.now ≤ vec_capacity earlier.old }
    ensures last { option_copied result ≡ last_of None (all_stored_as waiters.now courses.now) }
    ensures earlier { earlier.new.items ≡ before_last earlier.old.items None (all_stored_as waiters.now courses.now) }
{
    let mut last: Option<&'a Parked<A>> = None;
    for i in 0..waiters.len() {
        if let Some(parked) = stored_in(&waiters[i], &courses[i]) {
            if let Some(before) = last {
                earlier.push_reserved(before.number());
            }
            last = Some(parked);
        }
    }
    last
}

impl<N: Notes<Note<A>>, A: Allocator + Clone + Copy> State<N, A> {
    /// A handle of the item that is stored last of those that wait for the key, where one is stored; `earlier` gets the
    /// charges of those before it.
    fn twin_of_last(
        &self,
        key: &Key<A>,
        courses: &[Course<A>],
        earlier: &mut Vec<u64, A>,
    ) -> Result<Option<Sealed<A>>, AllocError>
        requires courses { length courses.now ≡ length (waiters_at self.now.cache.nvm key.now) }
        requires room { vec_len earlier.old + length (waiters_at self.now.cache.nvm key.now) ≤ vec_capacity earlier.old }
        ensures last { IfOk result (λ twin. twin ≡ last_of None (all_stored_as (waiters_at self.now.cache.nvm key.now) courses.now)) }
        ensures earlier { earlier.new.items ≡ before_last earlier.old.items None (all_stored_as (waiters_at self.now.cache.nvm key.now) courses.now) }
    {
        let Some(nvm) = &self.nvm else {
            return Ok(None);
        };
        match last_stored(nvm.waiters(key), courses, earlier) {
            Some(parked) => Ok(Some(parked.twin()?)),
            None => Ok(None),
        }
    }

    /// Links the item of a handle that is known, over which none is stored, and answers the charge of the item that the key
    /// had. Refused only when out of memory: then nothing changed, and the handle comes back.
    pub(crate) fn link_alone(&mut self, sealed: Sealed<A>) -> Result<Option<u64>, Sealed<A>>
        requires { is_open (charge_by sealed) self.old.cache.memory.charges ≡ true }
        ensures ok { OnOk result (self.new ≡ record self.old { cache = with_memory (early (sealed ∷ []) self.old.cache.memory) self.old.cache }) }
        ensures standing { IfOk result (λ old. old ≡ number_at sealed.key self.old.cache.memory) }
        ensures err { OnErr result (self.new ≡ self.old) }
        ensures sealed_returned { IfErr result (λ back. back ≡ sealed) }
    {
        self.pools.link_after(&[], sealed)
    }

    /// Links the item of a handle that is known, or in its place the last of those that are stored over it, and answers the
    /// charge of the item that the key had. `earlier` has the handle's charge. Refused only when out of memory: then nothing
    /// changed, and the handle comes back.
    pub(crate) fn link_stored(
        &mut self,
        sealed: Sealed<A>,
        courses: &[Course<A>],
        earlier: &mut Vec<u64, A>,
    ) -> Result<Option<u64>, Sealed<A>>
        requires open_charge { is_open (charge_by sealed) self.old.cache.memory.charges ≡ true }
        requires wishes { AllWish self.old.cache.memory sealed.key (waiters_at self.old.cache.nvm sealed.key) }
        requires courses { length courses.now ≡ length (waiters_at self.old.cache.nvm sealed.key) }
        requires room { vec_len earlier.old + length (waiters_at self.old.cache.nvm sealed.key) ≤ vec_capacity earlier.old }
        requires first { earlier.old.items ≡ sealed.number ∷ [] }
        ensures ok { OnOk result (self.new ≡ record self.old { cache = linked_with sealed courses.now self.old.cache }) }
        ensures standing { IfOk result (λ old. old ≡ number_at sealed.key self.old.cache.memory) }
        ensures err { OnErr result (self.new ≡ self.old) }
        ensures sealed_returned { IfErr result (λ back. back ≡ sealed) }
    {
        match self.twin_of_last(sealed.key(), courses, earlier) {
            Ok(None) => self.pools.link_after(&[], sealed),
            Ok(Some(twin)) => match self.pools.link_after(earlier.as_slice(), twin) {
                Ok(old) => {
                    sealed.abandon();
                    Ok(old)
                }
                Err(twin) => {
                    twin.abandon();
                    Err(sealed)
                }
            },
            Err(_) => Err(sealed),
        }
    }

    /// Takes the key's item out, or links in its place the last of those that are stored, and answers the charge of the item
    /// that the key had. Refused only when out of memory: then nothing changed.
    pub(crate) fn unlink_stored(
        &mut self,
        key: &Key<A>,
        courses: &[Course<A>],
        earlier: &mut Vec<u64, A>,
    ) -> Result<Option<u64>, AllocError>
        requires wishes { AllWish self.old.cache.memory key.now (waiters_at self.old.cache.nvm key.now) }
        requires courses { length courses.now ≡ length (waiters_at self.old.cache.nvm key.now) }
        requires room { vec_len earlier.old + length (waiters_at self.old.cache.nvm key.now) ≤ vec_capacity earlier.old }
        requires first { earlier.old.items ≡ [] }
        ensures ok { OnOk result (self.new ≡ record self.old { cache = linked_without key.now courses.now self.old.cache }) }
        ensures standing { IfOk result (λ old. old ≡ number_at key.now self.old.cache.memory) }
        ensures err { OnErr result (self.new ≡ self.old) }
    {
        match self.twin_of_last(key, courses, earlier)? {
            None => Ok(self.pools.unlink(key)),
            Some(twin) => match self.pools.link_after(earlier.as_slice(), twin) {
                Ok(old) => Ok(old),
                Err(twin) => {
                    twin.abandon();
                    Err(AllocError)
                }
            },
        }
    }
}

// Calls that wait for a key are served, one after the other, by what the key has then. What that needs is made first.
ghost use Rattle.std.specs.Prelude.{◌≡◌, ◌≤◌, ◌*◌, length, true, Option};
ghost use Rattle.hc_types.specs.FlashEntry.{FlashEntry};
ghost use Rattle.hc_memory.specs.Item.{charge_by};
ghost use Rattle.hc_memory.specs.Charges.{is_open};
ghost use Rattle.hc_history.specs.Note as note;
ghost use Rattle.hc_history.specs.Seen.{reply_of};
ghost use Rattle.hc_history.specs.Told.{is_log};
ghost use Rattle.hc_machine.specs.Cache.{and_then};
ghost use Rattle.hc_machine.specs.Waiting.{answer as answer_step, free as free_step};
ghost use Rattle.hc_state.specs.store.Clear.{ServesIn};
ghost use Rattle.hc_state.specs.wait.Commit.{planted_by, all_served};
ghost use Rattle.hc_state.specs.wait.Courses.{AreCourses, Fits, AllFit, MayFree, AllMayFree, served_as, standing_as, all_served_as};
ghost use Rattle.hc_state.specs.Whole.{Does, costs, for_notes};

use crate::state::State;
use crate::tells;
use hc_history::{Note, Notes, Reply};
use hc_memory::Parked;
use hc_nvm::Outdating;
use hc_types::Key;
use hc_waiting::{Waiter, Wish};
use std::alloc::{Allocator, Global};

/// How a call that waits is served, with what that needs.
#[derive(Drop)]
#[must_use]
pub enum Course<A: Allocator = Global> {
    /// A find is answered: by the first for its note, and by the second for its caller.
    Find(Reply<A>, Reply<A>),
    /// An add finds that there is a value.
    Exists,
    /// An add stores its item, and the copies on flash are stale.
    Store(Outdating<A>),
}

impl<N: Notes<Note<A>>, A: Allocator + Clone + Copy> State<N, A> {
    /// A call that waits is answered. `told` is its reply once more.
    pub(crate) fn answer(&mut self, call: u64, told: Reply<A>, reply: Reply<A>)
        requires told { reply_of told ≡ reply_of reply }
        requires room { 1 ≤ self.old.notes }
        ensures { Does (answer_step call (reply_of reply) self.old.cache) (for_notes 1) self.old self.new }
    {
        tells::answered(&mut self.notes, call, told);
        self.replies.answer(call, reply);
    }

    /// The open charge of a call that waits goes.
    pub(crate) fn free(&mut self, parked: Parked<A>)
        requires open_charge { is_open (charge_by parked) self.old.cache.memory.charges ≡ true }
        requires room { 1 ≤ self.old.notes }
        ensures { Does (free_step parked.number self.old.cache) (for_notes 1) self.old self.new }
    {
        match self.pools.discard(parked.into_sealed()) {
            Ok(number) => tells::freed(&mut self.notes, Some(number)),
            Err(_) => unreachable!(),
        }
    }

    /// An add that waits finds that there is a value: its charge goes.
    fn serve_exists(&mut self, call: u64, parked: Parked<A>)
        requires open_charge { is_open (charge_by parked) self.old.cache.memory.charges ≡ true }
        requires room { 2 ≤ self.old.notes }
        ensures { Does (and_then (free_step parked.number self.old.cache) (answer_step call note.Exists)) (for_notes 2) self.old self.new }
    {
        self.free(parked);
        self.answer(call, Reply::Exists, Reply::Exists);
    }

    /// An add that waits stores its item, which is linked already, in place of the one that stands.
    fn serve_stored(
        &mut self,
        call: u64,
        key: &Key<A>,
        parked: &Parked<A>,
        standing: Option<u64>,
        plan: Outdating<A>,
    )
        requires key { parked.now.key ≡ key.now }
        requires plan { ServesIn (is_log self.old.log) key.now self.old.cache.nvm plan }
        requires stones { 1 ≤ self.old.spare.stones }
        requires room { 6 ≤ self.old.notes }
        ensures { Does (and_then (planted_by standing parked.now self.old.cache) (answer_step call note.Stored)) (costs 6 0 1 0) self.old self.new }
    {
        self.plant(standing, key, parked.number(), plan);
        self.answer(call, Reply::Stored, Reply::Stored);
    }

    /// A call that waits for the key is served, where the item with the charge `standing` is the key's, and answers the
    /// charge of the item that is the key's then.
    fn serve(
        &mut self,
        key: &Key<A>,
        waiter: Waiter<A>,
        course: Course<A>,
        standing: Option<u64>,
    ) -> Option<u64>
        requires fits { Fits (is_log self.old.log) key.now waiter.wish course }
        requires may_free { MayFree waiter.wish course self.old.cache.memory.charges }
        requires stones { 1 ≤ self.old.spare.stones }
        requires room { 6 ≤ self.old.notes }
        ensures does { Does (served_as waiter.call waiter.wish course standing self.old.cache) (costs 6 0 1 0) self.old self.new }
        ensures standing { result ≡ standing_as waiter.wish course standing }
    {
        let Waiter { call, wish } = waiter;
        match course {
            Course::Find(told, reply) => {
                drop(wish);
                self.answer(call, told, reply);
                standing
            }
            Course::Exists => match wish {
                Wish::Add(parked) => {
                    self.serve_exists(call, parked);
                    standing
                }
                Wish::Find => unreachable!(),
            },
            Course::Store(plan) => match wish {
                Wish::Add(parked) => {
                    self.serve_stored(call, key, &parked, standing, plan);
                    Some(parked.number())
                }
                Wish::Find => unreachable!(),
            },
        }
    }

    /// The calls that waited for the key are served, in order, each by its course. The items that adds store are linked, or
    /// their charges have ended for one that comes later; `standing` is the charge of the item that the key had before.
    pub fn serve_all(
        &mut self,
        key: &Key<A>,
        waiters: Vec<Waiter<A>, A>,
        courses: Vec<Course<A>, A>,
        standing: Option<u64>,
    )
        requires fit { AllFit (is_log self.old.log) key.now waiters.items courses.items }
        requires may_free { AllMayFree waiters.items courses.items self.old.cache.memory.charges }
        requires stones { length waiters.items ≤ self.old.spare.stones }
        requires room { 6 * length waiters.items ≤ self.old.notes }
        ensures does { Does (all_served_as waiters.items courses.items standing self.old.cache) (costs (6 * length waiters.items) 0 (length waiters.items) 0) self.old self.new }
        ensures machine { (there : Option FlashEntry) → AreCourses (is_log self.old.log) key.now self.old.cache.now waiters.items there courses.items → Does (all_served waiters.items there standing self.old.cache) (costs (6 * length waiters.items) 0 (length waiters.items) 0) self.old self.new }
    {
        let mut standing = standing;
        let mut courses = courses.into_iter();
        for waiter in waiters {
            let planned = courses.next();
            match planned {
                Some(course) => standing = self.serve(key, waiter, course, standing),
                None => unreachable!(),
            }
        }
    }
}

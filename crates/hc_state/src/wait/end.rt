// A key is inserted or removed: the calls that wait for it are served by what it has then, and what its fill brings is nobody's.
ghost use Rattle.std.specs.Prelude.{◌≡◌, ◌≤◌, ◌+◌, ◌*◌, ◌∷◌, [], option_map};
ghost use Rattle.hc_history.specs.Note.{Did, End};
ghost use Rattle.hc_history.specs.Seen.{reply_of};
ghost use Rattle.hc_machine.specs.Nvm.{Fill};
ghost use Rattle.hc_machine.specs.Cache.{tells};
ghost use Rattle.hc_machine.specs.Calls.{replies_then};
ghost use Rattle.hc_state.specs.wait.Commit.{without_calls};
ghost use Rattle.hc_state.specs.store.Commit.{fill_in, ended_as, how_many, CanServe};
ghost use Rattle.hc_state.specs.Whole.{Does, costs, for_notes};

use crate::state::State;
use crate::tells;
use crate::wait::commit::Course;
use hc_history::{Note, Notes, Reply};
use hc_types::Key;
use hc_waiting::Waiter;
use std::alloc::Allocator;

impl<N: Notes<Note<A>>, A: Allocator + Clone + Copy> State<N, A> {
    /// The calls that wait for the key wait no longer, where there are any.
    #[must_use]
    fn take_waiters(&mut self, key: &Key<A>) -> Option<Vec<Waiter<A>, A>>
        ensures waiters { option_map (λ waiters. waiters.items) result ≡ option_map (λ (fill : Fill). fill.waiters) (fill_in self.old.cache.nvm key.now) }
        ensures does { Does (tells [] (without_calls self.old.cache.nvm key.now self.old.cache)) (for_notes 0) self.old self.new }
    {
        match &mut self.nvm {
            Some(nvm) => nvm.end_fill(key),
            None => None,
        }
    }

    /// The calls that wait for the key are served, each by its course, and its fill is nobody's. `standing` is the charge of
    /// the item that the key has.
    pub(crate) fn end_waiting(
        &mut self,
        key: &Key<A>,
        courses: Vec<Course<A>, A>,
        standing: Option<u64>,
    )
        requires can { CanServe key.now courses.items self.old }
        requires stones { how_many key.now self.old ≤ self.old.spare.stones }
        requires room { 6 * how_many key.now self.old ≤ self.old.notes }
        ensures { Does (ended_as key.now courses.items standing self.old.cache) (costs (6 * how_many key.now self.old) 0 (how_many key.now self.old) 0) self.old self.new }
    {
        match self.take_waiters(key) {
            Some(waiters) => self.serve_all(key, waiters, courses, standing),
            None => drop(courses),
        }
    }

    /// Tells what a call is answered.
    fn tell_answered(&mut self, call: u64, reply: Reply<A>)
        requires room { 1 ≤ self.old.notes }
        ensures { Does (tells (Did call (reply_of reply) ∷ []) self.old.cache) (for_notes 1) self.old self.new }
    {
        tells::answered(&mut self.notes, call, reply);
    }

    /// Tells that a call's reply is handed out.
    fn tell_ended(&mut self, call: u64)
        requires room { 1 ≤ self.old.notes }
        ensures { Does (tells (End call ∷ []) self.old.cache) (for_notes 1) self.old self.new }
    {
        tells::ended(&mut self.notes, call);
    }

    /// The newest call is answered, the calls that wait for its key are served, each by its course, and its reply is handed
    /// out.
    pub(crate) fn reply_and_serve(
        &mut self,
        reply: Reply<A>,
        key: &Key<A>,
        courses: Vec<Course<A>, A>,
        standing: Option<u64>,
    )
        requires can { CanServe key.now courses.items self.old }
        requires stones { how_many key.now self.old ≤ self.old.spare.stones }
        requires room { 6 * how_many key.now self.old + 2 ≤ self.old.notes }
        ensures { Does (replies_then (reply_of reply) (ended_as key.now courses.items standing) self.old.cache) (costs (6 * how_many key.now self.old + 2) 0 (how_many key.now self.old) 0) self.old self.new }
    {
        let call = self.calls;
        self.tell_answered(call, reply);
        self.end_waiting(key, courses, standing);
        self.tell_ended(call);
    }
}

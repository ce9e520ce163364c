// A key's fill ends, and nothing is refused: flash tells what it told, what was brought is told where it was linked, and
// the calls that wait for the key are served.
ghost use Rattle.std.specs.Prelude.{◌≡◌, ℕ, ◌+◌, ◌≤◌, List, None, Some, length, option_map, IsSome};
ghost use Rattle.hc_flash.specs.Seen.{result_of};
ghost use Rattle.hc_machine.specs.Cache.{Took};
ghost use Rattle.hc_machine.specs.Takes.{Filled as Over};
ghost use Rattle.hc_machine.specs.Workers.{finish as finish_step};
ghost use Rattle.hc_nvm.specs.Filled.{filled_of};
ghost use Rattle.hc_nvm.specs.Seen.{take_of};
ghost use Rattle.hc_state.specs.fill.Commit.{EndsIn, EndsAtOnceIn, finish_in, filler_take_in, most_told_in, TookBy};
ghost use Rattle.hc_state.specs.fill.Plan.{taken_by, EndsBy, IsOverBy, CanEnd, IsBare, IsBrought, IsPrepared, step_by};
ghost use Rattle.hc_state.specs.Whole.{IsStep, Whole};

use crate::fill::bring::Arrived;
use crate::fill::plan::Prepared;
use crate::state::State;
use crate::wait::commit::Course;
use hc_flash::IoResult;
use hc_history::{Note, Notes};
use hc_nvm::{Ending, Filled, Take, Taken};
use hc_types::Key;
use hc_waiting::Waiter;
use std::alloc::Allocator;

/// How the get of a fill comes to be over.
#[derive(Drop)]
pub(crate) enum Way<A: Allocator> {
    /// With this result of the device operation for which the job with the number waits.
    Handed(u64, IoResult<A>),
    /// As its fill is taken.
    AtOnce,
}

/// The calls that waited for the fill that ended.
fn waiters_of<A: Allocator>(filled: Option<Filled<A>>) -> Vec<Waiter<A>, A>
    requires ended { IsSome filled }
    ensures { (over : Over) → option_map filled_of filled ≡ Some over → result.items ≡ over.waiters }
{
    match filled {
        Some(Filled { entry, waiters }) => {
            drop(entry);
            waiters
        }
        None => unreachable!(),
    }
}

impl<N: Notes<Note<A>>, A: Allocator + Clone + Copy> State<N, A> {
    /// The get of the job with this number is over with this result, as `ending` has it: flash tells what it told, and what
    /// it loses. The fill that ends is handed up.
    pub(crate) fn end_get(&mut self, number: u64, ending: Ending<A>, came: IoResult<A>) -> Taken<A>
        requires ends { EndsIn number (result_of came) self.old.cache.nvm ending }
        requires room { most_told_in ending.over.outcome.losses self.old.cache.nvm ≤ self.old.notes }
        ensures { TookBy (finish_in self.old.cache.nvm number (result_of came)) (most_told_in ending.over.outcome.losses self.old.cache.nvm) result self.old self.new }
    {
        match &mut self.nvm {
            Some(nvm) => nvm.end(number, ending, came, &mut self.notes, &mut self.pools),
            None => unreachable!(),
        }
    }

    /// The fill that is next is taken and over at once, as `ending` has it: the same.
    pub(crate) fn end_get_at_once(&mut self, ending: Ending<A>) -> Taken<A>
        requires ends { EndsAtOnceIn self.old.cache.nvm ending }
        requires room { most_told_in ending.over.outcome.losses self.old.cache.nvm ≤ self.old.notes }
        ensures { TookBy (filler_take_in self.old.cache.nvm) (most_told_in ending.over.outcome.losses self.old.cache.nvm) result self.old self.new }
    {
        match &mut self.nvm {
            Some(nvm) => nvm.end_at_once(ending, &mut self.notes, &mut self.pools),
            None => unreachable!(),
        }
    }

    /// The get is over that way, as `ending` has it.
    fn end_by(&mut self, way: Way<A>, ending: Ending<A>) -> Taken<A>
        requires ends { EndsBy way self.old.cache.nvm ending }
        requires room { most_told_in ending.over.outcome.losses self.old.cache.nvm ≤ self.old.notes }
        ensures { TookBy (taken_by way self.old.cache.nvm) (most_told_in ending.over.outcome.losses self.old.cache.nvm) result self.old self.new }
    {
        match way {
            Way::Handed(number, came) => self.end_get(number, ending, came),
            Way::AtOnce => self.end_get_at_once(ending),
        }
    }

    /// The fill of a key ends that way, as `ending` has it: flash tells what it told, and what it loses. Answers what the
    /// worker is answered, and the calls that waited for the key.
    pub(crate) fn end_fill(
        &mut self,
        way: Way<A>,
        ending: Ending<A>,
    ) -> (Take<A>, Vec<Waiter<A>, A>)
        requires ends { EndsBy way self.old.cache.nvm ending }
        requires of_key { IsSome ending.key }
        requires room { most_told_in ending.over.outcome.losses self.old.cache.nvm ≤ self.old.notes }
        ensures { (key : List ℕ) → ending.key ≡ Some key → IsOverBy (taken_by way self.old.cache.nvm) key ending result.0 result.1.items self.old self.new }
    {
        let taken = self.end_by(way, ending);
        let Taken { take, filled } = taken;
        (take, waiters_of(filled))
    }

    /// The get of an orphan is over with this result, as `ending` has it: nothing that it found is linked, and nobody is
    /// answered. Nothing is refused.
    pub(crate) fn finish_orphan(
        &mut self,
        number: u64,
        ending: Ending<A>,
        came: IoResult<A>,
    ) -> Take<A>
        requires ends { EndsIn number (result_of came) self.old.cache.nvm ending }
        requires orphan { ending.key ≡ None }
        requires room { length self.old.cache.memory.charges + 1 + most_told_in ending.over.outcome.losses self.old.cache.nvm ≤ self.old.notes }
        ensures { IsStep (finish_step number (result_of came) self.old.cache) (Took (take_of result)) self.old self.new }
    {
        let taken = self.end_get(number, ending, came);
        let Taken { take, filled } = taken;
        drop(filled);
        take
    }

    /// The key's fill ends that way, where nothing was linked of what was found: the calls that wait are served, each by its
    /// course.
    fn end_bare(
        &mut self,
        way: Way<A>,
        key: &Key<A>,
        ending: Ending<A>,
        courses: Vec<Course<A>, A>,
    ) -> Take<A>
        requires ready { (old : Whole) × CanEnd way key.now ending old × IsBare key.now ending courses.items old self.old }
        ensures { (old : Whole) → CanEnd way key.now ending old → IsBare key.now ending courses.items old self.old → IsStep (step_by way old.cache) (Took (take_of result)) old self.new }
    {
        let (take, waiters) = self.end_fill(way, ending);
        self.serve_all(key, waiters, courses, None);
        take
    }

    /// The key's fill ends that way, where this item was linked of what was found: it is told, and the calls that wait are
    /// served, each by its course.
    fn end_item(
        &mut self,
        way: Way<A>,
        key: &Key<A>,
        ending: Ending<A>,
        arrived: Arrived<A>,
        courses: Vec<Course<A>, A>,
    ) -> Take<A>
        requires ready { (old : Whole) × CanEnd way key.now ending old × IsBrought key.now ending arrived courses.items old self.old }
        ensures { (old : Whole) → CanEnd way key.now ending old → IsBrought key.now ending arrived courses.items old self.old → IsStep (step_by way old.cache) (Took (take_of result)) old self.new }
    {
        let (take, waiters) = self.end_fill(way, ending);
        self.end_brought(arrived, key, waiters, courses);
        take
    }

    /// The key's fill ends that way, with what was made ready for it.
    pub(crate) fn end_prepared(
        &mut self,
        way: Way<A>,
        key: &Key<A>,
        ending: Ending<A>,
        plan: Prepared<A>,
    ) -> Take<A>
        requires ready { (old : Whole) × CanEnd way key.now ending old × IsPrepared key.now ending plan old self.old }
        ensures { (old : Whole) → CanEnd way key.now ending old → IsPrepared key.now ending plan old self.old → IsStep (step_by way old.cache) (Took (take_of result)) old self.new }
    {
        match plan {
            Prepared::Bare(courses) => self.end_bare(way, key, ending, courses),
            Prepared::Item(arrived, courses) => {
                self.end_item(way, key, ending, arrived, courses)
            }
        }
    }
}

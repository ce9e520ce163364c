// Results of device operations are handed in.
ghost use Rattle.std.specs.Prelude.{◌≡◌, ◌+◌, ◌≤◌, None, Some, length, IfOk, IfSome, OnErr, IfErr};
ghost use Rattle.hc_flash.specs.Seen.{result_of};
ghost use Rattle.hc_machine.specs.Cache.{Took};
ghost use Rattle.hc_machine.specs.Workers.{finish as finish_step};
ghost use Rattle.hc_invariant.specs.Structure.{Structured};
ghost use Rattle.hc_nvm.specs.Seen.{take_of};
ghost use Rattle.hc_state.specs.Answers.{IsReason};
ghost use Rattle.hc_state.specs.fill.Plan.{IsEndingIn};
ghost use Rattle.hc_state.specs.fill.Commit.{EndsIn, most_told_in};
ghost use Rattle.hc_state.specs.Whole.{IsReady, IsStep, Stays};

use crate::fill::commit::Way;
use crate::state::State;
use hc_flash::IoResult;
use hc_history::{Note, Notes};
use hc_nvm::{Ending, Take, Taken, Unfinished};
use hc_types::{Key, Refusal};
use std::alloc::{AllocError, Allocator};

/// A copy of the key of the fill that ends. None of an orphan.
fn key_of<A: Allocator>(ending: &Ending<A>) -> Result<Option<Key<A>>, AllocError>
    ensures { IfOk result (λ key. key ≡ ending.now.key) }
{
    match ending.key() {
        Some(key) => {
            let copy = key.clone()?;
            Ok(Some(copy))
        }
        None => Ok(None),
    }
}

/// What a worker is answered, where no fill ended.
pub(crate) fn take_of_other<A: Allocator>(taken: Taken<A>) -> Take<A>
    ensures { result ≡ taken.take }
{
    let Taken { take, filled } = taken;
    drop(filled);
    take
}

impl<N: Notes<Note<A>>, A: Allocator + Clone + Copy> State<N, A> {
    /// How the get of the job with this number is over with this result. Nothing where none is: then no fill ends with it.
    /// There is room for what its end tells, and for giving up what is open then. Refused with `UnknownJob` where no job waits
    /// for such a result, and with `NoMemory`.
    fn ending_with(&mut self, number: u64, came: &IoResult<A>) -> Result<Option<Ending<A>>, Refusal>
        ensures stays { Stays self.old self.new }
        ensures ok { IfOk result (λ ending. IsEndingIn number (result_of came.now) self.old.cache.nvm ending) }
        ensures why { IfErr result (λ refusal. IsReason (finish_step number (result_of came.now) self.old.cache).answer refusal) }
        ensures room { IfOk result (λ ending. IfSome ending (λ e. length self.old.cache.memory.charges + 1 + most_told_in e.over.outcome.losses self.old.cache.nvm ≤ self.new.notes)) }
    {
        let spare = self.pools.open_charges();
        match &self.nvm {
            Some(nvm) => nvm.ending(number, came, &mut self.notes, spare),
            None => Err(Refusal::UnknownJob),
        }
    }

    /// A result with which no fill ends is handed in.
    fn finish_other(&mut self, number: u64, came: IoResult<A>) -> Result<Take<A>, Unfinished<A>>
        requires none { IsEndingIn number (result_of came) self.old.cache.nvm None }
        ensures ok { IfOk result (λ take. IsStep (finish_step number (result_of came) self.old.cache) (Took (take_of take)) self.old self.new) }
        ensures err { OnErr result (Stays self.old self.new) }
        ensures why { IfErr result (λ e. IsReason (finish_step number (result_of came) self.old.cache).answer e.refusal) }
        ensures came_returned { IfErr result (λ e. e.came ≡ came) }
    {
        let spare = self.pools.open_charges();
        let Some(nvm) = &mut self.nvm else {
            unreachable!();
        };
        let taken = match nvm.finish(number, came, &mut self.notes, &mut self.pools, spare) {
            Ok(taken) => taken,
            Err(unfinished) => return Err(unfinished),
        };
        Ok(take_of_other(taken))
    }

    /// A result is handed in with which the fill of this key ends.
    fn finish_key(
        &mut self,
        key: &Key<A>,
        number: u64,
        ending: Ending<A>,
        came: IoResult<A>,
    ) -> Result<Take<A>, Unfinished<A>>
        requires structured { Structured self.old.cache }
        requires ends { EndsIn number (result_of came) self.old.cache.nvm ending }
        requires key { ending.key ≡ Some key.now }
        ensures ok { IfOk result (λ take. IsStep (finish_step number (result_of came) self.old.cache) (Took (take_of take)) self.old self.new) }
        ensures err { OnErr result (Stays self.old self.new) }
        ensures why { IfErr result (λ e. IsReason (finish_step number (result_of came) self.old.cache).answer e.refusal) }
        ensures came_returned { IfErr result (λ e. e.came ≡ came) }
    {
        self.is_sound();
        match self.prepare(key, &ending) {
            Ok(plan) => Ok(self.end_prepared(Way::Handed(number, came), key, ending, plan)),
            Err(_) => {
                drop(ending);
                Err(Unfinished {
                    refusal: Refusal::NoMemory,
                    came,
                })
            }
        }
    }

    /// A result is handed in with which a get of a fill or of an orphan is over.
    fn finish_get(
        &mut self,
        number: u64,
        ending: Ending<A>,
        came: IoResult<A>,
    ) -> Result<Take<A>, Unfinished<A>>
        requires structured { Structured self.old.cache }
        requires ends { EndsIn number (result_of came) self.old.cache.nvm ending }
        requires room { length self.old.cache.memory.charges + 1 + most_told_in ending.over.outcome.losses self.old.cache.nvm ≤ self.old.notes }
        ensures ok { IfOk result (λ take. IsStep (finish_step number (result_of came) self.old.cache) (Took (take_of take)) self.old self.new) }
        ensures err { OnErr result (Stays self.old self.new) }
        ensures why { IfErr result (λ e. IsReason (finish_step number (result_of came) self.old.cache).answer e.refusal) }
        ensures came_returned { IfErr result (λ e. e.came ≡ came) }
    {
        match key_of(&ending) {
            Ok(Some(key)) => self.finish_key(&key, number, ending, came),
            Ok(None) => Ok(self.finish_orphan(number, ending, came)),
            Err(_) => {
                drop(ending);
                Err(Unfinished {
                    refusal: Refusal::NoMemory,
                    came,
                })
            }
        }
    }

    /// Hands in what came of the device operation that the job with this number waits for: the job goes on with the next
    /// one, for which it waits, or is over. With a fill that ends, what it brought is linked, where its pool can make room,
    /// and the calls that wait for its key are answered. Refused with `UnknownJob` where no job waits for such a result, and
    /// with `NoMemory`; then the result is given back.
    pub fn finish(&mut self, number: u64, came: IoResult<A>) -> Result<Take<A>, Unfinished<A>>
        requires structured { Structured self.old.cache }
        requires ready { IsReady self.old }
        ensures ok { IfOk result (λ take. IsStep (finish_step number (result_of came) self.old.cache) (Took (take_of take)) self.old self.new) }
        ensures err { OnErr result (Stays self.old self.new) }
        ensures why { IfErr result (λ e. IsReason (finish_step number (result_of came) self.old.cache).answer e.refusal) }
        ensures came_returned { IfErr result (λ e. e.came ≡ came) }
    {
        match self.ending_with(number, &came) {
            Ok(Some(ending)) => self.finish_get(number, ending, came),
            Ok(None) => self.finish_other(number, came),
            Err(refusal) => Err(Unfinished { refusal, came }),
        }
    }
}

// The filler takes a fill: it goes on with a page, or ends at once.
ghost use Rattle.std.specs.Prelude.{◌≡◌, ◌≤◌, Some, None, IfOk, OnErr, IfErr};
ghost use Rattle.hc_machine.specs.Cache.{Took};
ghost use Rattle.hc_machine.specs.Workers.{filler_take as filler_step};
ghost use Rattle.hc_invariant.specs.Structure.{Structured};
ghost use Rattle.hc_nvm.specs.Seen.{take_of};
ghost use Rattle.hc_state.specs.fill.Plan.{IsEndingAtOnceIn, IsNextIn};
ghost use Rattle.hc_state.specs.Whole.{IsReady, IsStep, Stays, nvm_of, spare_of};

use crate::fill::commit::Way;
use crate::fill::finish::take_of_other;
use crate::state::State;
use hc_history::{Note, Notes};
use hc_nvm::{Ending, Nvm, Take};
use hc_types::{Key, Refusal};
use std::alloc::{AllocError, Allocator};

/// The key of the fill that can be taken next, where there is flash.
fn next_fill_in<A: Allocator + Clone + Copy>(
    nvm: &mut Option<Nvm<A>>,
) -> Result<Option<Key<A>>, AllocError>
    ensures same { nvm_of nvm.new ≡ nvm_of nvm.old }
    ensures ok { IfOk result (λ key. IsNextIn (nvm_of nvm.old) key) }
    ensures more_puts { (spare_of nvm.old).puts ≤ (spare_of nvm.new).puts }
    ensures more_stones { (spare_of nvm.old).stones ≤ (spare_of nvm.new).stones }
    ensures more_fills { (spare_of nvm.old).fills ≤ (spare_of nvm.new).fills }
{
    match nvm {
        Some(nvm) => nvm.next_fill(),
        None => Ok(None),
    }
}

impl<N: Notes<Note<A>>, A: Allocator + Clone + Copy> State<N, A> {
    /// The key of the fill that can be taken next.
    fn next_fill(&mut self) -> Result<Option<Key<A>>, AllocError>
        ensures stays { Stays self.old self.new }
        ensures ok { IfOk result (λ key. IsNextIn self.old.cache.nvm key) }
    {
        next_fill_in(&mut self.nvm)
    }

    /// How the fill of this key, which is next, is over if it is taken now. Nothing where it isn't: then no fill ends.
    fn ending_at_once(&mut self, key: &Key<A>) -> Result<Option<Ending<A>>, AllocError>
        requires next { IsNextIn self.old.cache.nvm (Some key.now) }
        ensures stays { Stays self.old self.new }
        ensures ok { IfOk result (λ ending. IsEndingAtOnceIn self.old.cache.nvm ending) }
    {
        let spare = self.pools.open_charges();
        match &self.nvm {
            Some(nvm) => nvm.ending_at_once(key, &mut self.notes, spare),
            None => unreachable!(),
        }
    }

    /// The fill of this key, which is next, is taken, and is over at once.
    fn take_at_once(&mut self, key: &Key<A>, ending: Ending<A>) -> Result<Take<A>, AllocError>
        requires structured { Structured self.old.cache }
        requires next { IsNextIn self.old.cache.nvm (Some key.now) }
        requires ends { IsEndingAtOnceIn self.old.cache.nvm (Some ending) }
        ensures ok { IfOk result (λ take. IsStep (filler_step self.old.cache) (Took (take_of take)) self.old self.new) }
        ensures err { OnErr result (Stays self.old self.new) }
    {
        self.is_sound();
        match self.prepare(key, &ending) {
            Ok(plan) => Ok(self.end_prepared(Way::AtOnce, key, ending, plan)),
            Err(no_memory) => {
                drop(ending);
                Err(no_memory)
            }
        }
    }

    /// The fill of this key, which is next, is taken, and goes on with a page.
    fn take_page(&mut self, key: &Key<A>) -> Result<Take<A>, AllocError>
        requires next { IsNextIn self.old.cache.nvm (Some key.now) }
        requires none { IsEndingAtOnceIn self.old.cache.nvm None }
        ensures ok { IfOk result (λ take. IsStep (filler_step self.old.cache) (Took (take_of take)) self.old self.new) }
        ensures err { OnErr result (Stays self.old self.new) }
    {
        let spare = self.pools.open_charges();
        let Some(nvm) = &mut self.nvm else {
            unreachable!();
        };
        let taken = nvm.filler_take(key, &mut self.notes, &mut self.pools, spare)?;
        Ok(take_of_other(taken))
    }

    /// The fill of this key is taken, which is next.
    fn take_fill(&mut self, key: &Key<A>) -> Result<Take<A>, AllocError>
        requires structured { Structured self.old.cache }
        requires next { IsNextIn self.old.cache.nvm (Some key.now) }
        ensures ok { IfOk result (λ take. IsStep (filler_step self.old.cache) (Took (take_of take)) self.old self.new) }
        ensures err { OnErr result (Stays self.old self.new) }
    {
        match self.ending_at_once(key) {
            Ok(Some(ending)) => self.take_at_once(key, ending),
            Ok(None) => self.take_page(key),
            Err(no_memory) => Err(no_memory),
        }
    }

    /// The filler takes the key for which calls have waited longest of those that can be brought: its job waits for a device
    /// operation. Where none is needed, the fill ends at once, as one does with a result that is handed in (`finish`). Refused
    /// with `NoMemory`.
    pub fn filler_take(&mut self) -> Result<Take<A>, Refusal>
        requires structured { Structured self.old.cache }
        requires ready { IsReady self.old }
        ensures ok { IfOk result (λ take. IsStep (filler_step self.old.cache) (Took (take_of take)) self.old self.new) }
        ensures err { OnErr result (Stays self.old self.new) }
        ensures memory { IfErr result (λ refusal. refusal ≡ Refusal.NoMemory) }
    {
        match self.next_fill() {
            Ok(Some(key)) => {
                let take = self.take_fill(&key)?;
                Ok(take)
            }
            Ok(None) => Ok(Take::Idle),
            Err(_) => Err(Refusal::NoMemory),
        }
    }
}

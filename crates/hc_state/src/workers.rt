// The calls of workers that end no fill: whether there is work, what the writer takes, and regions are reclaimed.
ghost use Rattle.std.specs.Prelude.{◌≡◌, ◌≤◌, Some, None, IfOk, OnErr, IfErr};
ghost use Rattle.hc_machine.specs.Cache.{Took, Reclaimed};
ghost use Rattle.hc_machine.specs.Workers.{writer_take as writer_step, filler_take as filler_step, reclaim as reclaim_step};
ghost use Rattle.hc_nvm.specs.Seen.{take_of};
ghost use Rattle.hc_state.specs.Answers.{is_work};
ghost use Rattle.hc_state.specs.Workers.{HasWriterWork, HasFillerWork};
ghost use Rattle.hc_state.specs.Whole.{IsReady, IsStep, Stays, nvm_of, spare_of};

use crate::state::State;
use hc_history::{Note, Notes};
use hc_nvm::{Nvm, Take};
use hc_types::Refusal;
use std::alloc::{AllocError, Allocator};

/// Whether the writer finds something to do, where there is flash.
fn writer_has_work_in<A: Allocator + Clone + Copy>(
    nvm: &mut Option<Nvm<A>>,
) -> Result<bool, AllocError>
    ensures same { nvm_of nvm.new ≡ nvm_of nvm.old }
    ensures ok { IfOk result (λ has. HasWriterWork (nvm_of nvm.old) has) }
    ensures more_puts { (spare_of nvm.old).puts ≤ (spare_of nvm.new).puts }
    ensures more_stones { (spare_of nvm.old).stones ≤ (spare_of nvm.new).stones }
    ensures more_fills { (spare_of nvm.old).fills ≤ (spare_of nvm.new).fills }
{
    match nvm {
        Some(nvm) => nvm.writer_has_work(),
        None => Ok(false),
    }
}

/// The same of the filler.
fn filler_has_work_in<A: Allocator + Clone + Copy>(
    nvm: &mut Option<Nvm<A>>,
) -> Result<bool, AllocError>
    ensures same { nvm_of nvm.new ≡ nvm_of nvm.old }
    ensures ok { IfOk result (λ has. HasFillerWork (nvm_of nvm.old) has) }
    ensures more_puts { (spare_of nvm.old).puts ≤ (spare_of nvm.new).puts }
    ensures more_stones { (spare_of nvm.old).stones ≤ (spare_of nvm.new).stones }
    ensures more_fills { (spare_of nvm.old).fills ≤ (spare_of nvm.new).fills }
{
    match nvm {
        Some(nvm) => nvm.filler_has_work(),
        None => Ok(false),
    }
}

impl<N: Notes<Note<A>>, A: Allocator + Clone + Copy> State<N, A> {
    /// Whether the writer finds something to do, if it takes now. Nothing changes. Refused with `NoMemory`.
    pub fn writer_has_work(&mut self) -> Result<bool, Refusal>
        ensures ok { IfOk result (λ has. has ≡ is_work (writer_step self.old.cache).answer) }
        ensures stays { Stays self.old self.new }
        ensures memory { IfErr result (λ refusal. refusal ≡ Refusal.NoMemory) }
    {
        let has = writer_has_work_in(&mut self.nvm)?;
        Ok(has)
    }

    /// Whether the filler finds something to do, if it takes now. Nothing changes. Refused with `NoMemory`.
    pub fn filler_has_work(&mut self) -> Result<bool, Refusal>
        ensures ok { IfOk result (λ has. has ≡ is_work (filler_step self.old.cache).answer) }
        ensures stays { Stays self.old self.new }
        ensures memory { IfErr result (λ refusal. refusal ≡ Refusal.NoMemory) }
    {
        let has = filler_has_work_in(&mut self.nvm)?;
        Ok(has)
    }

    /// The writer takes what is next: a region's page, or else a delete, or else a put. Where that goes on with a page, the
    /// job waits for that device operation. Refused with `NoMemory`.
    pub fn writer_take(&mut self) -> Result<Take<A>, Refusal>
        requires ready { IsReady self.old }
        ensures ok { IfOk result (λ take. IsStep (writer_step self.old.cache) (Took (take_of take)) self.old self.new) }
        ensures err { OnErr result (Stays self.old self.new) }
        ensures memory { IfErr result (λ refusal. refusal ≡ Refusal.NoMemory) }
    {
        let spare = self.pools.open_charges();
        let Some(nvm) = &mut self.nvm else {
            return Ok(Take::Idle);
        };
        let take = nvm.writer_take(&mut self.notes, &mut self.pools, spare)?;
        Ok(take)
    }

    /// Gives up the region that was written first, where fewer regions are clean than are wanted: its entries are forgotten.
    /// Answers its number. Refused with `NoMemory`.
    pub fn reclaim(&mut self) -> Result<Option<u32>, Refusal>
        requires ready { IsReady self.old }
        ensures ok { IfOk result (λ region. IsStep (reclaim_step self.old.cache) (Reclaimed region) self.old self.new) }
        ensures err { OnErr result (Stays self.old self.new) }
        ensures memory { IfErr result (λ refusal. refusal ≡ Refusal.NoMemory) }
    {
        let spare = self.pools.open_charges();
        let Some(nvm) = &mut self.nvm else {
            return Ok(None);
        };
        let region = nvm.reclaim(&mut self.notes, &mut self.pools, spare)?;
        Ok(region)
    }
}

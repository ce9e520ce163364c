// What came of a device operation is handed in.
ghost use Rattle.std.specs.Prelude.{◌≡◌, ◌⊎◌, option_map, Some, None, IfOk, IfErr, OnErr, IsSome};
ghost use Rattle.hc_types.specs.declared.refusal.Refusal.TheVariants.{UnknownJob, NoMemory};
ghost use Rattle.hc_flash.specs.Seen.{result_of};
ghost use Rattle.hc_engines.specs.Next.{next_seen};
ghost use Rattle.hc_block.specs.Moves.{stepped, moved_with, resume_by};
ghost use Rattle.hc_block.specs.Turns.{IsTurnOf};
ghost use Rattle.hc_block.specs.declared.turns.Turn.TheVariants.{PageRead};

use crate::block_cache::BlockCache;
use crate::steps::Step;
use crate::turns::{Turn, turn_of};
use hc_engines::{Next, Unresumed};
use hc_flash::IoResult;
use hc_types::Refusal;
use std::alloc::Allocator;

impl<A: Allocator + Clone + Copy> BlockCache<A> {
    /// What this result means for the operation with this number.
    pub(crate) fn turn(&self, number: u64, came: &IoResult<A>) -> Turn
        ensures { IsTurnOf self.now.flash number self.now.block (result_of came.now) result }
    {
        match self.jobs.get(number) {
            Some(work) => turn_of(work, came),
            None => Turn::Unknown,
        }
    }

    /// The page of a read is handed in.
    fn hand_page(&mut self, number: u64, came: &IoResult<A>) -> Result<Step<A>, Refusal>
        requires { IsTurnOf self.old.flash number self.old.block (result_of came.now) PageRead }
        ensures ok { IfOk result (λ step. resume_by self.old.flash number (result_of came.now) self.old.block ≡ Some (moved_with self.new.block step)) }
        ensures flash { self.new.flash ≡ self.old.flash }
        ensures err { IfErr result (λ refusal. (refusal ≡ NoMemory) × (self.new ≡ self.old)) }
    {
        let IoResult::Page(page) = came else {
            unreachable!()
        };
        match self.page_read(number, page) {
            Ok(step) => Ok(step),
            Err(_) => Err(Refusal::NoMemory),
        }
    }

    /// A result is handed in for the operation with this number.
    fn step_on(&mut self, number: u64, came: &IoResult<A>) -> Result<Step<A>, Refusal>
        ensures ok { IfOk result (λ step. resume_by self.old.flash number (result_of came.now) self.old.block ≡ Some (moved_with self.new.block step)) }
        ensures flash { self.new.flash ≡ self.old.flash }
        ensures err { OnErr result (self.new ≡ self.old) }
        ensures unknown { IfErr result (λ refusal. refusal ≡ UnknownJob → resume_by self.old.flash number (result_of came.now) self.old.block ≡ None) }
        ensures awaited { IfErr result (λ refusal. refusal ≡ NoMemory → IsSome (resume_by self.old.flash number (result_of came.now) self.old.block)) }
        ensures others { IfErr result (λ refusal. (refusal ≡ UnknownJob) ⊎ (refusal ≡ NoMemory)) }
    {
        match self.turn(number, came) {
            Turn::Unknown => Err(Refusal::UnknownJob),
            Turn::Written(r) => match self.page_written(number, r) {
                Ok(step) => Ok(step),
                Err(_) => Err(Refusal::NoMemory),
            },
            Turn::WriteFailed(r) => match self.write_failed(number, r) {
                Ok(outcome) => Ok(Step::Done(outcome)),
                Err(_) => Err(Refusal::NoMemory),
            },
            Turn::ReadFailed => match self.read_failed(number) {
                Ok(outcome) => Ok(Step::Done(outcome)),
                Err(_) => Err(Refusal::NoMemory),
            },
            Turn::PageRead => self.hand_page(number, came),
        }
    }

    /// Hands in what came of the device operation that the operation with this number waits for, a result that the caller
    /// keeps. Refused with `UnknownJob` where there is no such operation, or it waits for something else, and else only
    /// when out of memory; then nothing changed.
    pub fn hand_in(&mut self, number: u64, came: &IoResult<A>) -> Result<Next<A>, Refusal>
        ensures ok { IfOk result (λ next. option_map stepped (resume_by self.old.flash number (result_of came.now) self.old.block) ≡ Some (record { state = self.new.block; next = next_seen next })) }
        ensures flash { self.new.flash ≡ self.old.flash }
        ensures err { OnErr result (self.new ≡ self.old) }
        ensures unknown { IfErr result (λ refusal. refusal ≡ UnknownJob → resume_by self.old.flash number (result_of came.now) self.old.block ≡ None) }
        ensures awaited { IfErr result (λ refusal. refusal ≡ NoMemory → IsSome (resume_by self.old.flash number (result_of came.now) self.old.block)) }
        ensures others { IfErr result (λ refusal. (refusal ≡ UnknownJob) ⊎ (refusal ≡ NoMemory)) }
    {
        let alloc = self.allocator();
        match self.step_on(number, came) {
            Ok(step) => Ok(step.next(alloc)),
            Err(refusal) => Err(refusal),
        }
    }

    /// The same, of a result that is given back where it is refused.
    pub fn resume(&mut self, number: u64, came: IoResult<A>) -> Result<Next<A>, Unresumed<A>>
        ensures ok { IfOk result (λ next. option_map stepped (resume_by self.old.flash number (result_of came) self.old.block) ≡ Some (record { state = self.new.block; next = next_seen next })) }
        ensures flash { self.new.flash ≡ self.old.flash }
        ensures err { OnErr result (self.new ≡ self.old) }
        ensures given_back { IfErr result (λ refused. result_of refused.came ≡ result_of came) }
        ensures unknown { IfErr result (λ refused. refused.refusal ≡ UnknownJob → resume_by self.old.flash number (result_of came) self.old.block ≡ None) }
        ensures awaited { IfErr result (λ refused. refused.refusal ≡ NoMemory → IsSome (resume_by self.old.flash number (result_of came) self.old.block)) }
        ensures others { IfErr result (λ refused. (refused.refusal ≡ UnknownJob) ⊎ (refused.refusal ≡ NoMemory)) }
    {
        match self.hand_in(number, &came) {
            Ok(next) => Ok(next),
            Err(refusal) => Err(Unresumed { refusal, came }),
        }
    }
}

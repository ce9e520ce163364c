// What came of a device operation is handed in.
ghost use Rattle.std.specs.Prelude.{◌≡◌, ◌≤◌, ◌⊎◌, ℕ, List, length, Some, None, true, IfOk, IfErr, OnErr, IsSome};
ghost use Rattle.hc_types.specs.declared.refusal.Refusal.TheVariants.{UnknownJob, NoMemory};
ghost use Rattle.hc_engines.specs.Engine.{Op, Get};
ghost use Rattle.hc_engines.specs.small.BigHash.{carried, resume as resume_in_small};
ghost use Rattle.hc_engines.specs.large.Laws.{IsFree};
ghost use Rattle.hc_engines.specs.large.Steps.{get};
ghost use Rattle.hc_engines.specs.pair.Pair.{resume as resume_step};
ghost use Rattle.hc_bighash.specs.Handed.{absent_plan, IsGet, op_in};
ghost use Rattle.hc_flash.specs.Seen.{result_of};
ghost use Rattle.hc_engines.specs.Next.{next_seen};
ghost use Rattle.hc_block.specs.Moves.{stepped};
ghost use Rattle.hc_pair.specs.Joined.{losses_of};

use crate::joining::behind;
use crate::pair::Pair;
use hc_bighash::{BigHash, Handed};
use hc_block::BlockCache;
use hc_engines::{Next, Unresumed};
use hc_flash::IoResult;
use hc_types::Refusal;
use std::alloc::{AllocError, Allocator};

impl<A: Allocator + Clone + Copy> Pair<A> {
    /// Hands in what came of the device operation that the operation with this number waits for. Refused with `UnknownJob`
    /// where there is no such operation or it waits for something else, and with `NoMemory` when out of memory; then nothing
    /// changed, and the result is given back.
    pub fn resume(&mut self, number: u64, came: IoResult<A>) -> Result<Next<A>, Unresumed<A>>
        ensures ok { IfOk result (λ next. resume_step number (result_of came) self.old ≡ Some (record { pair = self.new; next = next_seen next })) }
        ensures err { OnErr result (self.new ≡ self.old) }
        ensures given_back { IfErr result (λ refused. refused.came ≡ came) }
        ensures unknown { IfErr result (λ refused. refused.refusal ≡ UnknownJob → resume_step number (result_of came) self.old ≡ None) }
        ensures awaited { IfErr result (λ refused. refused.refusal ≡ NoMemory → IsSome (resume_step number (result_of came) self.old)) }
        ensures others { IfErr result (λ refused. (refused.refusal ≡ UnknownJob) ⊎ (refused.refusal ≡ NoMemory)) }
    {
        match self.hand_in(number, &came) {
            Ok(next) => Ok(next),
            Err(refusal) => Err(Unresumed { refusal, came }),
        }
    }

    /// The same, of a result that the caller keeps.
    pub fn hand_in(&mut self, number: u64, came: &IoResult<A>) -> Result<Next<A>, Refusal>
        ensures ok { IfOk result (λ next. resume_step number (result_of came.now) self.old ≡ Some (record { pair = self.new; next = next_seen next })) }
        ensures err { OnErr result (self.new ≡ self.old) }
        ensures unknown { IfErr result (λ refusal. refusal ≡ UnknownJob → resume_step number (result_of came.now) self.old ≡ None) }
        ensures awaited { IfErr result (λ refusal. refusal ≡ NoMemory → IsSome (resume_step number (result_of came.now) self.old)) }
        ensures others { IfErr result (λ refusal. (refusal ≡ UnknownJob) ⊎ (refusal ≡ NoMemory)) }
    {
        match self.small.op(number) {
            None => self.resume_large(number, came),
            Some(_) => self.resume_small(number, came),
        }
    }

    /// It is handed in for an operation that isn't the small engine's.
    fn resume_large(&mut self, number: u64, came: &IoResult<A>) -> Result<Next<A>, Refusal>
        requires { op_in number self.old.small.jobs ≡ None }
        ensures ok { IfOk result (λ next. resume_step number (result_of came.now) self.old ≡ Some (record { pair = self.new; next = next_seen next })) }
        ensures err { OnErr result (self.new ≡ self.old) }
        ensures unknown { IfErr result (λ refusal. refusal ≡ UnknownJob → resume_step number (result_of came.now) self.old ≡ None) }
        ensures awaited { IfErr result (λ refusal. refusal ≡ NoMemory → IsSome (resume_step number (result_of came.now) self.old)) }
        ensures others { IfErr result (λ refusal. (refusal ≡ UnknownJob) ⊎ (refusal ≡ NoMemory)) }
    {
        self.large.is_sound();
        let next = self.large.hand_in(number, came)?;
        Ok(next)
    }

    /// It is handed in for an operation of the small engine.
    fn resume_small(&mut self, number: u64, came: &IoResult<A>) -> Result<Next<A>, Refusal>
        requires { (op : Op) × (op_in number self.old.small.jobs ≡ Some op) }
        ensures ok { IfOk result (λ next. resume_step number (result_of came.now) self.old ≡ Some (record { pair = self.new; next = next_seen next })) }
        ensures err { OnErr result (self.new ≡ self.old) }
        ensures unknown { IfErr result (λ refusal. refusal ≡ UnknownJob → resume_step number (result_of came.now) self.old ≡ None) }
        ensures awaited { IfErr result (λ refusal. refusal ≡ NoMemory → IsSome (resume_step number (result_of came.now) self.old)) }
        ensures others { IfErr result (λ refusal. (refusal ≡ UnknownJob) ⊎ (refusal ≡ NoMemory)) }
    {
        self.large.is_sound();
        match self.small.hand_in(number, came) {
            Ok(Handed::Next(next)) => Ok(next),
            Ok(Handed::Absent { gives_up }) => match self.go_on(number, came, gives_up) {
                Ok(next) => Ok(next),
                Err(_) => Err(Refusal::NoMemory),
            },
            Err(refusal) => Err(refusal),
        }
    }

    /// A get of which the small engine has nothing goes on with the large one.
    fn go_on(
        &mut self,
        number: u64,
        came: &IoResult<A>,
        gives_up: bool,
    ) -> Result<Next<A>, AllocError>
        requires gets { IsGet self.old.small number }
        requires came { resume_in_small self.old.small number (result_of came.now) ≡ carried self.old.small number (absent_plan gives_up) }
        ensures ok { IfOk result (λ next. resume_step number (result_of came.now) self.old ≡ Some (record { pair = self.new; next = next_seen next })) }
        ensures err { OnErr result (self.new ≡ self.old) }
    {
        if gives_up {
            self.lose_and_go_on(number, came)
        } else {
            self.large.is_sound();
            let next = get_in_large(&self.small, &mut self.large, number)?;
            self.small.leave(number, false);
            Ok(next)
        }
    }

    /// The same of one that lost its bucket, which is told in front of what the large engine loses.
    fn lose_and_go_on(&mut self, number: u64, came: &IoResult<A>) -> Result<Next<A>, AllocError>
        requires gets { IsGet self.old.small number }
        requires came { resume_in_small self.old.small number (result_of came.now) ≡ carried self.old.small number (absent_plan true) }
        ensures ok { IfOk result (λ next. resume_step number (result_of came.now) self.old ≡ Some (record { pair = self.new; next = next_seen next })) }
        ensures err { OnErr result (self.new ≡ self.old) }
    {
        let _came = came;
        self.large.is_sound();
        let mut losses = self.small.lost_with(number, true)?;
        losses.reserve(1)?;
        let next = get_in_large(&self.small, &mut self.large, number)?;
        self.small.leave(number, true);
        Ok(behind(losses, next))
    }
}

/// The get with this number that is under way in the small engine begins in the large one.
fn get_in_large<A: Allocator + Clone + Copy>(
    small: &BigHash<A>,
    large: &mut BlockCache<A>,
    number: u64,
) -> Result<Next<A>, AllocError>
    requires gets { IsGet small.now number }
    requires free { IsFree number large.old.block }
    ensures ok { IfOk result (λ next. (key : List ℕ) → op_in number small.now.jobs ≡ Some (Get key) → stepped (get large.old.flash number key large.old.block) ≡ record { state = large.new.block; next = next_seen next }) }
    ensures flash { large.new.flash ≡ large.old.flash }
    ensures one { IfOk result (λ next. length (losses_of (next_seen next)) ≤ 1) }
    ensures err { OnErr result (large.new ≡ large.old) }
{
    match small.op(number) {
        Some(op) => large.start(number, op),
        None => unreachable!(),
    }
}

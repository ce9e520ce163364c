// How a get is over with a result, asked before anything changes.
ghost use Rattle.std.specs.Prelude.{◌≡◌, ◌<◌, IfOk, Option, Some, None, length};
ghost use Rattle.hc_engines.specs.small.BigHash.{Phase as PhaseSeen, Plan as PlanSeen, place_of, resume as resume_step};
ghost use Rattle.hc_bighash.specs.Endings.{IsEnding, IsPlanned};
ghost use Rattle.hc_flash.specs.Seen.{result_of};
ghost use Rattle.hc_bighash.specs.Steps.{plan_of, IsTurn};

use crate::big_hash::BigHash;
use crate::jobs::place;
use crate::plans::Plan;
use crate::turns::{Turn, turn_of};
use hc_engines::Answer;
use hc_flash::IoResult;
use hc_types::Entry;
use std::alloc::{AllocError, Allocator, Global};

/// What a get comes to that is over. Nothing changed yet: the get is over with `leave`.
#[derive(Debug, Drop)]
#[must_use]
pub enum Ending<A: Allocator = Global> {
    /// It found this, and its bucket stays as it is.
    Found(Box<Entry<A>, A>),
    /// It found nothing, and its bucket is given up or stays.
    Absent { gives_up: bool },
}

/// How a get is over by this plan; nothing where it goes on.
fn ending_by<A: Allocator>(plan: Plan<A>) -> Option<Ending<A>>
    ensures { IsPlanned (Some (plan_of plan)) result }
{
    match plan {
        Plan::End(Answer::Found(entry)) => Some(Ending::Found(entry)),
        Plan::End(Answer::Absent) => Some(Ending::Absent { gives_up: false }),
        Plan::End(Answer::Nothing) => None,
        Plan::End(Answer::Over) => None,
        Plan::GiveUp => Some(Ending::Absent { gives_up: true }),
        Plan::Read => None,
        Plan::Write { .. } => None,
    }
}

/// How a get is over that takes this turn; nothing where it goes on, or doesn't wait for what came.
fn ending_at<A: Allocator>(turn: Turn<A>) -> Option<Ending<A>>
    ensures { (phase : PhaseSeen) (planned : Option PlanSeen) → IsTurn turn phase planned → IsPlanned planned result }
{
    match turn {
        Turn::Go(plan) => ending_by(plan),
        Turn::Keep => None,
        Turn::Unknown => None,
    }
}

impl<A: Allocator + Copy> BigHash<A> {
    /// How the get with this number is over if this result is handed in. Nothing is told of what isn't a get, of a number
    /// that nothing under way has, of a result that isn't waited for, and of a get that goes on. Nothing changes: `leave`
    /// ends the get, and what is lost with it `lost_with` tells. Refused only when out of memory.
    pub fn ending(&self, number: u64, came: &IoResult<A>) -> Result<Option<Ending<A>>, AllocError>
        ensures { IfOk result (λ ending. IsEnding self.now number (resume_step self.now number (result_of came.now)) ending) }
    {
        match place(&self.jobs, number) {
            None => Ok(None),
            Some(at) => self.ending_of(number, at, came),
        }
    }

    /// The same of the job at this place.
    fn ending_of(
        &self,
        number: u64,
        at: usize,
        came: &IoResult<A>,
    ) -> Result<Option<Ending<A>>, AllocError>
        requires here { place_of number self.now.jobs ≡ Some at }
        requires within { at < length self.now.jobs }
        ensures { IfOk result (λ ending. IsEnding self.now number (resume_step self.now number (result_of came.now)) ending) }
    {
        let _number = number;
        let job = &self.jobs[at];
        if !job.is_get() {
            return Ok(None);
        }
        let turn = turn_of(self.alloc, self.flash.page as usize, job, came)?;
        Ok(ending_at(turn))
    }
}

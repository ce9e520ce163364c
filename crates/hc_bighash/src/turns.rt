// What came of a device operation means for a job.
ghost use Rattle.std.specs.Prelude.{◌≡◌, ◌<◌, ◌^◌, IfOk, OnErr, IsSome, option_map};
ghost use Rattle.hc_engines.specs.small.BigHash.{went_on, next_of, waits};
ghost use Rattle.hc_engines.specs.small.Sound.{HasRoom, CanPut};
ghost use Rattle.hc_flash.specs.Seen.{result_of};
ghost use Rattle.hc_engines.specs.Next.{next_seen};
ghost use Rattle.hc_bighash.specs.Steps.{IsTurn, PlanFits, TurnFits, plan_of, phase_of};

use crate::jobs::{Job, Phase};
use crate::pages::page_plan;
use crate::plans::Plan;
use crate::steps::{Step, step_of};
use hc_flash::IoResult;
use std::alloc::{AllocError, Allocator, Global};

/// What a result means for a job.
#[derive(Drop)]
pub(crate) enum Turn<A: Allocator = Global> {
    /// It goes on by this plan.
    Go(Plan<A>),
    /// Its page was written.
    Keep,
    /// It doesn't wait for such a result.
    Unknown,
}

/// What this result means for this job.
pub(crate) fn turn_of<A: Allocator + Copy>(
    alloc: A,
    page_size: usize,
    job: &Job<A>,
    came: &IoResult<A>,
) -> Result<Turn<A>, AllocError>
    requires small { page_size < 2 ^ 16 }
    requires len { HasRoom page_size job.now.op }
    requires put { CanPut job.now.op }
    ensures turn { IfOk result (λ turn. IsTurn turn job.now.phase (went_on page_size job.now.op job.now.phase (result_of came.now))) }
    ensures fits { IfOk result (λ turn. TurnFits page_size turn) }
    ensures awaited { OnErr result (IsSome (went_on page_size job.now.op job.now.phase (result_of came.now))) }
{
    match (&job.phase, came) {
        (Phase::Reading, IoResult::Page(page)) => {
            let plan = page_plan(alloc, page_size, &job.op, page)?;
            Ok(Turn::Go(plan))
        }
        (Phase::Reading, IoResult::Failed) => Ok(Turn::Go(Plan::GiveUp)),
        (Phase::Reading, IoResult::Written) => Ok(Turn::Unknown),
        (Phase::Writing { .. }, IoResult::Written) => Ok(Turn::Keep),
        (Phase::Writing { .. }, IoResult::Failed) => Ok(Turn::Go(Plan::GiveUp)),
        (Phase::Writing { .. }, IoResult::Page(_)) => Ok(Turn::Unknown),
    }
}

/// What this plan asks of the device or answers for this job, and what the job waits for then.
pub(crate) fn step_for<A: Allocator + Copy>(
    alloc: A,
    page_size: usize,
    job: &Job<A>,
    plan: Plan<A>,
) -> Result<Step<A>, AllocError>
    requires { PlanFits page_size plan }
    ensures next { IfOk result (λ step. next_seen step.next ≡ next_of page_size job.now.bucket job.now.op (plan_of plan)) }
    ensures phase { IfOk result (λ step. option_map phase_of step.phase ≡ waits (plan_of plan)) }
{
    step_of(alloc, page_size, job.bucket, &job.op, plan)
}

// What came of a device operation is handed in: the operation goes on, or is over.
ghost use Rattle.std.specs.Prelude.{◌≡◌, ◌⊎◌, ◌<◌, IfOk, IfErr, IfSome, OnErr, IsSome, Some, None, false, length, [], ◌∷◌, option_map, if◌then◌else◌};
ghost use Rattle.hc_types.specs.declared.refusal.Refusal.TheVariants.{UnknownJob, NoMemory};
ghost use Rattle.hc_types.specs.Loss.{Bucket, Fault};
ghost use Rattle.hc_engines.specs.small.BigHash.{Job as UnderWay, job_at, place_of, is_given_up, carried, kept_as, kept_job, ToKeep, resume as resume_step, next_of, waits};
ghost use Rattle.hc_bighash.specs.Handed.{absent_plan, ends_absent, is_absent, IsHanded, IsGet, op_in, lost_with};
ghost use Rattle.hc_engines.specs.Seen.{op_of};
ghost use Rattle.hc_flash.specs.Seen.{result_of};
ghost use Rattle.hc_engines.specs.Next.{next_seen};
ghost use Rattle.hc_bighash.specs.Steps.{plan_of, phase_of, PlanFits};

use crate::big_hash::BigHash;
use crate::jobs::{Job, Phase, go_on, job_of, place};
use crate::plans::Plan;
use crate::steps::Step;
use crate::turns::{Turn, step_for, turn_of};
use crate::words::{set_word, settle};
use hc_engines::{Answer, Loss, Next, Op, Outcome};
use hc_flash::IoResult;
use hc_types::{Cause, Refusal, Scope};
use std::alloc::{AllocError, Allocator, Global};

/// What a result that was handed in led to.
#[derive(Debug, Drop)]
#[must_use]
pub enum Handed<A: Allocator = Global> {
    /// What comes next of the operation. It holds already.
    Next(Next<A>),
    /// A get found nothing, and its bucket is given up or stays. Nothing changed yet: the get is over with `leave`, once
    /// what goes on elsewhere has what it needs. What is lost with that `lost_with` tells.
    Absent { gives_up: bool },
}

/// Whether a plan gives its bucket up.
fn gives_up<A: Allocator>(plan: &Plan<A>) -> bool
    ensures { result ≡ is_given_up (plan_of plan.now) }
{
    match plan {
        Plan::GiveUp => true,
        _ => false,
    }
}

/// Whether a get of this operation is over with this plan and found nothing: and if so, whether its bucket is given up.
fn ends_absent<A: Allocator>(op: &Op<A>, plan: &Plan<A>) -> Option<bool>
    ensures { result ≡ ends_absent (op_of op.now) (plan_of plan.now) }
{
    match (op, plan) {
        (Op::Get(_), Plan::End(Answer::Absent)) => Some(false),
        (Op::Get(_), Plan::GiveUp) => Some(true),
        _ => None,
    }
}

impl<A: Allocator + Copy> BigHash<A> {
    /// Hands in what came of the device operation that the job with this number waits for, as `resume` does, but that a
    /// get that found nothing isn't over yet: `leave` ends it. So another engine can be asked first, and where that is
    /// refused nothing changed. The caller keeps the result.
    pub fn hand_in(&mut self, number: u64, came: &IoResult<A>) -> Result<Handed<A>, Refusal>
        ensures ok { IfOk result (λ handed. IsHanded self.old self.new number (resume_step self.old number (result_of came.now)) handed) }
        ensures err { OnErr result (self.new ≡ self.old) }
        ensures unknown { IfErr result (λ refusal. refusal ≡ UnknownJob → resume_step self.old number (result_of came.now) ≡ None) }
        ensures awaited { IfErr result (λ refusal. refusal ≡ NoMemory → IsSome (resume_step self.old number (result_of came.now))) }
        ensures others { IfErr result (λ refusal. (refusal ≡ UnknownJob) ⊎ (refusal ≡ NoMemory)) }
    {
        match place(&self.jobs, number) {
            None => Err(Refusal::UnknownJob),
            Some(at) => self.hand_at(number, at, came),
        }
    }

    /// What came is handed in for the job at this place.
    fn hand_at(&mut self, number: u64, at: usize, came: &IoResult<A>) -> Result<Handed<A>, Refusal>
        requires here { place_of number self.old.jobs ≡ Some at }
        requires within { at < length self.old.jobs }
        ensures ok { IfOk result (λ handed. IsHanded self.old self.new number (resume_step self.old number (result_of came.now)) handed) }
        ensures err { OnErr result (self.new ≡ self.old) }
        ensures unknown { IfErr result (λ refusal. refusal ≡ UnknownJob → resume_step self.old number (result_of came.now) ≡ None) }
        ensures awaited { IfErr result (λ refusal. refusal ≡ NoMemory → IsSome (resume_step self.old number (result_of came.now))) }
        ensures others { IfErr result (λ refusal. (refusal ≡ UnknownJob) ⊎ (refusal ≡ NoMemory)) }
    {
        match turn_of(self.alloc, self.flash.page as usize, &self.jobs[at], came) {
            Ok(Turn::Go(plan)) => match self.go(number, at, plan) {
                Ok(handed) => Ok(handed),
                Err(_) => Err(Refusal::NoMemory),
            },
            Ok(Turn::Keep) => Ok(Handed::Next(self.keep(number, at))),
            Ok(Turn::Unknown) => Err(Refusal::UnknownJob),
            Err(_) => Err(Refusal::NoMemory),
        }
    }

    /// The job at this place goes on by this plan, unless it is a get that found nothing.
    fn go(&mut self, number: u64, at: usize, plan: Plan<A>) -> Result<Handed<A>, AllocError>
        requires here { place_of number self.old.jobs ≡ Some at }
        requires within { at < length self.old.jobs }
        requires fits { PlanFits self.old.flash.page plan }
        ensures ok { IfOk result (λ handed. IsHanded self.old self.new number (carried self.old number (plan_of plan)) handed) }
        ensures err { OnErr result (self.new ≡ self.old) }
    {
        let job = &self.jobs[at];
        match ends_absent(&job.op, &plan) {
            Some(gives_up) => Ok(Handed::Absent { gives_up }),
            None => {
                let next = self.carry(number, at, plan)?;
                Ok(Handed::Next(next))
            }
        }
    }

    /// The job at this place goes on by this plan.
    fn carry(&mut self, number: u64, at: usize, plan: Plan<A>) -> Result<Next<A>, AllocError>
        requires here { place_of number self.old.jobs ≡ Some at }
        requires within { at < length self.old.jobs }
        requires fits { PlanFits self.old.flash.page plan }
        ensures ok { IfOk result (λ next. carried self.old number (plan_of plan) ≡ Some (record { state = self.new; next = next_seen next })) }
        ensures next { IfOk result (λ next. (job : UnderWay) → job_at number self.old.jobs ≡ Some job → next_seen next ≡ next_of self.old.flash.page job.bucket job.op (plan_of plan)) }
        ensures err { OnErr result (self.new ≡ self.old) }
    {
        let gives_up = gives_up(&plan);
        let job = &self.jobs[at];
        let bucket = job.bucket();
        let Step { next, phase } = step_for(self.alloc, self.flash.page as usize, job, plan)?;
        go_on(&mut self.jobs, at, phase);
        settle(&mut self.words, bucket, gives_up);
        Ok(next)
    }

    /// The page of the job at this place was written.
    fn keep(&mut self, number: u64, at: usize) -> Next<A>
        requires here { place_of number self.old.jobs ≡ Some at }
        requires within { at < length self.old.jobs }
        requires kept { IsSome (kept_job self.old (job_at number self.old.jobs)) }
        ensures kept { kept_job self.old (job_at number self.old.jobs) ≡ Some (record { state = self.new; next = next_seen result }) }
        ensures no_miss { is_absent (next_seen result) ≡ false }
    {
        let job = self.jobs.remove(at);
        let Ended {
            bucket,
            word,
            losses,
        } = end_write(job);
        set_word(&mut self.words, bucket, Some(word));
        Next::Done(Outcome::new(Answer::Over, losses))
    }

    /// The get with this number is over, and its bucket is fresh where that is given up.
    pub fn leave(&mut self, number: u64, gives_up: bool)
        requires { IsGet self.old number }
        ensures { option_map (λ moved. moved.state) (carried self.old number (absent_plan gives_up)) ≡ Some self.new }
    {
        match place(&self.jobs, number) {
            Some(at) => self.leave_at(number, at, gives_up),
            None => unreachable!(),
        }
    }

    /// The job at this place is over.
    fn leave_at(&mut self, number: u64, at: usize, gives_up: bool)
        requires here { place_of number self.old.jobs ≡ Some at }
        requires within { at < length self.old.jobs }
        ensures { option_map (λ moved. moved.state) (carried self.old number (absent_plan gives_up)) ≡ Some self.new }
    {
        let _number = number;
        let job = &self.jobs[at];
        let bucket = job.bucket();
        go_on(&mut self.jobs, at, None);
        settle(&mut self.words, bucket, gives_up);
    }

    /// What is lost where the get with this number found nothing: its bucket, where that is given up.
    pub fn lost_with(&self, number: u64, gives_up: bool) -> Result<Vec<Loss<A>, A>, AllocError>
        ensures { IfOk result (λ losses. losses.items ≡ lost_with self.now number gives_up) }
    {
        let mut losses = Vec::new(self.alloc);
        if let (true, Some(job)) = (gives_up, job_of(&self.jobs, number)) {
            losses.push(Loss::new(Scope::Bucket(job.bucket()), Cause::Fault))?;
        }
        Ok(losses)
    }

    /// The operation that is under way with this number.
    #[must_use]
    pub fn op(&self, number: u64) -> Option<&Op<A>>
        ensures { option_map (λ op. op_of op.now) result ≡ op_in number self.now.jobs }
    {
        match job_of(&self.jobs, number) {
            Some(job) => Some(&job.op),
            None => None,
        }
    }
}

/// What a written page leaves.
#[derive(Drop)]
struct Ended<A: Allocator = Global> {
    bucket: u32,
    word: u64,
    losses: Vec<Loss<A>, A>,
}

/// The page of this job was written.
fn end_write<A: Allocator>(job: Job<A>) -> Ended<A>
    requires { IsSome (kept_as job.phase) }
    ensures bucket { result.bucket ≡ job.bucket }
    ensures kept { kept_as job.phase ≡ Some (ToKeep result.word result.losses.items) }
{
    let Job {
        bucket,
        op,
        phase,
        ..
    } = job;
    drop(op);
    match phase {
        Phase::Writing { page, losses } => {
            let word = page.word();
            Ended {
                bucket,
                word,
                losses,
            }
        }
        Phase::Reading => unreachable!(),
    }
}

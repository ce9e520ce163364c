// Whose an operation is, and what a plan asks of the device.
ghost use Rattle.std.specs.Prelude.{◌≡◌, ◌<◌, ◌≤◌, IfOk, IfSome, length, option_map};
ghost use Rattle.hc_types.specs.FlashEntry.{entry_of};
ghost use Rattle.hc_bucket.specs.Page.{page_bytes};
ghost use Rattle.hc_engines.specs.Engine.{nothing as nothing_done, Put, Io, Done, Write};
ghost use Rattle.hc_engines.specs.small.BigHash.{our_bucket as our_bucket_of, given_up as answer_given_up, ToGiveUp, next_of, waits};
ghost use Rattle.hc_engines.specs.small.Sound.{CanStart};
ghost use Rattle.hc_engines.specs.Seen.{op_of, answer_of};
ghost use Rattle.hc_engines.specs.Next.{next_seen};
ghost use Rattle.hc_bighash.specs.Paged.{entries_on};
ghost use Rattle.hc_bighash.specs.Steps.{plan_of, phase_of, PlanFits};

use crate::jobs::Phase;
use crate::new_page::NewPage;
use crate::plans::Plan;
use hc_engines::{Answer, Loss, Next, Op, Outcome, SharedOrder};
use hc_types::{Cause, Entry, FlashConfig, Scope, bucket_of, is_small};
use std::alloc::{AllocError, Allocator, Global};

/// The bucket of an operation that is BigHash's; none of one that is the other engine's.
pub(crate) fn our_bucket<A: Allocator>(op: &Op<A>, flash: &FlashConfig) -> Option<u32>
    requires bits { flash.now.bits ≤ 64 }
    requires some_bucket { 1 ≤ flash.now.buckets }
    requires most_buckets { flash.now.buckets ≤ 1048576 }
    ensures value { result ≡ our_bucket_of flash.now (op_of op.now) }
    ensures within { IfSome result (λ bucket. bucket < flash.now.buckets) }
    ensures can { CanStart (op_of op.now) }
{
    match op {
        Op::Put(entry) => small_bucket(entry, flash),
        Op::Get(key) => Some(bucket_of(key, flash) as u32),
        Op::Delete(key) => Some(bucket_of(key, flash) as u32),
        Op::Flush => None,
        Op::Reclaim => None,
    }
}

/// The bucket of a small entry.
fn small_bucket<A: Allocator>(entry: &Entry<A>, flash: &FlashConfig) -> Option<u32>
    requires bits { flash.now.bits ≤ 64 }
    requires some_bucket { 1 ≤ flash.now.buckets }
    requires most_buckets { flash.now.buckets ≤ 1048576 }
    ensures value { result ≡ our_bucket_of flash.now (Put (entry_of entry.now)) }
    ensures within { IfSome result (λ bucket. bucket < flash.now.buckets) }
    ensures can { CanStart (Put (entry_of entry.now)) }
{
    let _len = entry.key.len();
    let _pool = entry.pool;
    let _expiry = entry.expiry;
    if is_small(&entry.key, entry.value.len() as u64, flash) {
        Some(bucket_of(&entry.key, flash) as u32)
    } else {
        None
    }
}

/// What comes next of an operation, and what its job waits for then: nothing, where it is over.
#[derive(Drop)]
pub(crate) struct Step<A: Allocator = Global> {
    pub(crate) next: Next<A>,
    pub(crate) phase: Option<Phase<A>>,
}

/// The outcome of what isn't over yet, or had nothing to do.
pub(crate) fn nothing<A: Allocator + Copy>(alloc: A) -> Outcome<A>
    ensures { result ≡ nothing_done }
{
    Outcome::new(Answer::Nothing, Vec::new(alloc))
}

/// What this plan asks of the device or answers, and what the job waits for then.
pub(crate) fn step_of<A: Allocator + Copy>(
    alloc: A,
    page_size: usize,
    bucket: u32,
    op: &Op<A>,
    plan: Plan<A>,
) -> Result<Step<A>, AllocError>
    requires { PlanFits page_size plan }
    ensures next { IfOk result (λ step. next_seen step.next ≡ next_of page_size bucket (op_of op.now) (plan_of plan)) }
    ensures phase { IfOk result (λ step. option_map phase_of step.phase ≡ waits (plan_of plan)) }
{
    match plan {
        Plan::Read => {
            let next = Next::Io(SharedOrder::Read(bucket), nothing(alloc));
            let phase = Some(Phase::Reading);
            Ok(Step { next, phase })
        }
        Plan::Write { page, losses } => {
            let next = write_order(alloc, page_size, bucket, &page)?;
            let phase = Some(Phase::Writing { page, losses });
            Ok(Step { next, phase })
        }
        Plan::End(answer) => {
            let next = Next::Done(Outcome::new(answer, Vec::new(alloc)));
            Ok(Step { next, phase: None })
        }
        Plan::GiveUp => {
            let next = Next::Done(given_up(alloc, bucket, op)?);
            Ok(Step { next, phase: None })
        }
    }
}

/// The order to write this page.
fn write_order<A: Allocator + Copy>(
    alloc: A,
    page_size: usize,
    bucket: u32,
    page: &NewPage<A>,
) -> Result<Next<A>, AllocError>
    requires { length page.now ≡ page_size }
    ensures { IfOk result (λ next. next_seen next ≡ Io (Write bucket (page_bytes page_size (entries_on page.now))) nothing_done) }
{
    let _size = page_size;
    let shared = page.share()?;
    Ok(Next::Io(SharedOrder::Write(bucket, shared), nothing(alloc)))
}

/// What holds where a bucket is given up.
fn given_up<A: Allocator + Copy>(
    alloc: A,
    bucket: u32,
    op: &Op<A>,
) -> Result<Outcome<A>, AllocError>
    ensures { IfOk result (λ outcome. Done outcome ≡ next_of 0 bucket (op_of op.now) ToGiveUp) }
{
    let mut losses = Vec::with_capacity(alloc, 1)?;
    losses.push(Loss::new(Scope::Bucket(bucket), Cause::Fault))?;
    Ok(Outcome::new(lost_answer(op), losses))
}

/// What an operation answers whose bucket was given up.
fn lost_answer<A: Allocator>(op: &Op<A>) -> Answer<A>
    ensures { answer_of result ≡ answer_given_up (op_of op.now) }
{
    match op {
        Op::Get(_) => Answer::Absent,
        _ => Answer::Over,
    }
}

// What comes next for an operation on a bucket.
ghost use Rattle.std.specs.Prelude.{◌≡◌, ◌+◌, ◌<◌, ◌≤◌, ◌^◌, IfOk, Some, None};
ghost use Rattle.hc_bucket.specs.Page.{IsSmall};
ghost use Rattle.hc_engines.specs.small.Entries.{size_of};
ghost use Rattle.hc_engines.specs.small.Sound.{HasRoom, CanPut};
ghost use Rattle.hc_engines.specs.small.BigHash.{begun as plan_begun};
ghost use Rattle.hc_types.specs.FlashEntry.{entry_of};
ghost use Rattle.hc_engines.specs.Engine.{Put, Get};
ghost use Rattle.hc_engines.specs.Seen.{op_of};
ghost use Rattle.hc_bighash.specs.Steps.{plan_of, PlanFits};

use crate::new_page::NewPage;
use hc_bucket::Entries;
use hc_engines::bloom::could_have;
use hc_engines::{Answer, Loss, Op};
use hc_types::{Entry, Key};
use std::alloc::{AllocError, Allocator, Global};

/// What is to be done for an operation.
#[derive(Drop)]
pub(crate) enum Plan<A: Allocator = Global> {
    /// The page is to be read.
    Read,
    /// This page is to be written; then this is lost.
    Write {
        page: NewPage<A>,
        losses: Vec<Loss<A>, A>,
    },
    /// It is over, and the bucket is as it was.
    End(Answer<A>),
    /// The bucket is given up.
    GiveUp,
}

/// An operation begins on a bucket with this word.
pub(crate) fn begun<A: Allocator + Copy>(
    alloc: A,
    page_size: usize,
    word: Option<u64>,
    op: &Op<A>,
) -> Result<Plan<A>, AllocError>
    requires small { page_size < 2 ^ 16 }
    requires len { HasRoom page_size (op_of op.now) }
    requires put { CanPut (op_of op.now) }
    ensures plan { IfOk result (λ plan. plan_of plan ≡ plan_begun word (op_of op.now)) }
    ensures fits { IfOk result (λ plan. PlanFits page_size plan) }
{
    match (word, op) {
        (None, Op::Put(entry)) => first_put(alloc, page_size, entry),
        (None, Op::Get(_)) => Ok(Plan::End(Answer::Absent)),
        (None, Op::Delete(_)) => Ok(Plan::End(Answer::Over)),
        (Some(_), Op::Put(_)) => Ok(Plan::Read),
        (Some(word), Op::Get(key)) => Ok(looked(word, key)),
        (Some(_), Op::Delete(_)) => Ok(Plan::Read),
        (_, Op::Flush) => Ok(Plan::End(Answer::Nothing)),
        (_, Op::Reclaim) => Ok(Plan::End(Answer::Nothing)),
    }
}

/// A get begins on a bucket that was written.
fn looked<A: Allocator>(word: u64, key: &Key<A>) -> Plan<A>
    ensures { plan_of result ≡ plan_begun (Some word) (Get key.now) }
{
    if could_have(word, key) {
        Plan::Read
    } else {
        Plan::End(Answer::Absent)
    }
}

/// A put begins on a fresh bucket.
fn first_put<A: Allocator + Copy>(
    alloc: A,
    page_size: usize,
    entry: &Entry<A>,
) -> Result<Plan<A>, AllocError>
    requires small { page_size < 2 ^ 16 }
    requires len { 4 + size_of (entry_of entry.now) ≤ page_size }
    requires entry { IsSmall (entry_of entry.now) }
    ensures plan { IfOk result (λ plan. plan_of plan ≡ plan_begun None (Put (entry_of entry.now))) }
    ensures fits { IfOk result (λ plan. PlanFits page_size plan) }
{
    let page = NewPage::with(alloc, page_size, Entries::none(), entry)?;
    let losses = Vec::new(alloc);
    Ok(Plan::Write { page, losses })
}

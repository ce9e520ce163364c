// What may be asked of the engine before anything changes: how much is lost at most with a result, and where a key has its place.
ghost use Rattle.std.specs.Prelude.{◌≡◌, ◌<◌, ◌≤◌, ◌^◌, length, Some};
ghost use Rattle.hc_engines.specs.Engine.{IoResult as Came};
ghost use Rattle.hc_engines.specs.small.BigHash.{Moved, is_busy as is_bucket_busy, resume as resume_step};
ghost use Rattle.hc_types.specs.Places.{bucket_at};
ghost use Rattle.hc_bighash.specs.Found.{is_get as is_get_seen, losses_of, most_lost};
ghost use Rattle.hc_engines.specs.Seen.{op_of};
ghost use Rattle.hc_bighash.specs.Steps.{phase_of};

use crate::big_hash::BigHash;
use crate::jobs::{Job, Phase, is_busy, job_of};
use crate::plans::Plan;
use hc_engines::Op;
use hc_types::{FlashConfig, Key, bucket_of};
use std::alloc::Allocator;

/// Whether it is a get.
fn is_get<A: Allocator>(op: &Op<A>) -> bool
    ensures { result ≡ is_get_seen (op_of op.now) }
{
    matches!(op, Op::Get(_))
}

impl<A: Allocator> Phase<A> {
    /// The most that is lost with a result of what it waits for.
    fn most_losses(&self) -> usize
        ensures most { result ≡ most_lost (phase_of self.now) }
        ensures small { result < 2 ^ 63 }
    {
        match self {
            Phase::Reading => 1,
            Phase::Writing { losses, .. } => { if losses.is_empty() { 1 } else { losses.len() } }
        }
    }
}

impl<A: Allocator> Job<A> {
    /// Whether it is that of a get.
    pub(crate) fn is_get(&self) -> bool
        ensures { result ≡ is_get_seen self.now.op }
    {
        is_get(&self.op)
    }

    /// The most that is lost with the next result that is handed in for it.
    fn most_losses(&self) -> usize
        ensures most { result ≡ most_lost self.now.phase }
        ensures small { result < 2 ^ 63 }
    {
        self.phase.most_losses()
    }
}

impl<A: Allocator> BigHash<A> {
    /// How many losses at most are told with the next result that is handed in for the operation with this number: what a
    /// put pushed out, or the bucket that is given up.
    #[must_use]
    pub fn most_losses(&self, number: u64) -> usize
        ensures most { (came : Came) (moved : Moved) → resume_step self.now number came ≡ Some moved → length (losses_of moved.next) ≤ result }
        ensures small { result < 2 ^ 63 }
    {
        match job_of(&self.jobs, number) {
            Some(job) => job.most_losses(),
            None => 0,
        }
    }

    /// Whether a job is on this bucket.
    #[must_use]
    pub fn is_busy(&self, bucket: u32) -> bool
        ensures { result ≡ is_bucket_busy bucket self.now.jobs }
    {
        is_busy(&self.jobs, bucket)
    }

    /// The bucket of a key.
    #[must_use]
    pub fn bucket_of(&self, key: &Key<A>) -> u32
        ensures { result ≡ bucket_at self.now.flash key.now }
    {
        bucket_of(key, &self.flash) as u32
    }

    /// The configuration that it goes by.
    #[must_use]
    pub fn flash(&self) -> &FlashConfig
        ensures { result.now ≡ self.now.flash }
    {
        &self.flash
    }
}

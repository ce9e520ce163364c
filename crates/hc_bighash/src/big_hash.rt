// The engine for small objects.
ghost use Rattle.std.specs.Prelude.{◌≡◌, ◌<◌, [], replicate, IfOk, OnErr, Some, None};
ghost use Rattle.hc_types.specs.Limits.{flash_wrong};
ghost use Rattle.hc_engines.specs.small.BigHash.{word_at as word_in, job_at, moved, start as start_step, begun as plan_begun, our_bucket as our_bucket_of, could_hold, is_ours as is_op_ours};
ghost use Rattle.hc_engines.specs.small.Sound.{Sound, CanStart};
ghost use Rattle.hc_engines.specs.Seen.{op_of};
ghost use Rattle.hc_engines.specs.Next.{next_seen};

use crate::jobs::{Job, add_job, is_busy};
use crate::plans::begun;
use crate::steps::{Step, nothing, our_bucket, step_of};
use crate::words::word_at;
use hc_engines::{Next, Op, bloom};
use hc_types::{FlashConfig, Key, bucket_of};
use std::alloc::{AllocError, Allocator, Global};
use std::marker::Model;

/// The engine for small objects: buckets of a page each, of which a key's hash names one, and in memory a Bloom word of
/// 64 bits for each. Bucket b is page b of the device. A bucket is fresh until its page is written, and again once it is
/// given up: where the device failed, or what was read is no page. A bucket is busy while a job is on it, from `start` to
/// the `Done` of its operation.
///
/// Contracts see the configuration, the word of each bucket (none for a fresh one), and the jobs that are under way.
#[derive(Drop)]
pub struct BigHash<A: Allocator = Global> {
    pub(crate) alloc: A,
    pub(crate) flash: FlashConfig,
    pub(crate) words: Vec<Option<u64>, A>,
    pub(crate) jobs: Vec<Job<A>, A>,
}

impl<A: Allocator> Model for BigHash<A> {
    ghost use Rattle.hc_engines.specs.small.BigHash.{BigHash as Machine};
    ghost use Rattle.hc_engines.specs.small.Sound.{Sound};

    ghost Value = { Machine };

    ghost view = { λ b. record { flash = b.flash; words = b.words.items; jobs = b.jobs.items } };

    ghost invariant = { λ b. Sound b.flash b.words.items b.jobs.items };
}

impl<A: Allocator> BigHash<A> {
    /// Whether the operation is BigHash's, and not the other engine's: a get, a delete, or a put of a small entry.
    #[must_use]
    pub fn is_ours(&self, op: &Op<A>) -> bool
        ensures { result ≡ is_op_ours self.now.flash (op_of op.now) }
    {
        our_bucket(op, &self.flash).is_some()
    }

    /// Whether the key could be on its bucket's page: all its bits are in the bucket's word. Where they aren't, the key
    /// isn't there. No page is read.
    #[must_use]
    pub fn could_have(&self, key: &Key<A>) -> bool
        ensures { result ≡ could_hold self.now key.now }
    {
        let bucket = bucket_of(key, &self.flash);
        match word_at(&self.words, bucket as u32) {
            Some(word) => bloom::could_have(word, key),
            None => false,
        }
    }
}

impl<A: Allocator + Copy> BigHash<A> {
    /// Fresh buckets, by a configuration whose numbers are within their limits. They take 16 bytes of memory each.
    /// Refused only when out of memory.
    #[tactic(auto, using(hc_engines::proofs::small::Limited::limits_from, crate::proofs::Fresh::fresh_sound))]
    pub fn new(alloc: A, flash: FlashConfig) -> Result<BigHash<A>, AllocError>
        requires { flash_wrong flash ≡ None }
        ensures { IfOk result (λ b. b ≡ record { flash = flash; words = replicate flash.buckets None; jobs = [] }) }
    {
        let mut words = Vec::with_capacity(alloc, flash.buckets as usize)?;
        words.resize(flash.buckets as usize, None)?;
        let jobs = Vec::new(alloc);
        Ok(BigHash {
            alloc,
            flash,
            words,
            jobs,
        })
    }

    /// Starts an operation under this number, which no job has. It answers `Busy` where a job is on the bucket of its key,
    /// and `Done` with `Nothing` for what is the other engine's: a large entry, a flush, a reclaim. A get whose key the
    /// bucket's word rules out is absent at once. Refused only when out of memory; then nothing changed.
    pub fn start(&mut self, number: u64, op: &Op<A>) -> Result<Next<A>, AllocError>
        requires { job_at number self.old.jobs ≡ None }
        ensures ok { IfOk result (λ next. start_step self.old number (op_of op.now) ≡ record { state = self.new; next = next_seen next }) }
        ensures can { CanStart (op_of op.now) }
        ensures err { OnErr result (self.new ≡ self.old) }
    {
        match our_bucket(op, &self.flash) {
            None => Ok(Next::Done(nothing(self.alloc))),
            Some(bucket) => {
                if is_busy(&self.jobs, bucket) {
                    return Ok(Next::Busy);
                }
                self.begin(number, bucket, op)
            }
        }
    }

    /// Begins an operation on its bucket.
    fn begin(&mut self, number: u64, bucket: u32, op: &Op<A>) -> Result<Next<A>, AllocError>
        requires fresh_number { job_at number self.old.jobs ≡ None }
        requires ours { our_bucket_of self.old.flash (op_of op.now) ≡ Some bucket }
        requires within { bucket < self.old.flash.buckets }
        requires can { CanStart (op_of op.now) }
        ensures ok { IfOk result (λ next. moved self.old number bucket (op_of op.now) (plan_begun (word_in self.old bucket) (op_of op.now)) ≡ record { state = self.new; next = next_seen next }) }
        ensures err { OnErr result (self.new ≡ self.old) }
    {
        let page_size = self.flash.page as usize;
        let plan = begun(self.alloc, page_size, word_at(&self.words, bucket), op)?;
        let Step { next, phase } = step_of(self.alloc, page_size, bucket, op, plan)?;
        add_job(&mut self.jobs, number, bucket, op, phase)?;
        Ok(next)
    }
}

// The jobs that are under way.
ghost use Rattle.std.specs.Prelude.{◌≡◌, ◌==◌, OnOk, OnErr, IfSome, ◌<◌, length, slice_index_or, option_map};
ghost use Rattle.std.specs.List.{remove};
ghost use Rattle.hc_engines.specs.small.BigHash.{Job as UnderWay, is_busy as is_bucket_busy, job_at, make_job, place_of, with_job};
ghost use Rattle.hc_engines.specs.Seen.{op_of};
ghost use Rattle.hc_bighash.specs.Steps.{phase_of};

use crate::copies::copy_of_op;
use crate::new_page::NewPage;
use hc_engines::{Loss, Op};
use std::alloc::{AllocError, Allocator, Global};
use std::marker::Model;

/// What a job waits for.
#[derive(Drop)]
pub(crate) enum Phase<A: Allocator = Global> {
    /// Its bucket's page is being read.
    Reading,
    /// This is being written as its bucket's page; once it is, this is lost.
    Writing {
        page: NewPage<A>,
        losses: Vec<Loss<A>, A>,
    },
}

/// An operation that is under way on a bucket.
#[derive(Drop)]
pub(crate) struct Job<A: Allocator = Global> {
    pub(crate) number: u64,
    pub(crate) bucket: u32,
    pub(crate) op: Op<A>,
    pub(crate) phase: Phase<A>,
}

impl<A: Allocator> Model for Job<A> {
    ghost use Rattle.hc_engines.specs.small.BigHash.{Job as UnderWay};
    ghost use Rattle.hc_engines.specs.Seen.{op_of};
    ghost use Rattle.hc_bighash.specs.Steps.{phase_of};

    ghost Value = { UnderWay };

    ghost view = { λ j. record { number = j.number; bucket = j.bucket; op = op_of j.op; phase = phase_of j.phase } };
}

impl<A: Allocator> Job<A> {
    pub(crate) fn is_numbered(&self, number: u64) -> bool
        ensures { result ≡ (self.now.number == number) }
    {
        self.number == number
    }

    /// Its bucket.
    pub(crate) fn bucket(&self) -> u32
        ensures { result ≡ self.now.bucket }
    {
        self.bucket
    }

    /// It waits for something else from here on.
    fn with_phase(self, phase: Phase<A>) -> Job<A>
        ensures { result ≡ make_job self.number self.bucket self.op (phase_of phase) }
    {
        let Job {
            number,
            bucket,
            op,
            ..
        } = self;
        Job {
            number,
            bucket,
            op,
            phase,
        }
    }

    pub(crate) fn is_of(&self, bucket: u32) -> bool
        ensures { result ≡ (self.now.bucket == bucket) }
    {
        self.bucket == bucket
    }
}

/// Whether a job is on this bucket.
pub(crate) fn is_busy<A: Allocator>(jobs: &[Job<A>], bucket: u32) -> bool
    ensures { result ≡ is_bucket_busy bucket jobs.now }
{
    jobs.iter().any(|job| job.is_of(bucket))
}

/// One more job, where there is something to wait for.
pub(crate) fn add_job<A: Allocator + Copy>(
    jobs: &mut Vec<Job<A>, A>,
    number: u64,
    bucket: u32,
    op: &Op<A>,
    phase: Option<Phase<A>>,
) -> Result<(), AllocError>
    ensures ok { OnOk result (jobs.new.items ≡ with_job jobs.old.items number bucket (op_of op.now) (option_map phase_of phase)) }
    ensures err { OnErr result (jobs.new.items ≡ jobs.old.items) }
{
    let Some(phase) = phase else {
        return Ok(());
    };
    let op = copy_of_op(op)?;
    jobs.push(Job {
        number,
        bucket,
        op,
        phase,
    })?;
    Ok(())
}

/// Where the job with this number stands.
pub(crate) fn place<A: Allocator>(jobs: &[Job<A>], number: u64) -> Option<usize>
    ensures value { result ≡ place_of number jobs.now }
    ensures within { IfSome result (λ at. at < length jobs.now) }
{
    for (at, job) in jobs.iter().enumerate() {
        if job.is_numbered(number) {
            return Some(at);
        }
    }
    None
}

/// The job with this number.
pub(crate) fn job_of<A: Allocator>(jobs: &[Job<A>], number: u64) -> Option<&Job<A>>
    ensures { option_map (λ job. job.now) result ≡ job_at number jobs.now }
{
    for job in jobs {
        if job.is_numbered(number) {
            return Some(job);
        }
    }
    None
}

/// The job at this place goes on to this phase, as the last of the jobs, or is over.
pub(crate) fn go_on<A: Allocator + Copy>(
    jobs: &mut Vec<Job<A>, A>,
    at: usize,
    phase: Option<Phase<A>>,
)
    requires { at < length jobs.old.items }
    ensures { (d : UnderWay) → let job = slice_index_or jobs.old.items at d in jobs.new.items ≡ with_job (remove jobs.old.items at) job.number job.bucket job.op (option_map phase_of phase) }
{
    let job = jobs.remove(at);
    if let Some(phase) = phase {
        let _ = jobs.push(job.with_phase(phase));
    }
}

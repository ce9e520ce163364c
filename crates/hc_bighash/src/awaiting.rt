// Whether an operation waits for a result: asked before it is handed in.
ghost use Rattle.std.specs.Prelude.{◌≡◌, ℕ, is_some};
ghost use Rattle.hc_engines.specs.Engine.{Op as Asked};
ghost use Rattle.hc_engines.specs.small.BigHash.{resume as resume_step, went_on};
ghost use Rattle.hc_flash.specs.Seen.{result_of};
ghost use Rattle.hc_bighash.specs.Steps.{phase_of};

use crate::big_hash::BigHash;
use crate::jobs::{Job, Phase, job_of};
use hc_flash::IoResult;
use std::alloc::Allocator;

impl<A: Allocator> Phase<A> {
    /// Whether it is such a result that is waited for.
    fn waits_for(&self, came: &IoResult<A>) -> bool
        ensures { (size : ℕ) (op : Asked) → result ≡ is_some (went_on size op (phase_of self.now) (result_of came.now)) }
    {
        match (self, came) {
            (Phase::Reading, IoResult::Page(_)) => true,
            (Phase::Reading, IoResult::Written) => false,
            (Phase::Reading, IoResult::Failed) => true,
            (Phase::Writing { .. }, IoResult::Page(_)) => false,
            (Phase::Writing { .. }, IoResult::Written) => true,
            (Phase::Writing { .. }, IoResult::Failed) => true,
        }
    }
}

impl<A: Allocator> Job<A> {
    /// Whether it waits for such a result.
    fn waits_for(&self, came: &IoResult<A>) -> bool
        ensures { (size : ℕ) → result ≡ is_some (went_on size self.now.op self.now.phase (result_of came.now)) }
    {
        self.phase.waits_for(came)
    }
}

impl<A: Allocator> BigHash<A> {
    /// Whether the operation with this number waits for such a result.
    #[must_use]
    pub fn awaits(&self, number: u64, came: &IoResult<A>) -> bool
        ensures { result ≡ is_some (resume_step self.now number (result_of came.now)) }
    {
        match job_of(&self.jobs, number) {
            Some(job) => job.waits_for(came),
            None => false,
        }
    }
}

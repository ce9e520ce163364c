// What came of a device operation is handed in, for one engine alone.
ghost use Rattle.std.specs.Prelude.{◌≡◌, ◌⊎◌, IfOk, IfErr, OnErr, IsSome, None};
ghost use Rattle.hc_types.specs.declared.refusal.Refusal.TheVariants.{UnknownJob, NoMemory};
ghost use Rattle.hc_engines.specs.small.BigHash.{carried, resume as resume_step};
ghost use Rattle.hc_bighash.specs.Handed.{absent_plan, IsGet};
ghost use Rattle.hc_flash.specs.Seen.{result_of};
ghost use Rattle.hc_engines.specs.Next.{next_seen};

use crate::big_hash::BigHash;
use crate::results::Handed;
use hc_engines::{Answer, Next, Outcome, Unresumed};
use hc_flash::IoResult;
use hc_types::Refusal;
use std::alloc::{AllocError, Allocator};

impl<A: Allocator + Copy> BigHash<A> {
    /// Hands in what came of the device operation that the job with this number waits for. Refused with `UnknownJob`
    /// where there is no such job or it waits for something else, and with `NoMemory` when out of memory; then nothing
    /// changed, and the result is given back. A page may have any bytes: those that are no bucket's page give the bucket
    /// up, with all that it holds (scope `Bucket`, cause `Fault`), as a failure does.
    pub fn resume(&mut self, number: u64, came: IoResult<A>) -> Result<Next<A>, Unresumed<A>>
        ensures ok { IfOk result (λ next. resume_step self.old number (result_of came) ≡ Some (record { state = self.new; next = next_seen next })) }
        ensures err { OnErr result (self.new ≡ self.old) }
        ensures given_back { IfErr result (λ refused. refused.came ≡ came) }
        ensures unknown { IfErr result (λ refused. refused.refusal ≡ UnknownJob → resume_step self.old number (result_of came) ≡ None) }
        ensures awaited { IfErr result (λ refused. refused.refusal ≡ NoMemory → IsSome (resume_step self.old number (result_of came))) }
        ensures others { IfErr result (λ refused. (refused.refusal ≡ UnknownJob) ⊎ (refused.refusal ≡ NoMemory)) }
    {
        match self.step_on(number, &came) {
            Ok(next) => Ok(next),
            Err(refusal) => Err(Unresumed { refusal, came }),
        }
    }

    /// The same, of a result that the caller keeps.
    fn step_on(&mut self, number: u64, came: &IoResult<A>) -> Result<Next<A>, Refusal>
        ensures ok { IfOk result (λ next. resume_step self.old number (result_of came.now) ≡ Some (record { state = self.new; next = next_seen next })) }
        ensures err { OnErr result (self.new ≡ self.old) }
        ensures unknown { IfErr result (λ refusal. refusal ≡ UnknownJob → resume_step self.old number (result_of came.now) ≡ None) }
        ensures awaited { IfErr result (λ refusal. refusal ≡ NoMemory → IsSome (resume_step self.old number (result_of came.now))) }
        ensures others { IfErr result (λ refusal. (refusal ≡ UnknownJob) ⊎ (refusal ≡ NoMemory)) }
    {
        match self.hand_in(number, came) {
            Ok(Handed::Next(next)) => Ok(next),
            Ok(Handed::Absent { gives_up }) => match self.end(number, gives_up) {
                Ok(next) => Ok(next),
                Err(_) => Err(Refusal::NoMemory),
            },
            Err(refusal) => Err(refusal),
        }
    }

    /// A get is over that found nothing.
    fn end(&mut self, number: u64, gives_up: bool) -> Result<Next<A>, AllocError>
        requires { IsGet self.old number }
        ensures ok { IfOk result (λ next. carried self.old number (absent_plan gives_up) ≡ Some (record { state = self.new; next = next_seen next })) }
        ensures err { OnErr result (self.new ≡ self.old) }
    {
        let losses = self.lost_with(number, gives_up)?;
        self.leave(number, gives_up);
        Ok(Next::Done(Outcome::new(Answer::Absent, losses)))
    }
}

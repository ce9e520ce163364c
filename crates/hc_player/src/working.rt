// What a worker does, the device with a job, or a client that waited.
ghost use Rattle.std.specs.Prelude.{IfOk};
ghost use Rattle.hc_flash.specs.Seen.{result_of};
ghost use Rattle.hc_machine.specs.Workers.{finish as finish_step};
ghost use Rattle.hc_trace_text.specs.Seen.{work_seen};
ghost use Rattle.hc_trace_text.specs.Steps.{Writer, Filler, Reclaim, Io, Finish, Reply};
ghost use Rattle.hc_trace_meaning.specs.Actions.{Serve};
ghost use Rattle.hc_player.specs.Seen.{answer_seen};
ghost use Rattle.hc_player.specs.Playing.{Acts, Calls};

use crate::answers::Answer;
use crate::device::operate;
use crate::outcomes::{made, reclaimed, refused, replied, taken};
use crate::player::Player;
use hc_flash::IoResult;
use hc_history::{Note, Notes};
use hc_nvm::Unfinished;
use hc_trace_text::Work;
use hc_types::Refusal;
use std::alloc::AllocError;

impl<N: Notes<Note>> Player<N> {
    fn writer(&mut self) -> Result<Answer, AllocError>
        ensures { IfOk result (λ answer. Acts (Serve Writer) (answer_seen answer) self.old self.new) }
    {
        match self.core.writer_take() {
            Ok(take) => Ok(taken(take)),
            Err(_no_memory) => Err(AllocError),
        }
    }

    fn filler(&mut self) -> Result<Answer, AllocError>
        ensures { IfOk result (λ answer. Acts (Serve Filler) (answer_seen answer) self.old self.new) }
    {
        match self.core.filler_take() {
            Ok(take) => Ok(taken(take)),
            Err(_no_memory) => Err(AllocError),
        }
    }

    fn reclaim(&mut self) -> Result<Answer, AllocError>
        ensures { IfOk result (λ answer. Acts (Serve Reclaim) (answer_seen answer) self.old self.new) }
    {
        match self.core.reclaim() {
            Ok(region) => Ok(reclaimed(region)),
            Err(_no_memory) => Err(AllocError),
        }
    }

    /// The operation of a job is made, or fails, and its result waits. There is none where one waits.
    fn make(&mut self, job: u64, fails: bool) -> Result<Answer, AllocError>
        ensures { IfOk result (λ answer. Acts (Serve (Io job fails)) (answer_seen answer) self.old self.new) }
    {
        if self.results.has(job) {
            return Ok(Answer::Refused(Refusal::UnknownJob));
        }
        self.results.reserve()?;
        let Some(order) = self.core.order(job) else {
            return Ok(Answer::Refused(Refusal::UnknownJob));
        };
        let came = operate(&mut self.device, order, fails)?;
        let answer = made(&came);
        self.results.put(job, came);
        Ok(answer)
    }

    /// The result is handed in.
    fn hand_in(&mut self, job: u64, came: IoResult) -> Result<Answer, AllocError>
        ensures { IfOk result (λ answer. Calls (finish_step job (result_of came) self.old.cache) (answer_seen answer) self.old self.new) }
    {
        match self.core.finish(job, came) {
            Ok(take) => Ok(taken(take)),
            Err(Unfinished { refusal, came }) => {
                drop(came);
                refused(refusal)
            }
        }
    }

    /// The result of a job's operation is handed in. There may be none.
    fn finish(&mut self, job: u64) -> Result<Answer, AllocError>
        ensures { IfOk result (λ answer. Acts (Serve (Finish job)) (answer_seen answer) self.old self.new) }
    {
        match self.results.take(job) {
            Some(came) => self.hand_in(job, came),
            None => Ok(Answer::Refused(Refusal::UnknownJob)),
        }
    }

    fn reply(&mut self, call: u64) -> Result<Answer, AllocError>
        ensures { IfOk result (λ answer. Acts (Serve (Reply call)) (answer_seen answer) self.old self.new) }
    {
        match self.core.take_reply(call) {
            Ok(reply) => Ok(replied(reply)),
            Err(refusal) => refused(refusal),
        }
    }

    /// What a worker does, the device with a job, or a client that waited. An error is out of memory.
    pub fn do_work(&mut self, work: &Work) -> Result<Answer, AllocError>
        ensures { IfOk result (λ answer. Acts (Serve (work_seen work.now)) (answer_seen answer) self.old self.new) }
    {
        match work {
            Work::Writer => self.writer(),
            Work::Filler => self.filler(),
            Work::Reclaim => self.reclaim(),
            Work::Io(job, fails) => self.make(*job, *fails),
            Work::Finish(job) => self.finish(*job),
            Work::Reply(call) => self.reply(*call),
        }
    }
}

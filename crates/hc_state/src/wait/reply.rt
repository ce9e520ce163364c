// The replies of calls that waited are taken.
ghost use Rattle.std.specs.Prelude.{◌≡◌, IfOk, OnErr, IfErr};
ghost use Rattle.hc_history.specs.Seen.{reply_of};
ghost use Rattle.hc_history.specs.Told.{Hears};
ghost use Rattle.hc_machine.specs.Cache.{Replied};
ghost use Rattle.hc_machine.specs.Calls.{take_reply as take_step};
ghost use Rattle.hc_state.specs.Answers.{IsNextReply, IsReason};
ghost use Rattle.hc_state.specs.Whole.{IsReady, IsStep, Stays};

use crate::begin::room_for_notes;
use crate::state::State;
use crate::tells;
use hc_history::{Note, Notes, Reply};
use hc_types::Refusal;
use std::alloc::Allocator;

impl<N: Notes<Note<A>>, A: Allocator + Clone + Copy> State<N, A> {
    /// A call whose reply can be taken, whichever of them it is, found without a scan. None, where no reply is ready.
    #[must_use]
    pub fn next_reply(&self) -> Option<u64>
        ensures { IsNextReply self.now.cache.owed result }
    {
        self.replies.next()
    }

    /// Takes the reply of the call that waited. Refused with `UnknownCall` where none is owed to the call, with `NotReady`
    /// where it still waits, and with `NoMemory`, only where something is heard of the log.
    pub fn take_reply(&mut self, call: u64) -> Result<Reply<A>, Refusal>
        requires ready { IsReady self.old }
        ensures ok { IfOk result (λ reply. IsStep (take_step call self.old.cache) (Replied (reply_of reply)) self.old self.new) }
        ensures err { OnErr result (Stays self.old self.new) }
        ensures why { IfErr result (λ refusal. IsReason (take_step call self.old.cache).answer refusal) }
        ensures silent { IfErr result (λ refusal. refusal ≡ Refusal.NoMemory → Hears self.old.log) }
    {
        match self.replies.is_ready(call) {
            None => return Err(Refusal::UnknownCall),
            Some(false) => return Err(Refusal::NotReady),
            Some(true) => room_for_notes(&mut self.notes, &self.pools, 1)?,
        }
        let reply = self.replies.take(call)?;

        tells::ended(&mut self.notes, call);
        Ok(reply)
    }
}

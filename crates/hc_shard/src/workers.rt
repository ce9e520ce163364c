// The calls of workers.
ghost use Rattle.std.specs.Prelude.{◌≡◌, IfOk, OnErr, IfErr};
ghost use Rattle.hc_flash.specs.Seen.{result_of};
ghost use Rattle.hc_machine.specs.Cache.{Took, Reclaimed};
ghost use Rattle.hc_machine.specs.Workers.{writer_take as writer_step, filler_take as filler_step, finish as finish_step, reclaim as reclaim_step};
ghost use Rattle.hc_nvm.specs.Seen.{take_of};
ghost use Rattle.hc_core.specs.Answers.{IsReason};
ghost use Rattle.hc_shard.specs.Shard.{Does};

use crate::shard::Shard;
use hc_flash::IoResult;
use hc_history::{Note, Notes};
use hc_nvm::{Take, Unfinished};
use hc_types::Refusal;
use std::alloc::Allocator;

impl<N: Notes<Note<A>>, A: Allocator + Clone + Copy> Shard<N, A> {
    /// The writer takes what is next, as `Core::writer_take` has it. Pages are the shard's own: page p is that of the device
    /// behind the shard's first (`Sharded::first_page`).
    pub fn writer_take(&mut self) -> Result<Take<A>, Refusal>
        ensures ok { IfOk result (λ take. Does (writer_step self.old.core.cache) (Took (take_of take)) self.old self.new) }
        ensures err { OnErr result (self.new ≡ self.old) }
        ensures memory { IfErr result (λ refusal. refusal ≡ Refusal.NoMemory) }
    {
        self.core.writer_take()
    }

    /// Gives up the region that was written first, as `Core::reclaim` does.
    pub fn reclaim(&mut self) -> Result<Option<u32>, Refusal>
        ensures ok { IfOk result (λ region. Does (reclaim_step self.old.core.cache) (Reclaimed region) self.old self.new) }
        ensures err { OnErr result (self.new ≡ self.old) }
        ensures memory { IfErr result (λ refusal. refusal ≡ Refusal.NoMemory) }
    {
        self.core.reclaim()
    }

    /// The filler takes the key for which calls have waited longest, as `Core::filler_take` has it.
    pub fn filler_take(&mut self) -> Result<Take<A>, Refusal>
        ensures ok { IfOk result (λ take. Does (filler_step self.old.core.cache) (Took (take_of take)) self.old self.new) }
        ensures err { OnErr result (self.new ≡ self.old) }
        ensures memory { IfErr result (λ refusal. refusal ≡ Refusal.NoMemory) }
    {
        self.core.filler_take()
    }

    /// Hands in what came of the device operation that the job waits for, as `Core::finish` does.
    pub fn finish(&mut self, job: u64, came: IoResult<A>) -> Result<Take<A>, Unfinished<A>>
        ensures ok { IfOk result (λ take. Does (finish_step job (result_of came) self.old.core.cache) (Took (take_of take)) self.old self.new) }
        ensures err { OnErr result (self.new ≡ self.old) }
        ensures why { IfErr result (λ e. IsReason (finish_step job (result_of came) self.old.core.cache).answer e.refusal) }
        ensures came_returned { IfErr result (λ e. e.came ≡ came) }
    {
        self.core.finish(job, came)
    }
}

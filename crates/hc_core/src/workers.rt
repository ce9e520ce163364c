// The calls of workers.
ghost use Rattle.std.specs.Prelude.{◌≡◌, IfOk, OnErr, IfErr};
ghost use Rattle.hc_machine.specs.Cache.{Took, Reclaimed};
ghost use Rattle.hc_flash.specs.Seen.{result_of};
ghost use Rattle.hc_machine.specs.Workers.{writer_take as writer_step, filler_take as filler_step, finish as finish_step, reclaim as reclaim_step};
ghost use Rattle.hc_nvm.specs.Seen.{take_of};
ghost use Rattle.hc_state.specs.Answers.{IsReason, is_work};
ghost use Rattle.hc_core.specs.Logged.{IsCall};

use crate::cache::Core;
use hc_flash::IoResult;
use hc_history::{Note, Notes};
use hc_nvm::{Take, Unfinished};
use hc_types::Refusal;
use std::alloc::Allocator;

impl<N: Notes<Note<A>>, A: Allocator + Clone + Copy> Core<N, A> {
    /// Whether the writer finds something to do, if it takes now: then it is worth waking. Nothing changes. Refused with
    /// `NoMemory`.
    pub fn writer_has_work(&mut self) -> Result<bool, Refusal>
        ensures ok { IfOk result (λ has. has ≡ is_work (writer_step self.old.cache).answer) }
        ensures same { self.new ≡ self.old }
        ensures memory { IfErr result (λ refusal. refusal ≡ Refusal.NoMemory) }
    {
        self.state.writer_has_work()
    }

    /// Whether the filler finds something to do, if it takes now: then it is worth waking. Nothing changes. Refused with
    /// `NoMemory`.
    pub fn filler_has_work(&mut self) -> Result<bool, Refusal>
        ensures ok { IfOk result (λ has. has ≡ is_work (filler_step self.old.cache).answer) }
        ensures same { self.new ≡ self.old }
        ensures memory { IfErr result (λ refusal. refusal ≡ Refusal.NoMemory) }
    {
        self.state.filler_has_work()
    }

    /// The writer takes what is next: a region's page, or else a delete, or else a put. Where that goes on with a page, the
    /// job waits for that device operation. Refused with `NoMemory`.
    pub fn writer_take(&mut self) -> Result<Take<A>, Refusal>
        ensures ok { IfOk result (λ take. IsCall (writer_step self.old.cache) (Took (take_of take)) self.old self.new) }
        ensures err { OnErr result (self.new ≡ self.old) }
        ensures memory { IfErr result (λ refusal. refusal ≡ Refusal.NoMemory) }
    {
        self.state.writer_take()
    }

    /// Gives up the region that was written first, where fewer regions are clean than are wanted: its entries are forgotten.
    /// Answers its number. Refused with `NoMemory`.
    pub fn reclaim(&mut self) -> Result<Option<u32>, Refusal>
        ensures ok { IfOk result (λ region. IsCall (reclaim_step self.old.cache) (Reclaimed region) self.old self.new) }
        ensures err { OnErr result (self.new ≡ self.old) }
        ensures memory { IfErr result (λ refusal. refusal ≡ Refusal.NoMemory) }
    {
        self.state.reclaim()
    }

    /// The filler takes the key for which calls have waited longest of those that can be brought: its job waits for a device
    /// operation. Where none is needed, the fill ends at once, as one does with a result that is handed in (`finish`). Refused
    /// with `NoMemory`.
    pub fn filler_take(&mut self) -> Result<Take<A>, Refusal>
        ensures ok { IfOk result (λ take. IsCall (filler_step self.old.cache) (Took (take_of take)) self.old self.new) }
        ensures err { OnErr result (self.new ≡ self.old) }
        ensures memory { IfErr result (λ refusal. refusal ≡ Refusal.NoMemory) }
    {
        self.state.filler_take()
    }

    /// Hands in what came of the device operation that the job with this number waits for: the job goes on with the next
    /// one, for which it waits, or is over. With a fill that ends, what it brought is linked, where its pool can make room,
    /// and the calls that wait for its key are answered. Refused with `UnknownJob` where no job waits for such a result, and
    /// with `NoMemory`; then the result is given back.
    pub fn finish(&mut self, job: u64, came: IoResult<A>) -> Result<Take<A>, Unfinished<A>>
        ensures ok { IfOk result (λ take. IsCall (finish_step job (result_of came) self.old.cache) (Took (take_of take)) self.old self.new) }
        ensures err { OnErr result (self.new ≡ self.old) }
        ensures why { IfErr result (λ e. IsReason (finish_step job (result_of came) self.old.cache).answer e.refusal) }
        ensures came_returned { IfErr result (λ e. e.came ≡ came) }
    {
        self.state.finish(job, came)
    }
}

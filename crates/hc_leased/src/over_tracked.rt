// So is a core that keeps digests of its pages.
ghost use Rattle.std.specs.Prelude.{◌≡◌, IfOk, OnErr, IfErr};
ghost use Rattle.hc_history.specs.Seen.{reply_of};
ghost use Rattle.hc_machine.specs.Cache.{Replied, Moment, Took, Reclaimed};
ghost use Rattle.hc_machine.specs.Calls.{find as find_step, remove as remove_step, take_reply as reply_step, tick as tick_step};
ghost use Rattle.hc_machine.specs.Workers.{writer_take as writer_step, filler_take as filler_step, reclaim as reclaim_step};
ghost use Rattle.hc_nvm.specs.Seen.{take_of};
ghost use Rattle.hc_core.specs.Answers.{IsReason, is_work, found_answer, removed_answer};
ghost use Rattle.hc_core.specs.Logged.{IsCall};

use crate::cache::{Cache, Calls};
use hc_history::{Listener, Note, Notes, Reply};
use hc_nvm::Take;
use hc_paged::Digest;
use hc_state::{Found, Removed};
use hc_tracked::TrackedCore;
use hc_types::{Key, Refusal};
use std::alloc::Allocator;

impl<N: Listener, A: Allocator, G: Digest + Copy> Cache for TrackedCore<N, A, G> {
    ghost seen = { λ tracked. tracked.core };

    fn calls(&self) -> u64 {
        TrackedCore::calls(self)
    }

    fn now(&self) -> u64 {
        TrackedCore::now(self)
    }
}

impl<N: Notes<Note<A>>, A: Allocator + Clone + Copy, G: Digest + Copy> Calls<A>
    for TrackedCore<N, A, G> {
    fn tick(&mut self, moment: u64) -> Result<u64, Refusal>
        ensures ok { IfOk result (λ now. IsCall (tick_step moment self.old.core.cache) (Moment now) self.old.core self.new.core) }
        ensures err { OnErr result (self.new.core ≡ self.old.core) }
        ensures memory { IfErr result (λ refusal. refusal ≡ Refusal.NoMemory) }
    {
        TrackedCore::tick(self, moment)
    }

    fn remove(&mut self, client: u8, key: &Key<A>) -> Result<Removed, Refusal>
        ensures ok { IfOk result (λ removed. IsCall (remove_step client key.now self.old.core.cache) (removed_answer removed) self.old.core self.new.core) }
        ensures err { OnErr result (self.new.core ≡ self.old.core) }
        ensures memory { IfErr result (λ refusal. refusal ≡ Refusal.NoMemory) }
    {
        TrackedCore::remove(self, client, key)
    }

    fn find(&mut self, client: u8, key: &Key<A>) -> Result<Found<A>, Refusal>
        ensures ok { IfOk result (λ found. IsCall (find_step client key.now self.old.core.cache) (found_answer found) self.old.core self.new.core) }
        ensures err { OnErr result (self.new.core ≡ self.old.core) }
        ensures memory { IfErr result (λ refusal. refusal ≡ Refusal.NoMemory) }
    {
        TrackedCore::find(self, client, key)
    }

    fn take_reply(&mut self, call: u64) -> Result<Reply<A>, Refusal>
        ensures ok { IfOk result (λ reply. IsCall (reply_step call self.old.core.cache) (Replied (reply_of reply)) self.old.core self.new.core) }
        ensures err { OnErr result (self.new.core ≡ self.old.core) }
        ensures why { IfErr result (λ refusal. IsReason (reply_step call self.old.core.cache).answer refusal) }
    {
        TrackedCore::take_reply(self, call)
    }

    fn writer_has_work(&mut self) -> Result<bool, Refusal>
        ensures ok { IfOk result (λ has. has ≡ is_work (writer_step self.old.core.cache).answer) }
        ensures same { self.new.core ≡ self.old.core }
        ensures memory { IfErr result (λ refusal. refusal ≡ Refusal.NoMemory) }
    {
        TrackedCore::writer_has_work(self)
    }

    fn filler_has_work(&mut self) -> Result<bool, Refusal>
        ensures ok { IfOk result (λ has. has ≡ is_work (filler_step self.old.core.cache).answer) }
        ensures same { self.new.core ≡ self.old.core }
        ensures memory { IfErr result (λ refusal. refusal ≡ Refusal.NoMemory) }
    {
        TrackedCore::filler_has_work(self)
    }

    fn writer_take(&mut self) -> Result<Take<A>, Refusal>
        ensures ok { IfOk result (λ take. IsCall (writer_step self.old.core.cache) (Took (take_of take)) self.old.core self.new.core) }
        ensures err { OnErr result (self.new.core ≡ self.old.core) }
        ensures memory { IfErr result (λ refusal. refusal ≡ Refusal.NoMemory) }
    {
        TrackedCore::writer_take(self)
    }

    fn filler_take(&mut self) -> Result<Take<A>, Refusal>
        ensures ok { IfOk result (λ take. IsCall (filler_step self.old.core.cache) (Took (take_of take)) self.old.core self.new.core) }
        ensures err { OnErr result (self.new.core ≡ self.old.core) }
        ensures memory { IfErr result (λ refusal. refusal ≡ Refusal.NoMemory) }
    {
        TrackedCore::filler_take(self)
    }

    fn reclaim(&mut self) -> Result<Option<u32>, Refusal>
        ensures ok { IfOk result (λ region. IsCall (reclaim_step self.old.core.cache) (Reclaimed region) self.old.core self.new.core) }
        ensures err { OnErr result (self.new.core ≡ self.old.core) }
        ensures memory { IfErr result (λ refusal. refusal ≡ Refusal.NoMemory) }
    {
        TrackedCore::reclaim(self)
    }
}

// A core is such a cache.
ghost use Rattle.std.specs.Prelude.{◌≡◌, IfOk, OnErr, IfErr};
ghost use Rattle.hc_history.specs.Seen.{reply_of};
ghost use Rattle.hc_machine.specs.Cache.{Replied, Moment, Took, Reclaimed};
ghost use Rattle.hc_machine.specs.Calls.{find as find_step, remove as remove_step, take_reply as reply_step, tick as tick_step};
ghost use Rattle.hc_machine.specs.Workers.{writer_take as writer_step, filler_take as filler_step, reclaim as reclaim_step};
ghost use Rattle.hc_nvm.specs.Seen.{take_of};
ghost use Rattle.hc_core.specs.Answers.{IsReason, is_work, found_answer, removed_answer};
ghost use Rattle.hc_core.specs.Logged.{IsCall};

use crate::cache::{Cache, Calls};
use hc_core::Core;
use hc_history::{Listener, Note, Notes, Reply};
use hc_nvm::Take;
use hc_state::{Found, Removed};
use hc_types::{Key, Refusal};
use std::alloc::Allocator;

impl<N: Listener, A: Allocator> Cache for Core<N, A> {
    ghost seen = { λ core. core };

    fn calls(&self) -> u64 {
        Core::calls(self)
    }

    fn now(&self) -> u64 {
        Core::now(self)
    }
}

impl<N: Notes<Note<A>>, A: Allocator + Clone + Copy> Calls<A> for Core<N, A> {
    fn tick(&mut self, moment: u64) -> Result<u64, Refusal>
        ensures ok { IfOk result (λ now. IsCall (tick_step moment self.old.cache) (Moment now) self.old self.new) }
        ensures err { OnErr result (self.new ≡ self.old) }
        ensures memory { IfErr result (λ refusal. refusal ≡ Refusal.NoMemory) }
    {
        Core::tick(self, moment)
    }

    fn remove(&mut self, client: u8, key: &Key<A>) -> Result<Removed, Refusal>
        ensures ok { IfOk result (λ removed. IsCall (remove_step client key.now self.old.cache) (removed_answer removed) self.old self.new) }
        ensures err { OnErr result (self.new ≡ self.old) }
        ensures memory { IfErr result (λ refusal. refusal ≡ Refusal.NoMemory) }
    {
        Core::remove(self, client, key)
    }

    fn find(&mut self, client: u8, key: &Key<A>) -> Result<Found<A>, Refusal>
        ensures ok { IfOk result (λ found. IsCall (find_step client key.now self.old.cache) (found_answer found) self.old self.new) }
        ensures err { OnErr result (self.new ≡ self.old) }
        ensures memory { IfErr result (λ refusal. refusal ≡ Refusal.NoMemory) }
    {
        Core::find(self, client, key)
    }

    fn take_reply(&mut self, call: u64) -> Result<Reply<A>, Refusal>
        ensures ok { IfOk result (λ reply. IsCall (reply_step call self.old.cache) (Replied (reply_of reply)) self.old self.new) }
        ensures err { OnErr result (self.new ≡ self.old) }
        ensures why { IfErr result (λ refusal. IsReason (reply_step call self.old.cache).answer refusal) }
    {
        Core::take_reply(self, call)
    }

    fn writer_has_work(&mut self) -> Result<bool, Refusal>
        ensures ok { IfOk result (λ has. has ≡ is_work (writer_step self.old.cache).answer) }
        ensures same { self.new ≡ self.old }
        ensures memory { IfErr result (λ refusal. refusal ≡ Refusal.NoMemory) }
    {
        Core::writer_has_work(self)
    }

    fn filler_has_work(&mut self) -> Result<bool, Refusal>
        ensures ok { IfOk result (λ has. has ≡ is_work (filler_step self.old.cache).answer) }
        ensures same { self.new ≡ self.old }
        ensures memory { IfErr result (λ refusal. refusal ≡ Refusal.NoMemory) }
    {
        Core::filler_has_work(self)
    }

    fn writer_take(&mut self) -> Result<Take<A>, Refusal>
        ensures ok { IfOk result (λ take. IsCall (writer_step self.old.cache) (Took (take_of take)) self.old self.new) }
        ensures err { OnErr result (self.new ≡ self.old) }
        ensures memory { IfErr result (λ refusal. refusal ≡ Refusal.NoMemory) }
    {
        Core::writer_take(self)
    }

    fn filler_take(&mut self) -> Result<Take<A>, Refusal>
        ensures ok { IfOk result (λ take. IsCall (filler_step self.old.cache) (Took (take_of take)) self.old self.new) }
        ensures err { OnErr result (self.new ≡ self.old) }
        ensures memory { IfErr result (λ refusal. refusal ≡ Refusal.NoMemory) }
    {
        Core::filler_take(self)
    }

    fn reclaim(&mut self) -> Result<Option<u32>, Refusal>
        ensures ok { IfOk result (λ region. IsCall (reclaim_step self.old.cache) (Reclaimed region) self.old self.new) }
        ensures err { OnErr result (self.new ≡ self.old) }
        ensures memory { IfErr result (λ refusal. refusal ≡ Refusal.NoMemory) }
    {
        Core::reclaim(self)
    }
}

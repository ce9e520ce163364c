// The calls of workers.
ghost use Rattle.std.specs.Prelude.{◌≡◌, IfOk, OnErr, IfErr};
ghost use Rattle.hc_machine.specs.Cache.{Took, Reclaimed};
ghost use Rattle.hc_machine.specs.Workers.{writer_take as writer_step, filler_take as filler_step, reclaim as reclaim_step};
ghost use Rattle.hc_nvm.specs.Seen.{take_of};
ghost use Rattle.hc_core.specs.Answers.{is_work};
ghost use Rattle.hc_core.specs.Logged.{IsCall};
ghost use Rattle.hc_leased.specs.Leased.{SameLeases};
ghost use Rattle.hc_machine.specs.Call.{Writes, Fills, Reclaims};
ghost use Rattle.hc_leased.specs.Runs.{Does, Looks};

use crate::cache::Calls;
use crate::leased::Leased;
use hc_nvm::Take;
use hc_types::Refusal;
use std::alloc::Allocator;

impl<C: Calls<A>, A: Allocator + Clone + Copy> Leased<C, A> {
    /// As `Core::writer_has_work`.
    pub fn writer_has_work(&mut self) -> Result<bool, Refusal>
        ensures ok { IfOk result (λ has. has ≡ is_work (writer_step self.old.logged.cache).answer) }
        ensures same { self.new ≡ self.old }
        ensures memory { IfErr result (λ refusal. refusal ≡ Refusal.NoMemory) }
    {
        self.cache.writer_has_work()
    }

    /// As `Core::filler_has_work`.
    pub fn filler_has_work(&mut self) -> Result<bool, Refusal>
        ensures ok { IfOk result (λ has. has ≡ is_work (filler_step self.old.logged.cache).answer) }
        ensures same { self.new ≡ self.old }
        ensures memory { IfErr result (λ refusal. refusal ≡ Refusal.NoMemory) }
    {
        self.cache.filler_has_work()
    }

    /// As `Core::writer_take`.
    pub fn writer_take(&mut self) -> Result<Take<A>, Refusal>
        ensures ok { IfOk result (λ take. IsCall (writer_step self.old.logged.cache) (Took (take_of take)) self.old.logged self.new.logged) }
        ensures does { IfOk result (λ take. Does (Looks Writes (Took (take_of take))) self.old self.new) }
        ensures leases { SameLeases self.old self.new }
        ensures err { OnErr result (self.new ≡ self.old) }
        ensures memory { IfErr result (λ refusal. refusal ≡ Refusal.NoMemory) }
    {
        self.cache.writer_take()
    }

    /// As `Core::filler_take`. Adds that waited may store here: they were noted as they began to wait.
    pub fn filler_take(&mut self) -> Result<Take<A>, Refusal>
        ensures ok { IfOk result (λ take. IsCall (filler_step self.old.logged.cache) (Took (take_of take)) self.old.logged self.new.logged) }
        ensures does { IfOk result (λ take. Does (Looks Fills (Took (take_of take))) self.old self.new) }
        ensures leases { SameLeases self.old self.new }
        ensures err { OnErr result (self.new ≡ self.old) }
        ensures memory { IfErr result (λ refusal. refusal ≡ Refusal.NoMemory) }
    {
        self.cache.filler_take()
    }

    /// As `Core::reclaim`.
    pub fn reclaim(&mut self) -> Result<Option<u32>, Refusal>
        ensures ok { IfOk result (λ region. IsCall (reclaim_step self.old.logged.cache) (Reclaimed region) self.old.logged self.new.logged) }
        ensures does { IfOk result (λ region. Does (Looks Reclaims (Reclaimed region)) self.old self.new) }
        ensures leases { SameLeases self.old self.new }
        ensures err { OnErr result (self.new ≡ self.old) }
        ensures memory { IfErr result (λ refusal. refusal ≡ Refusal.NoMemory) }
    {
        self.cache.reclaim()
    }
}

// Calls wait for a key from flash, and wait no longer.
ghost use Rattle.std.specs.Prelude.{◌≡◌, ◌≤◌, ◌+◌, ◌∷◌, [], option_map, IfOk, OnOk, OnErr, IfErr};
ghost use Rattle.hc_machine.specs.Nvm.{Fill, fill_at, joined_by, without_fill};

use crate::nvm::Nvm;
use hc_types::Key;
use hc_waiting::Waiter;
use std::alloc::Allocator;

/// The waiter alone. When out of memory it comes back.
fn alone<A: Allocator>(alloc: A, waiter: Waiter<A>) -> Result<Vec<Waiter<A>, A>, Waiter<A>>
    ensures ok { IfOk result (λ waiters. waiters.items ≡ waiter ∷ []) }
    ensures given_back { IfErr result (λ back. back ≡ waiter) }
{
    match Vec::with_capacity(alloc, 1) {
        Ok(mut waiters) => {
            waiters.push_reserved(waiter);
            Ok(waiters)
        }
        Err(_) => Err(waiter),
    }
}

impl<A: Allocator + Clone + Copy> Nvm<A> {
    /// One call more waits for the key. When out of memory, nothing changed and the call comes back. `copy` is the key once
    /// more.
    pub fn wait(&mut self, copy: Key<A>, key: Key<A>, waiter: Waiter<A>) -> Result<(), Waiter<A>>
        requires copy { copy ≡ key }
        requires fills { 1 ≤ self.old.fills }
        ensures ok { OnOk result (self.new.nvm ≡ record self.old.nvm { fills = joined_by key waiter self.old.nvm.fills }) }
        ensures err { OnErr result (self.new.nvm ≡ self.old.nvm) }
        ensures given_back { IfErr result (λ back. back ≡ waiter) }
        ensures puts { self.new.puts ≡ self.old.puts }
        ensures stones { self.new.stones ≡ self.old.stones }
        ensures fills { self.old.fills ≤ self.new.fills + 1 }
    {
        if self.fills.contains(&key) {
            drop(copy);
            let joined = self.fills.join(&key, waiter);
            drop(key);
            return joined;
        }
        match alone(*self.jobs.allocator(), waiter) {
            Ok(waiters) => {
                self.fills.open(copy, key, waiters);
                Ok(())
            }
            Err(waiter) => {
                drop(copy);
                drop(key);
                Err(waiter)
            }
        }
    }

    /// The key's fill goes, and what its job brings is nobody's. Answers the calls that waited for it, in order.
    #[must_use]
    pub fn end_fill(&mut self, key: &Key<A>) -> Option<Vec<Waiter<A>, A>>
        ensures nvm { self.new.nvm ≡ record self.old.nvm { fills = without_fill key.now self.old.nvm.fills } }
        ensures waiters { option_map (λ waiters. waiters.items) result ≡ option_map (λ (fill : Fill). fill.waiters) (fill_at key.now self.old.nvm.fills) }
        ensures puts { self.new.puts ≡ self.old.puts }
        ensures stones { self.new.stones ≡ self.old.stones }
        ensures fills { self.old.fills ≤ self.new.fills }
    {
        self.fills.remove(key)
    }
}

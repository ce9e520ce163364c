// Handles that the cache knows, and those that are given up.
ghost use Rattle.std.specs.Prelude.{◌≡◌, OnOk, OnErr, IfErr};
ghost use Rattle.hc_types.specs.declared.refusal.Refusal.TheVariants.{ForeignHandle};
ghost use Rattle.hc_invariant.specs.Structure.{Structured};
ghost use Rattle.hc_machine.specs.Cache.{Discarded, Refused};
ghost use Rattle.hc_machine.specs.Calls.{is_known as is_known_seen, discard as discard_step};
ghost use Rattle.hc_state.specs.wait.Begin.{keeps_in};
ghost use Rattle.hc_state.specs.Whole.{IsReady, IsStep, Stays, nvm_of};

use crate::state::State;
use crate::tells;
use hc_history::{Note, Notes};
use hc_memory::{Blank, Sealed};
use hc_nvm::Nvm;
use hc_types::Key;
use std::alloc::Allocator;

/// Whether an add that waits for this key keeps the charge with this number.
fn keeps<A: Allocator + Clone + Copy>(nvm: &Option<Nvm<A>>, key: &Key<A>, number: u64) -> bool
    ensures { result ≡ keeps_in (nvm_of nvm.now) key.now number }
{
    match nvm {
        Some(nvm) => nvm.keeps(key, number),
        None => false,
    }
}

impl<N: Notes<Note<A>>, A: Allocator + Clone + Copy> State<N, A> {
    /// Whether the handle is one of this cache's: a charge is open here with its number, pool, key and length, which no add
    /// that waits keeps.
    #[must_use]
    pub fn is_known(&self, sealed: &Sealed<A>) -> bool
        requires structured { Structured self.now.cache }
        ensures { result ≡ is_known_seen self.now.cache sealed.now }
    {
        let is_open = self.pools.place_of(sealed).is_some();
        is_open && !keeps(&self.nvm, sealed.key(), sealed.number())
    }

    /// Gives up an item that wasn't inserted; its charge is free. Refused with `ForeignHandle` alone, where the handle
    /// isn't one of this cache's, and then it comes back.
    pub fn discard(&mut self, sealed: Sealed<A>) -> Result<(), Sealed<A>>
        requires structured { Structured self.old.cache }
        requires ready { IsReady self.old }
        ensures ok { OnOk result (IsStep (discard_step sealed self.old.cache) Discarded self.old self.new) }
        ensures foreign { OnErr result ((discard_step sealed self.old.cache).answer ≡ Refused ForeignHandle) }
        ensures err { OnErr result (Stays self.old self.new) }
        ensures sealed_returned { IfErr result (λ back. back ≡ sealed) }
    {
        if keeps(&self.nvm, sealed.key(), sealed.number()) {
            return Err(sealed);
        }
        let charge = self.pools.discard(sealed)?;
        tells::freed(&mut self.notes, Some(charge));
        Ok(())
    }

    /// Gives up an item that wasn't sealed; its charge is free. Refused with `ForeignHandle` alone, where the handle
    /// isn't one of this cache's, and then it comes back.
    pub fn discard_blank(&mut self, blank: Blank<A>) -> Result<(), Blank<A>>
        requires structured { Structured self.old.cache }
        requires ready { IsReady self.old }
        ensures ok { OnOk result (IsStep (discard_step blank self.old.cache) Discarded self.old self.new) }
        ensures foreign { OnErr result ((discard_step blank self.old.cache).answer ≡ Refused ForeignHandle) }
        ensures err { OnErr result (Stays self.old self.new) }
        ensures blank_returned { IfErr result (λ back. back ≡ blank) }
    {
        if keeps(&self.nvm, blank.key(), blank.number()) {
            return Err(blank);
        }
        let charge = self.pools.discard_blank(blank)?;
        tells::freed(&mut self.notes, Some(charge));
        Ok(())
    }
}

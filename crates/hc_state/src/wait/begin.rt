// Calls that wait for a key from flash.
ghost use Rattle.std.specs.Prelude.{◌≡◌, ◌≤◌, ◌&&◌, not, is_some, OnOk, IfOk, OnErr, IfErr};
ghost use Rattle.hc_memory.specs.Memory.{linked_at};
ghost use Rattle.hc_machine.specs.Nvm.{joined_by};
ghost use Rattle.hc_machine.specs.Cache.{owed_anew};
ghost use Rattle.hc_machine.specs.Calls.{waiting_at, must_wait as must_wait_seen, must_wait_in as may_be_on_flash};
ghost use Rattle.hc_waiting.specs.Replies.{AreBefore};
ghost use Rattle.hc_nvm.specs.Starting.{KeepsRoom};
ghost use Rattle.hc_state.specs.wait.Begin.{owed_where, joined_where};
ghost use Rattle.hc_state.specs.Whole.{nvm_of, spare_of};

use crate::state::State;
use hc_history::{Note, Notes};
use hc_memory::Pools;
use hc_nvm::Nvm;
use hc_types::Key;
use hc_waiting::{Replies, Waiter};
use std::alloc::{AllocError, Allocator};

/// Whether an item is linked under the key, expired or not.
pub(crate) fn is_linked<A: Allocator>(pools: &Pools<A>, key: &Key<A>) -> bool
    ensures { result ≡ is_some (linked_at key.now pools.now.pools) }
{
    pools.peek(key).is_some()
}

/// Room for one more key for which calls wait, and two copies of the key.
fn keys_for<A: Allocator + Clone + Copy>(
    nvm: &mut Nvm<A>,
    key: &Key<A>,
) -> Result<(Key<A>, Key<A>), AllocError>
    ensures first { IfOk result (λ keys. keys.0 ≡ key.now) }
    ensures second { IfOk result (λ keys. keys.1 ≡ key.now) }
    ensures room { OnOk result (1 ≤ nvm.new.fills) }
    ensures same { nvm.new.nvm ≡ nvm.old.nvm }
    ensures rooms { KeepsRoom nvm.old nvm.new }
{
    nvm.reserve(0, 0, 1)?;
    let copy = key.clone()?;
    let own = key.clone()?;
    Ok((copy, own))
}

/// One call more waits for the key, and a reply is owed to it. When out of memory, nothing changed and the call comes back.
#[tactic(auto, using(crate::proofs::wait::Owed::less_anew))]
fn wait_on<A: Allocator + Clone + Copy>(
    nvm: &mut Nvm<A>,
    replies: &mut Replies<A>,
    key: &Key<A>,
    waiter: Waiter<A>,
) -> Result<(), Waiter<A>>
    requires newest { AreBefore waiter.call replies.old }
    ensures ok { OnOk result (nvm.new.nvm ≡ record nvm.old.nvm { fills = joined_by key.now waiter nvm.old.nvm.fills }) }
    ensures owed { OnOk result (replies.new ≡ owed_anew waiter.call replies.old) }
    ensures err { OnErr result ((nvm.new.nvm ≡ nvm.old.nvm) × (replies.new ≡ replies.old)) }
    ensures given_back { IfErr result (λ back. back ≡ waiter) }
    ensures puts { nvm.old.puts ≤ nvm.new.puts }
    ensures stones { nvm.old.stones ≤ nvm.new.stones }
{
    let call = waiter.call;
    let (copy, own) = match keys_for(nvm, key) {
        Ok(keys) => keys,
        Err(_) => return Err(waiter),
    };
    match replies.expect(call) {
        Ok(()) => {}
        Err(_) => {
            drop(copy);
            drop(own);
            return Err(waiter);
        }
    }
    match nvm.wait(copy, own, waiter) {
        Ok(()) => Ok(()),
        Err(waiter) => {
            replies.forget(call);
            Err(waiter)
        }
    }
}

/// One call more waits for the key, and a reply is owed to it, where there is flash. When out of memory, nothing changed and
/// the call comes back.
pub(crate) fn wait<A: Allocator + Clone + Copy>(
    nvm: &mut Option<Nvm<A>>,
    replies: &mut Replies<A>,
    key: &Key<A>,
    waiter: Waiter<A>,
) -> Result<(), Waiter<A>>
    requires newest { AreBefore waiter.call replies.old }
    ensures nvm { OnOk result (nvm_of nvm.new ≡ joined_where (nvm_of nvm.old) key.now waiter) }
    ensures owed { OnOk result (replies.new ≡ owed_where (nvm_of nvm.old) waiter.call replies.old) }
    ensures err { OnErr result ((nvm_of nvm.new ≡ nvm_of nvm.old) × (replies.new ≡ replies.old)) }
    ensures given_back { IfErr result (λ back. back ≡ waiter) }
    ensures puts { (spare_of nvm.old).puts ≤ (spare_of nvm.new).puts }
    ensures stones { (spare_of nvm.old).stones ≤ (spare_of nvm.new).stones }
{
    match nvm {
        Some(nvm) => wait_on(nvm, replies, key, waiter),
        None => {
            drop(waiter);
            Ok(())
        }
    }
}

/// Whether the key, which isn't linked, has no put that waits and may be on flash.
fn must_wait_in<A: Allocator + Clone + Copy>(nvm: &Option<Nvm<A>>, key: &Key<A>) -> bool
    ensures { result ≡ (not (is_some (waiting_at (nvm_of nvm.now) key.now)) && may_be_on_flash (nvm_of nvm.now) key.now) }
{
    match nvm {
        Some(nvm) => !nvm.waits_to_be_put(key) && nvm.must_wait(key),
        None => false,
    }
}

impl<N: Notes<Note<A>>, A: Allocator + Clone + Copy> State<N, A> {
    /// Whether nothing in memory tells what the key has, and flash may: then a find or an add of it waits.
    #[must_use]
    pub fn must_wait(&self, key: &Key<A>) -> bool
        ensures { result ≡ must_wait_seen self.now.cache key.now }
    {
        !is_linked(&self.pools, key) && must_wait_in(&self.nvm, key)
    }
}

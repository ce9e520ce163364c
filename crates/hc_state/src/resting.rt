// A cache at rest: what is kept of it where it is closed, and how it goes on.
ghost use Rattle.std.specs.Prelude.{◌≡◌, true, None, drop, map, option_map, slice_get};
ghost use Rattle.std.specs.Bool.{Decides};
ghost use Rattle.std.specs.Option.{option_copied};
ghost use Rattle.hc_types.specs.FlashEntry.{entry_of};
ghost use Rattle.hc_memory.specs.Resting.{after_hand_out};
ghost use Rattle.hc_machine.specs.Calls.{queue_of};
ghost use Rattle.hc_machine.specs.items.Items.{items_of};
ghost use Rattle.hc_invariant.specs.Structure.{Structured, stones_of};
ghost use Rattle.hc_state.specs.Whole.{nvm_of};
ghost use Rattle.hc_state.specs.Resting.{is_at_rest, less_put, less_stone, IsSized, ComesBack};

use crate::state::State;
use hc_history::Listener;
use hc_memory::{Item, Pools};
use hc_nvm::Nvm;
use hc_types::{Config, Entry, Key, PoolSize};
use hc_waiting::Replies;
use std::alloc::{Allocator, Global};
use std::marker::Model;

/// What is kept of a cache that was closed at rest. Contracts see it as that cache.
///
/// Its items, its puts and the keys of its tombstones are handed out one after another, each as it leaves: so that nothing
/// stands in memory twice.
#[derive(Drop)]
pub struct Parts<A: Allocator = Global> {
    pub(crate) config: Config<A>,
    pub(crate) pools: Pools<A>,
    // seconds
    pub(crate) clock: u64,
    pub(crate) calls: u64,
    pub(crate) nvm: Option<Nvm<A>>,
}

impl<A: Allocator> Model for Parts<A> {
    ghost use Rattle.std.specs.Prelude.{◌≡◌, true};
    ghost use Rattle.hc_machine.specs.Cache.{Cache};
    ghost use Rattle.hc_state.specs.Whole.{nvm_of};
    ghost use Rattle.hc_state.specs.Resting.{of_parts, is_at_rest};

    ghost Value = { Cache };

    ghost view = { λ p. of_parts p.config p.pools p.clock p.calls (nvm_of p.nvm) };

    ghost invariant = { λ p. is_at_rest (of_parts p.config p.pools p.clock p.calls (nvm_of p.nvm)) ≡ true };
}

/// Whether the pools have these sizes, in their order.
fn have_sizes<A: Allocator>(pools: &Pools<A>, sizes: &[PoolSize]) -> bool
    ensures { Decides result (map (λ pool. pool.size) pools.now.pools ≡ sizes.now) }
{
    let count = pools.len();
    if sizes.len() != count {
        return false;
    }
    for i in 0..count {
        let usage = pools.usage(i as u8);
        if usage.limits != sizes[i] {
            return false;
        }
    }
    true
}

impl<A: Allocator> Parts<A> {
    /// The configuration that the cache was made with.
    #[must_use]
    pub fn config(&self) -> &Config<A>
        ensures { result.now ≡ self.now.config }
    {
        &self.config
    }

    /// The moment that held, in seconds.
    #[must_use]
    pub fn now(&self) -> u64
        ensures { result ≡ self.now.now }
    {
        self.clock
    }

    /// How many calls were begun.
    #[must_use]
    pub fn calls(&self) -> u64
        ensures { result ≡ self.now.calls }
    {
        self.calls
    }

    /// Its pools: how many charges there were, and the items that weren't handed out yet.
    #[must_use]
    pub fn pools(&self) -> &Pools<A>
        ensures { result.now ≡ self.now.memory }
    {
        &self.pools
    }

    /// Both engines, how many jobs there were, and what wasn't handed out yet, where there is flash.
    #[must_use]
    pub fn nvm(&self) -> Option<&Nvm<A>>
        ensures { nvm_of (option_copied result) ≡ self.now.nvm }
    {
        match &self.nvm {
            Some(nvm) => Some(nvm),
            None => None,
        }
    }

    /// Whether the pools have the sizes that the configuration says, and the same flash stands behind them, as in each cache that
    /// was made by its configuration. Each pool is looked at, and none of its items.
    #[must_use]
    pub fn is_sized(&self) -> bool
        ensures { Decides result (IsSized self.now) }
    {
        let flash = *self.pools.flash() == self.config.flash;
        let sizes = have_sizes(&self.pools, self.config.pools.as_slice());
        flash && sizes
    }

    /// Takes both engines out, with the puts and the tombstones that weren't handed out yet, where there is flash. What is left
    /// are the parts of a cache without it, which still hand out their items. Nothing is copied, and no memory is taken.
    pub fn take_nvm(&mut self) -> Option<Nvm<A>>
        ensures nvm { nvm_of result ≡ self.old.nvm }
        ensures cache { self.new ≡ record self.old { nvm = None } }
    {
        self.nvm.take()
    }

    /// Takes the first of all items out: of the first pool that has one, that which was used longest ago. Nothing is refused.
    pub fn hand_out_item(&mut self) -> Option<Item<A>>
        ensures item { result ≡ slice_get (items_of self.old.memory.pools) 0 }
        ensures cache { self.new ≡ record self.old { memory = after_hand_out self.old.memory } }
        ensures rest { items_of self.new.memory.pools ≡ drop 1 (items_of self.old.memory.pools) }
    {
        self.pools.hand_out()
    }
}

impl<A: Allocator + Clone + Copy> Parts<A> {
    /// Takes the put out that waits longest. Nothing is refused.
    pub fn hand_out_put(&mut self) -> Option<Entry<A>>
        ensures put { option_map entry_of result ≡ slice_get (queue_of self.old.nvm) 0 }
        ensures cache { self.new ≡ record self.old { nvm = less_put self.old.nvm } }
    {
        match &mut self.nvm {
            Some(nvm) => nvm.hand_out_put(),
            None => None,
        }
    }

    /// Takes the tombstone out that was made before all others, and answers its key. Nothing is refused.
    pub fn hand_out_tombstone(&mut self) -> Option<Key<A>>
        ensures key { result ≡ option_map (λ stone. stone.key) (slice_get (stones_of self.old.nvm) 0) }
        ensures cache { self.new ≡ record self.old { nvm = less_stone self.old.nvm } }
    {
        match &mut self.nvm {
            Some(nvm) => nvm.hand_out_tombstone(),
            None => None,
        }
    }

    /// The parts are at rest. The items that they hand out make the cache again, where a `PartsBuilder` takes them in behind what
    /// waits for flash: it refuses none of them but for want of memory. So do the puts and the tombstones by `Nvm::comes_back`.
    /// The builder makes its pools by the configuration, so theirs have to be of its sizes, which `is_sized` tells. A law to call
    /// where a proof asks for it. It does nothing.
    pub fn comes_back(&self)
        ensures rests { is_at_rest self.now ≡ true }
        ensures items { Structured self.now → IsSized self.now → ComesBack self.now }
    {
        let _made = self.pools.made();
    }
}

impl<N: Listener, A: Allocator + Clone + Copy> State<N, A> {
    /// Whether no reply is owed, no item is being written, no job is out, and no call waits. Puts and tombstones may wait.
    #[must_use]
    pub fn is_at_rest(&self) -> bool
        ensures { result ≡ is_at_rest self.now.cache }
    {
        let flash = match &self.nvm {
            Some(nvm) => nvm.is_at_rest(),
            None => true,
        };
        let written = self.pools.open_charges() == 0;
        let answered = self.replies.is_empty();
        flash && (written && answered)
    }

    /// What is kept of the cache, and who was told the notes.
    pub fn into_parts(self) -> (Parts<A>, N)
        requires { is_at_rest self.cache ≡ true }
        ensures parts { result.0 ≡ self.cache }
        ensures log { N.told result.1 ≡ self.log }
    {
        let State {
            config,
            pools,
            clock,
            calls,
            replies: _,
            nvm,
            notes,
        } = self;
        let parts = Parts {
            config,
            pools,
            clock,
            calls,
            nvm,
        };
        (parts, notes)
    }

    /// A cache that goes on where one was closed, and tells `notes` what it does from here on.
    pub fn from_parts(alloc: A, parts: Parts<A>, notes: N) -> State<N, A>
        ensures cache { result.cache ≡ parts }
        ensures rests { is_at_rest result.cache ≡ true }
        ensures log { result.log ≡ N.told notes }
    {
        let Parts {
            config,
            pools,
            clock,
            calls,
            nvm,
        } = parts;
        State {
            config,
            pools,
            clock,
            calls,
            replies: Replies::new(alloc),
            nvm,
            notes,
        }
    }
}

// What a cache tells of itself, and what ends its log.
ghost use Rattle.std.specs.Prelude.{◌≡◌, ◌==◌, length, option_map};
ghost use Rattle.std.specs.List.{list_all};
ghost use Rattle.std.specs.Option.{option_copied};
ghost use Rattle.hc_history.specs.Told.{Log, IfLog, losses_taken};
ghost use Rattle.hc_machine.specs.Calls.{queue_of};
ghost use Rattle.hc_machine.specs.Nvm.{is_job};
ghost use Rattle.hc_machine.specs.Quiet.{jobs_in};
ghost use Rattle.hc_machine.specs.World.{order_in};
ghost use Rattle.hc_flash.specs.Seen.{order_of};
ghost use Rattle.hc_theorem.specs.runs.Lock.{Guarded};

use crate::cache::Core;
use hc_flash::Order;
use hc_history::{Counting, Kept, Listener};
use hc_memory::Pools;
use hc_types::Config;
use std::alloc::Allocator;

impl<N: Listener, A: Allocator> Core<N, A> {
    /// How many calls were begun: inserts, finds and removes that weren't refused.
    #[must_use]
    pub fn calls(&self) -> u64
        ensures { result ≡ self.now.cache.calls }
    {
        self.state.calls()
    }

    /// The moment that holds, in seconds.
    #[must_use]
    pub fn now(&self) -> u64
        ensures { result ≡ self.now.cache.now }
    {
        self.state.now()
    }

    /// The configuration that it was made with.
    #[must_use]
    pub fn config(&self) -> &Config<A>
        ensures { result.now ≡ self.now.cache.config }
    {
        self.state.config()
    }

    /// Its pools: what is charged to each, and what can be found.
    #[must_use]
    pub fn pools(&self) -> &Pools<A>
        ensures { result.now ≡ self.now.cache.memory }
    {
        self.state.pools()
    }

    /// Who was told the notes. A log that is kept is legal where it is honest, and its books are the cache's: that is, as
    /// long as no read of a page answers other bytes than those that were written there last.
    #[must_use]
    pub fn notes(&self) -> &N
        ensures log { N.told result.now ≡ self.now.log }
        ensures guarded { IfLog self.now.log (λ log. Guarded self.now.cache.config log self.now.cache) }
    {
        self.state.notes()
    }
}

impl<N: Listener, A: Allocator + Clone + Copy> Core<N, A> {
    /// The device operation for which the job with this number waits.
    #[must_use]
    pub fn order(&self, job: u64) -> Option<&Order<A>>
        ensures { option_map order_of (option_copied result) ≡ order_in self.now.cache.nvm job }
    {
        self.state.order(job)
    }

    /// Whether no job is under way but the one with this number.
    #[must_use]
    pub fn is_alone(&self, job: u64) -> bool
        ensures { result ≡ list_all (is_job job) (jobs_in self.now.cache.nvm) }
    {
        self.state.is_alone(job)
    }

    /// Whether no job is under way.
    #[must_use]
    pub fn is_idle(&self) -> bool
        ensures { result ≡ (length (jobs_in self.now.cache.nvm) == 0) }
    {
        self.state.is_idle()
    }

    /// How many values wait to be written to flash.
    #[must_use]
    pub fn queue_len(&self) -> usize
        ensures { result ≡ length (queue_of self.now.cache.nvm) }
    {
        self.state.queue_len()
    }
}

impl<A: Allocator> Core<Counting<A>, A> {
    /// The losses that the log counts are taken, and kept no longer.
    pub fn forget_losses(&mut self)
        ensures { self.new ≡ record self.old { log = losses_taken self.old.log } }
    {
        self.state.forget_losses();
    }
}

impl<A: Allocator> Core<Kept<A>, A> {
    /// The log, which is legal where it is honest, and outlives the cache. The items are dropped.
    #[must_use]
    pub fn into_notes(self) -> Kept<A>
        ensures log { Log result.notes.items ≡ self.log }
        ensures guarded { Guarded self.cache.config result.notes.items self.cache }
    {
        self.into_state().into_notes()
    }
}

// What a cache tells of itself between two calls, and what ends its log.
ghost use Rattle.std.specs.Prelude.{◌≡◌, ◌≤◌, ◌==◌, length, option_map};
ghost use Rattle.std.specs.List.{list_all};
ghost use Rattle.std.specs.Option.{option_copied};
ghost use Rattle.hc_history.specs.Told.{Log, losses_taken};
ghost use Rattle.hc_machine.specs.Calls.{queue_of};
ghost use Rattle.hc_machine.specs.Nvm.{is_job};
ghost use Rattle.hc_machine.specs.Quiet.{jobs_in};
ghost use Rattle.hc_machine.specs.World.{order_in};
ghost use Rattle.hc_flash.specs.Seen.{order_of};

use crate::state::State;
use hc_flash::Order;
use hc_history::{Counting, Kept, Listener};
use hc_memory::Pools;
use hc_types::Config;
use std::alloc::Allocator;

impl<N: Listener, A: Allocator> State<N, A> {
    /// How many calls were begun: inserts, finds and removes that weren't refused.
    #[must_use]
    pub fn calls(&self) -> u64
        ensures { result ≡ self.now.cache.calls }
    {
        self.calls
    }

    /// The moment that holds, in seconds.
    #[must_use]
    pub fn now(&self) -> u64
        ensures { result ≡ self.now.cache.now }
    {
        self.clock
    }

    /// The configuration that it was made with.
    #[must_use]
    pub fn config(&self) -> &Config<A>
        ensures { result.now ≡ self.now.cache.config }
    {
        &self.config
    }

    /// Its pools: what is charged to each, and what can be found.
    #[must_use]
    pub fn pools(&self) -> &Pools<A>
        ensures { result.now ≡ self.now.cache.memory }
    {
        &self.pools
    }

    /// Who was told the notes.
    #[must_use]
    pub fn notes(&self) -> &N
        ensures { N.told result.now ≡ self.now.log }
    {
        &self.notes
    }
}

impl<N: Listener, A: Allocator + Clone + Copy> State<N, A> {
    /// The device operation for which the job with this number waits.
    #[must_use]
    pub fn order(&self, job: u64) -> Option<&Order<A>>
        ensures { option_map order_of (option_copied result) ≡ order_in self.now.cache.nvm job }
    {
        match &self.nvm {
            Some(nvm) => nvm.order(job),
            None => None,
        }
    }

    /// Whether no job is under way but the one with this number.
    #[must_use]
    pub fn is_alone(&self, job: u64) -> bool
        ensures { result ≡ list_all (is_job job) (jobs_in self.now.cache.nvm) }
    {
        match &self.nvm {
            Some(nvm) => nvm.is_alone(job),
            None => true,
        }
    }

    /// Whether no job is under way.
    #[must_use]
    pub fn is_idle(&self) -> bool
        ensures { result ≡ (length (jobs_in self.now.cache.nvm) == 0) }
    {
        match &self.nvm {
            Some(nvm) => nvm.is_idle(),
            None => true,
        }
    }

    /// How many values wait to be written to flash.
    #[must_use]
    pub fn queue_len(&self) -> usize
        ensures { result ≡ length (queue_of self.now.cache.nvm) }
    {
        match &self.nvm {
            Some(nvm) => nvm.how_many_puts(),
            None => 0,
        }
    }
}

impl<A: Allocator> State<Counting<A>, A> {
    /// The losses that the log counts are taken, and kept no longer.
    pub fn forget_losses(&mut self)
        ensures cache { self.new.cache ≡ self.old.cache }
        ensures log { self.new.log ≡ losses_taken self.old.log }
        ensures notes { self.old.notes ≤ self.new.notes }
    {
        self.notes.forget_losses();
    }
}

impl<A: Allocator> State<Kept<A>, A> {
    /// The log, which outlives the cache. The rest is dropped.
    #[must_use]
    pub fn into_notes(self) -> Kept<A>
        ensures { Log result.notes.items ≡ self.log }
    {
        let State {
            config: _,
            pools: _,
            clock: _,
            calls: _,
            replies: _,
            nvm: _,
            notes,
        } = self;
        notes
    }
}

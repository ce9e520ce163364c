// What a caller asks before it calls: nothing changes, and only the jobs are walked, which are few.
ghost use Rattle.std.specs.Prelude.{◌≡◌, ◌≤◌, ◌==◌, Some, length, is_some, option_map, IfOk, OnOk};
ghost use Rattle.std.specs.List.{list_all, list_any};
ghost use Rattle.std.specs.Option.{option_copied};
ghost use Rattle.hc_types.specs.FlashEntry.{entry_of};
ghost use Rattle.hc_engines.specs.pair.Pair.{could_have as could_have_seen, hash_in, is_indexed as is_indexed_seen};
ghost use Rattle.hc_machine.specs.Nvm.{Job as Waits, fill_at, is_job, job_at, put_at, puts as puts_seen, is_buried as is_buried_seen, is_due as is_due_seen, is_written_now as is_written_now_seen, may_come as may_come_seen};
ghost use Rattle.hc_machine.specs.Calls.{must_wait_in};
ghost use Rattle.hc_nvm.specs.Asked.{calls_of};
ghost use Rattle.hc_flash.specs.Seen.{order_of};
ghost use Rattle.hc_waiting.specs.Fills.{is_kept_in};

use crate::finishing::{has_number, place_of};
use crate::jobs::{Job, Task};
use crate::nvm::Nvm;
use hc_flash::Order;
use hc_types::{Entry, FlashConfig, Key};
use hc_waiting::Waiter;
use std::alloc::{AllocError, Allocator};

/// Whether the job writes a small put of this key.
fn puts<A: Allocator>(job: &Job<A>, key: &Key<A>) -> bool
    ensures { result ≡ puts_seen key.now job.now.task }
{
    match &job.task {
        Task::Put(put) => *put == *key,
        _ => false,
    }
}

/// Whether one of the jobs writes a small put of this key.
fn one_puts<A: Allocator>(jobs: &[Job<A>], key: &Key<A>) -> bool
    ensures { result ≡ list_any (λ job. puts_seen key.now job.task) jobs.now }
{
    jobs.iter().any(|job| puts(job, key))
}

/// What the job with this number waits for.
fn order_in<A: Allocator>(jobs: &[Job<A>], number: u64) -> Option<&Order<A>>
    ensures { option_map order_of (option_copied result) ≡ option_map (λ (job : Waits). job.order) (job_at number jobs.now) }
{
    match place_of(jobs, number) {
        Some(at) => {
            let job = &jobs[at];
            Some(&job.order)
        }
        None => None,
    }
}

impl<A: Allocator + Clone + Copy> Nvm<A> {
    /// The configuration that all of it goes by.
    #[must_use]
    pub fn flash(&self) -> &FlashConfig
        ensures { result.now ≡ self.now.nvm.pair.small.flash }
    {
        self.pair.flash()
    }

    /// Whether the key could be on flash. Where not, no engine holds it. No page is read.
    #[must_use]
    pub fn could_have(&self, key: &Key<A>) -> bool
        ensures { result ≡ could_have_seen self.now.nvm.pair key.now }
    {
        self.pair.could_have(key)
    }

    /// Whether the key's kept hash leads into a region.
    #[must_use]
    pub fn is_indexed(&self, key: &Key<A>) -> bool
        ensures { result ≡ is_indexed_seen self.now.nvm.pair key.now }
    {
        self.pair.is_indexed(key)
    }

    /// The kept hash of a key.
    #[must_use]
    pub fn hash_of(&self, key: &Key<A>) -> u64
        ensures { result ≡ hash_in self.now.nvm.pair key.now }
    {
        self.pair.hash_of(key)
    }

    /// Whether a tombstone of the key stands: what flash has of it is stale.
    #[must_use]
    pub fn is_buried(&self, key: &Key<A>) -> bool
        ensures { result ≡ is_buried_seen self.now.nvm key.now }
    {
        self.tombstones.contains(key)
    }

    /// Whether a small put of the key is being written.
    #[must_use]
    pub fn is_written_now(&self, key: &Key<A>) -> bool
        ensures { result ≡ is_written_now_seen self.now.nvm key.now }
    {
        one_puts(&self.jobs, key)
    }

    /// Whether a tombstone is due for the key, once it is inserted or removed.
    #[must_use]
    pub fn is_due(&self, key: &Key<A>) -> bool
        ensures { result ≡ is_due_seen self.now.nvm key.now }
    {
        (self.pair.word_has(key) || self.is_written_now(key)) && !self.is_buried(key)
    }

    /// Whether the key may stand on flash, or is on its way there or back.
    #[must_use]
    pub fn may_come(&self, key: &Key<A>) -> bool
        ensures { result ≡ may_come_seen self.now.nvm key.now }
    {
        self.fills.contains(key) || self.is_written_now(key) || self.could_have(key)
    }

    /// Whether a call that finds nothing of the key in memory has to wait for flash.
    #[must_use]
    pub fn must_wait(&self, key: &Key<A>) -> bool
        ensures { result ≡ must_wait_in (Some self.now.nvm) key.now }
    {
        !self.is_buried(key) && self.may_come(key)
    }

    /// Whether an add that waits for this key keeps the charge with this number. It looks at the calls that wait for the key.
    #[must_use]
    pub fn keeps(&self, key: &Key<A>, number: u64) -> bool
        ensures { result ≡ is_kept_in number (fill_at key.now self.now.nvm.fills) }
    {
        self.fills.keeps(key, number)
    }

    /// Whether a put of the key waits.
    #[must_use]
    pub fn waits_to_be_put(&self, key: &Key<A>) -> bool
        ensures { result ≡ is_some (put_at key.now self.now.nvm.queue) }
    {
        self.queue.contains(key)
    }

    /// The put of the key that waits: a copy that shares its value. Refused only when out of memory.
    pub fn put(&self, key: &Key<A>) -> Result<Option<Entry<A>>, AllocError>
        ensures { IfOk result (λ put. option_map entry_of put ≡ put_at key.now self.now.nvm.queue) }
    {
        self.queue.value(key)
    }

    /// The second at which the key's put that waits expires (0: never).
    #[must_use]
    pub fn put_expiry(&self, key: &Key<A>) -> Option<u64>
        ensures { result ≡ option_map (λ put. put.expiry) (put_at key.now self.now.nvm.queue) }
    {
        self.queue.expiry(key)
    }

    /// Whether calls wait for the key.
    #[must_use]
    pub fn is_awaited(&self, key: &Key<A>) -> bool
        ensures { result ≡ is_some (fill_at key.now self.now.nvm.fills) }
    {
        self.fills.contains(key)
    }

    /// The calls that wait for the key, in order.
    #[must_use]
    pub fn waiters(&self, key: &Key<A>) -> &[Waiter<A>]
        ensures { result.now ≡ calls_of (fill_at key.now self.now.nvm.fills) }
    {
        match self.fills.waiters(key) {
            Some(waiters) => waiters.as_slice(),
            None => &[],
        }
    }

    /// The device operation for which the job with this number waits.
    #[must_use]
    pub fn order(&self, number: u64) -> Option<&Order<A>>
        ensures { option_map order_of (option_copied result) ≡ option_map (λ (job : Waits). job.order) (job_at number self.now.nvm.jobs) }
    {
        order_in(self.jobs.as_slice(), number)
    }

    /// Whether no job is under way but the one with this number.
    #[must_use]
    pub fn is_alone(&self, number: u64) -> bool
        ensures { result ≡ list_all (is_job number) self.now.nvm.jobs }
    {
        self.jobs.iter().all(|job| has_number(job, number))
    }

    /// Whether no job is under way.
    #[must_use]
    pub fn is_idle(&self) -> bool
        ensures { result ≡ (length self.now.nvm.jobs == 0) }
    {
        self.jobs.is_empty()
    }

    /// How many puts wait.
    #[must_use]
    pub fn how_many_puts(&self) -> usize
        ensures { result ≡ length self.now.nvm.queue }
    {
        self.queue.len()
    }

    /// How many tombstones stand.
    #[must_use]
    pub fn how_many_tombstones(&self) -> usize
        ensures { result ≡ length self.now.nvm.tombstones }
    {
        self.tombstones.len()
    }

    /// Makes room for so many more puts, tombstones and fills, and takes none away. Refused only when out of memory.
    pub fn reserve(&mut self, puts: usize, stones: usize, fills: usize) -> Result<(), AllocError>
        ensures same { self.new.nvm ≡ self.old.nvm }
        ensures puts { OnOk result (puts ≤ self.new.puts) }
        ensures stones { OnOk result (stones ≤ self.new.stones) }
        ensures fills { OnOk result (fills ≤ self.new.fills) }
        ensures more_puts { self.old.puts ≤ self.new.puts }
        ensures more_stones { self.old.stones ≤ self.new.stones }
        ensures more_fills { self.old.fills ≤ self.new.fills }
    {
        self.queue.reserve(puts)?;
        self.tombstones.reserve(stones)?;
        self.fills.reserve(fills)
    }
}

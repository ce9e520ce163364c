// A core that is told of no page but as it was written, as far as a digest tells.
ghost use Rattle.std.specs.Prelude.{◌≡◌, ◌<◌, ℕ, [], length, option_map, Some, None, IfOk, OnOk, IfErr, OnErr};
ghost use Rattle.std.specs.Option.{option_copied};
ghost use Rattle.hc_flash.specs.Operations.{Read};
ghost use Rattle.hc_flash.specs.Seen.{order_of, result_of};
ghost use Rattle.hc_history.specs.Honest.{Honest};
ghost use Rattle.hc_history.specs.Lawful.{Legal};
ghost use Rattle.hc_history.specs.Note.{Stored};
ghost use Rattle.hc_history.specs.Seen.{reply_of};
ghost use Rattle.hc_history.specs.Told.{IfLog, Log};
ghost use Rattle.hc_memory.specs.Seen.{filled};
ghost use Rattle.hc_machine.specs.Cache.{Opened, Discarded, Replied, Moment, Took, Reclaimed};
ghost use Rattle.hc_machine.specs.Evicting.{allocate as allocate_step};
ghost use Rattle.hc_machine.specs.World.{order_in};
ghost use Rattle.hc_machine.specs.Calls.{insert_or_replace as replace_step, insert as insert_step, discard as discard_step, find as find_step, remove as remove_step, take_reply as reply_step, tick as tick_step};
ghost use Rattle.hc_machine.specs.Workers.{writer_take as writer_step, filler_take as filler_step, reclaim as reclaim_step};
ghost use Rattle.hc_nvm.specs.Seen.{take_of};
ghost use Rattle.hc_core.specs.Answers.{IsReason, is_work, found_answer, inserted_answer, removed_answer};
ghost use Rattle.hc_core.specs.Logged.{IsCall};
ghost use Rattle.hc_marked.specs.Marked.{Marked, NoneCollides};
ghost use Rattle.hc_marked.specs.Tracked.{Tracks};
ghost use Rattle.hc_paged.specs.Devices.{mark_at};
ghost use Rattle.hc_tracked.specs.Resting.{pages_in};
ghost use Rattle.hc_tracked.specs.Reading.{IsDigestOf, IsToldRead, IsToldWrite, WritesAs, IsOrFails, Finishes};

use hc_core::Core;
use hc_flash::{IoResult, Order};
use hc_history::{Kept, Listener, Note, Notes, Reply};
use hc_memory::{Blank, Fill, Sealed, Uncharged};
use hc_nvm::{Take, Unfinished};
use hc_paged::{Digest, known};
use hc_state::{Found, Inserted, Removed, Unlinked};
use hc_types::{Config, FlashConfig, Key, Refusal};
use std::alloc::{AllocError, Allocator};
use std::marker::Model;

/// A core, and the digest of each page of its flash as its log leaves it: 8 bytes a page. A page that was read is handed in
/// to the core only where it has the digest of the page as it was last written; else the read has failed, and is counted as
/// a lie of the device. So whatever the device answers, each read in the log has the digest of what was written there
/// last, in whatever order the calls come. The comparison is made at the moment when the result goes into the log, and not where the device is: so it wants
/// no lock beside the core's, and any number of operations may be under way by any number of handles.
pub struct TrackedCore<N: Listener, A: Allocator, G: Digest + Copy> {
    pub(crate) core: Core<N, A>,
    pub(crate) digest: G,
    pub(crate) digests: Vec<u64, A>,
    pub(crate) lies: u64,
}

impl<N: Listener, A: Allocator, G: Digest + Copy> Model for TrackedCore<N, A, G> {
    ghost use Rattle.hc_tracked.specs.Reading.{Tracked, IsTracked};

    ghost Value = { Tracked };

    ghost view = { λ t. record { core = t.core; digests = t.digests.items } };

    ghost invariant = { λ t. IsTracked G.of t.core t.digests.items };
}

// (written out, so that who drops it calls this one function, whatever stands in it)
impl<N: Listener, A: Allocator, G: Digest + Copy> Drop for TrackedCore<N, A, G> {
    fn drop(self) {
        let TrackedCore {
            core: _,
            digest: _,
            digests: _,
            lies: _,
        } = self;
    }
}

/// How many pages the flash has.
pub(crate) fn pages_of(flash: &Option<FlashConfig>) -> usize
    ensures { result ≡ pages_in flash.now }
{
    match flash {
        Some(flash) => {
            let large = flash.regions.saturating_mul(flash.region_pages);
            flash.buckets.saturating_add(large) as usize
        }
        None => 0,
    }
}

impl<N: Listener, A: Allocator + Clone + Copy, G: Digest + Copy> TrackedCore<N, A, G> {
    /// Of this core, whose log is empty. Of no page is anything known. Refused only where there is no memory for the digests; then
    /// the core comes back.
    pub fn new(core: Core<N, A>, digest: G, alloc: A) -> Result<TrackedCore<N, A, G>, Core<N, A>>
        requires log { IfLog core.log (λ log. log ≡ []) }
        ensures core { IfOk result (λ tracked. tracked.core ≡ core) }
        ensures core_returned { IfErr result (λ back. back ≡ core) }
    {
        let pages = pages_of(&core.config().flash);
        let digests: Result<_, AllocError> = vec![in alloc; 0u64; pages];
        match digests {
            Ok(digests) => Ok(TrackedCore {
                core,
                digest,
                digests,
                lies: 0,
            }),
            Err(_) => Err(core),
        }
    }
}

impl<N: Listener, A: Allocator, G: Digest + Copy> TrackedCore<N, A, G> {
    /// The core, and how many reads were lies.
    #[must_use]
    pub fn into_parts(self) -> (Core<N, A>, u64)
        ensures core { result.0 ≡ self.core }
        ensures marked { IfLog self.core.log (Marked G.of) }
    {
        let TrackedCore {
            core,
            digest: _,
            digests: _,
            lies,
        } = self;
        (core, lies)
    }

    /// The core, and the digests of its pages.
    pub(crate) fn into_both(self) -> (Core<N, A>, Vec<u64, A>)
        ensures core { result.0 ≡ self.core }
        ensures digests { result.1.items ≡ self.digests }
        ensures tracks { IfLog self.core.log (Tracks G.of (mark_at self.digests)) }
        ensures fits { length self.digests ≡ pages_in self.core.cache.config.flash }
    {
        let TrackedCore {
            core,
            digest: _,
            digests,
            lies: _,
        } = self;
        (core, digests)
    }

    /// How many reads were lies of the device so far.
    #[must_use]
    pub fn lies(&self) -> u64 {
        self.lies
    }

    /// How many calls were begun: inserts, finds and removes that weren't refused.
    #[must_use]
    pub fn calls(&self) -> u64
        ensures { result ≡ self.now.core.cache.calls }
    {
        self.core.calls()
    }

    /// The moment that holds, in seconds.
    #[must_use]
    pub fn now(&self) -> u64
        ensures { result ≡ self.now.core.cache.now }
    {
        self.core.now()
    }

    /// The configuration that the core was made with.
    #[must_use]
    pub fn config(&self) -> &Config<A>
        ensures { result.now ≡ self.now.core.cache.config }
    {
        self.core.config()
    }

    /// Who was told the notes.
    #[must_use]
    pub fn notes(&self) -> &N
        ensures log { N.told result.now ≡ self.now.core.log }
    {
        self.core.notes()
    }
}

impl<A: Allocator, G: Digest + Copy> TrackedCore<Kept<A>, A, G> {
    /// The log, which outlives the cache: each page that was read has the digest of the page as it was written last, whatever
    /// the device answered. So the log is honest, and legal, unless a page that was read has the digest of another that was
    /// written there last. The items are dropped.
    #[must_use]
    pub fn into_notes(self) -> Kept<A>
        ensures log { Log result.notes.items ≡ self.core.log }
        ensures marked { Marked G.of result.notes.items }
        ensures honest { NoneCollides G.of result.notes.items → Honest result.notes.items }
        ensures legal { NoneCollides G.of result.notes.items → Legal self.core.cache.config result.notes.items }
    {
        let (core, _lies) = self.into_parts();
        core.into_notes()
    }
}

impl<N: Listener, A: Allocator + Clone + Copy, G: Digest + Copy> TrackedCore<N, A, G> {
    /// The operation for which the job waits.
    #[must_use]
    pub fn order(&self, job: u64) -> Option<&Order<A>>
        ensures { option_map order_of (option_copied result) ≡ order_in self.now.core.cache.nvm job }
    {
        self.core.order(job)
    }
}

impl<N: Notes<Note<A>>, A: Allocator + Clone + Copy, G: Digest + Copy> TrackedCore<N, A, G> {
    /// As `Core::tick`.
    pub fn tick(&mut self, moment: u64) -> Result<u64, Refusal>
        ensures ok { IfOk result (λ now. IsCall (tick_step moment self.old.core.cache) (Moment now) self.old.core self.new.core) }
        ensures err { OnErr result (self.new.core ≡ self.old.core) }
        ensures memory { IfErr result (λ refusal. refusal ≡ Refusal.NoMemory) }
    {
        self.core.tick(moment)
    }

    /// As `Core::allocate_with`.
    pub fn allocate_with(
        &mut self,
        pool: u8,
        key: Key<A>,
        fill: Fill<'_>,
        ttl: u32,
    ) -> Result<Blank<A>, Uncharged<A>>
        ensures ok { IfOk result (λ blank. IsCall (allocate_step pool key (filled fill.entry) ttl self.old.core.cache) (Opened blank) self.old.core self.new.core) }
        ensures err { OnErr result (self.new.core ≡ self.old.core) }
        ensures why { IfErr result (λ e. IsReason (allocate_step pool key (filled fill.entry) ttl self.old.core.cache).answer e.refusal) }
        ensures key_returned { IfErr result (λ e. e.key ≡ key) }
    {
        self.core.allocate_with(pool, key, fill, ttl)
    }

    /// As `Core::discard`.
    pub fn discard(&mut self, sealed: Sealed<A>) -> Result<(), Sealed<A>>
        ensures ok { OnOk result (IsCall (discard_step sealed self.old.core.cache) Discarded self.old.core self.new.core) }
        ensures err { OnErr result (self.new.core ≡ self.old.core) }
        ensures sealed_returned { IfErr result (λ back. back ≡ sealed) }
    {
        self.core.discard(sealed)
    }

    /// As `Core::discard_blank`.
    pub fn discard_blank(&mut self, blank: Blank<A>) -> Result<(), Blank<A>>
        ensures ok { OnOk result (IsCall (discard_step blank self.old.core.cache) Discarded self.old.core self.new.core) }
        ensures err { OnErr result (self.new.core ≡ self.old.core) }
        ensures blank_returned { IfErr result (λ back. back ≡ blank) }
    {
        self.core.discard_blank(blank)
    }

    /// As `Core::insert_or_replace`.
    pub fn insert_or_replace(&mut self, client: u8, sealed: Sealed<A>) -> Result<(), Unlinked<A>>
        ensures ok { OnOk result (IsCall (replace_step client sealed self.old.core.cache) (Replied Stored) self.old.core self.new.core) }
        ensures err { OnErr result (self.new.core ≡ self.old.core) }
        ensures why { IfErr result (λ e. IsReason (replace_step client sealed self.old.core.cache).answer e.refusal) }
        ensures sealed_returned { IfErr result (λ e. e.sealed ≡ sealed) }
    {
        self.core.insert_or_replace(client, sealed)
    }

    /// As `Core::insert`.
    pub fn insert(&mut self, client: u8, sealed: Sealed<A>) -> Result<Inserted, Unlinked<A>>
        ensures ok { IfOk result (λ inserted. IsCall (insert_step client sealed self.old.core.cache) (inserted_answer inserted) self.old.core self.new.core) }
        ensures err { OnErr result (self.new.core ≡ self.old.core) }
        ensures why { IfErr result (λ e. IsReason (insert_step client sealed self.old.core.cache).answer e.refusal) }
        ensures sealed_returned { IfErr result (λ e. e.sealed ≡ sealed) }
    {
        self.core.insert(client, sealed)
    }

    /// As `Core::remove`.
    pub fn remove(&mut self, client: u8, key: &Key<A>) -> Result<Removed, Refusal>
        ensures ok { IfOk result (λ removed. IsCall (remove_step client key.now self.old.core.cache) (removed_answer removed) self.old.core self.new.core) }
        ensures err { OnErr result (self.new.core ≡ self.old.core) }
        ensures memory { IfErr result (λ refusal. refusal ≡ Refusal.NoMemory) }
    {
        self.core.remove(client, key)
    }

    /// As `Core::find`.
    pub fn find(&mut self, client: u8, key: &Key<A>) -> Result<Found<A>, Refusal>
        ensures ok { IfOk result (λ found. IsCall (find_step client key.now self.old.core.cache) (found_answer found) self.old.core self.new.core) }
        ensures err { OnErr result (self.new.core ≡ self.old.core) }
        ensures memory { IfErr result (λ refusal. refusal ≡ Refusal.NoMemory) }
    {
        self.core.find(client, key)
    }

    /// As `Core::take_reply`.
    pub fn take_reply(&mut self, call: u64) -> Result<Reply<A>, Refusal>
        ensures ok { IfOk result (λ reply. IsCall (reply_step call self.old.core.cache) (Replied (reply_of reply)) self.old.core self.new.core) }
        ensures err { OnErr result (self.new.core ≡ self.old.core) }
        ensures why { IfErr result (λ refusal. IsReason (reply_step call self.old.core.cache).answer refusal) }
    {
        self.core.take_reply(call)
    }

    /// As `Core::writer_has_work`.
    pub fn writer_has_work(&mut self) -> Result<bool, Refusal>
        ensures ok { IfOk result (λ has. has ≡ is_work (writer_step self.old.core.cache).answer) }
        ensures same { self.new.core ≡ self.old.core }
        ensures memory { IfErr result (λ refusal. refusal ≡ Refusal.NoMemory) }
    {
        self.core.writer_has_work()
    }

    /// As `Core::filler_has_work`.
    pub fn filler_has_work(&mut self) -> Result<bool, Refusal>
        ensures ok { IfOk result (λ has. has ≡ is_work (filler_step self.old.core.cache).answer) }
        ensures same { self.new.core ≡ self.old.core }
        ensures memory { IfErr result (λ refusal. refusal ≡ Refusal.NoMemory) }
    {
        self.core.filler_has_work()
    }

    /// As `Core::writer_take`.
    pub fn writer_take(&mut self) -> Result<Take<A>, Refusal>
        ensures ok { IfOk result (λ take. IsCall (writer_step self.old.core.cache) (Took (take_of take)) self.old.core self.new.core) }
        ensures err { OnErr result (self.new.core ≡ self.old.core) }
        ensures memory { IfErr result (λ refusal. refusal ≡ Refusal.NoMemory) }
    {
        self.core.writer_take()
    }

    /// As `Core::filler_take`.
    pub fn filler_take(&mut self) -> Result<Take<A>, Refusal>
        ensures ok { IfOk result (λ take. IsCall (filler_step self.old.core.cache) (Took (take_of take)) self.old.core self.new.core) }
        ensures err { OnErr result (self.new.core ≡ self.old.core) }
        ensures memory { IfErr result (λ refusal. refusal ≡ Refusal.NoMemory) }
    {
        self.core.filler_take()
    }

    /// As `Core::reclaim`.
    pub fn reclaim(&mut self) -> Result<Option<u32>, Refusal>
        ensures ok { IfOk result (λ region. IsCall (reclaim_step self.old.core.cache) (Reclaimed region) self.old.core self.new.core) }
        ensures err { OnErr result (self.new.core ≡ self.old.core) }
        ensures memory { IfErr result (λ refusal. refusal ≡ Refusal.NoMemory) }
    {
        self.core.reclaim()
    }

    /// Hands in what came of the operation for which the job waits, as `Core::finish` does; `digest` is that of a page that
    /// was read (`digest_of`). One that hasn't the digest of the page as last written, and one of which nothing is known, has
    /// failed. A result of another kind than the operation has failed too.
    pub fn finish(
        &mut self,
        job: u64,
        came: IoResult<A>,
        digest: u64,
    ) -> Result<Take<A>, Unfinished<A>>
        requires digest { IsDigestOf G.of digest (result_of came) }
        ensures ok { IfOk result (λ take. Finishes job (result_of came) (take_of take) self.old.core self.new.core) }
        ensures err { OnErr result (self.new.core ≡ self.old.core) }
    {
        match self.core.order(job) {
            None => Err(Unfinished {
                refusal: Refusal::UnknownJob,
                came,
            }),
            Some(Order::Read(page)) => {
                let page = *page;
                self.finish_read(job, page, came, digest)
            }
            Some(Order::Write(page, bytes)) => {
                let page = *page;
                let mark = self.digest.digest(bytes.as_slice());
                self.finish_write(job, page, mark, came)
            }
        }
    }

    fn finish_read(
        &mut self,
        job: u64,
        page: u32,
        came: IoResult<A>,
        digest: u64,
    ) -> Result<Take<A>, Unfinished<A>>
        requires order { order_in self.old.core.cache.nvm job ≡ Some (Read page) }
        requires digest { IsDigestOf G.of digest (result_of came) }
        ensures ok { IfOk result (λ take. Finishes job (result_of came) (take_of take) self.old.core self.new.core) }
        ensures err { OnErr result (self.new.core ≡ self.old.core) }
    {
        let known = known(self.digests.as_slice(), page);
        let (told, lies) = told_read(&self.digest, came, known, digest);
        self.lies = self.lies.saturating_add(lies);
        self.core.finish(job, told)
    }

    fn finish_write(
        &mut self,
        job: u64,
        page: u32,
        mark: u64,
        came: IoResult<A>,
    ) -> Result<Take<A>, Unfinished<A>>
        requires order { WritesAs G.of mark (order_in self.old.core.cache.nvm job) page }
        ensures ok { IfOk result (λ take. Finishes job (result_of came) (take_of take) self.old.core self.new.core) }
        ensures err { OnErr result (self.new.core ≡ self.old.core) }
    {
        let is_within = (page as usize) < self.digests.len();
        let (told, known) = told_write(came, is_within, mark);
        let take = self.core.finish(job, told)?;
        remember(&mut self.digests, page, known);
        Ok(take)
    }
}

/// What the core is told of a read, by what its page is known to be and what was read, and how many lies that was.
fn told_read<A: Allocator, G: Digest>(
    _digest: &G,
    came: IoResult<A>,
    known: u64,
    digest: u64,
) -> (IoResult<A>, u64)
    requires digest { IsDigestOf G.of digest (result_of came) }
    ensures told { IsToldRead G.of known (result_of result.0) }
    ensures failed { IsOrFails (result_of came) (result_of result.0) }
{
    match came {
        IoResult::Page(bytes) if known == digest => (IoResult::Page(bytes), 0),
        IoResult::Failed => (IoResult::Failed, 0),
        _ => (IoResult::Failed, 1),
    }
}

/// What the core is told of a write, and what is known of the page then: its digest, or 0. (A page outside can't be known.)
fn told_write<A: Allocator>(came: IoResult<A>, is_within: bool, mark: u64) -> (IoResult<A>, u64)
    ensures told { IsToldWrite is_within mark result.1 (result_of result.0) }
    ensures failed { IsOrFails (result_of came) (result_of result.0) }
{
    match came {
        IoResult::Written if is_within => (IoResult::Written, mark),
        _ => (IoResult::Failed, 0),
    }
}

/// This is known of the page from here on.
fn remember<A: Allocator>(digests: &mut Vec<u64, A>, page: u32, known: u64)
    ensures none { known ≡ 0 → mark_at digests.new.items page ≡ None }
    ensures some { 0 < known → page < length digests.old.items → mark_at digests.new.items page ≡ Some known }
    ensures others { (other : ℕ) → ¬ (other ≡ page) → mark_at digests.new.items other ≡ mark_at digests.old.items other }
    ensures many { length digests.new.items ≡ length digests.old.items }
{
    if let Some(place) = digests.get_mut(page as usize) {
        *place = known;
    }
}

/// The digest of a page that was read, for whoever hands it in; of any other result a number that nobody looks at.
#[must_use]
pub fn digest_of<A: Allocator, G: Digest>(digest: &G, came: &IoResult<A>) -> u64
    ensures { IsDigestOf G.of result (result_of came.now) }
{
    match came {
        IoResult::Page(bytes) => digest.digest(bytes.as_slice()),
        IoResult::Written | IoResult::Failed => 0,
    }
}

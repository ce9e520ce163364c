// A list of steps over any device at all: what is read is compared with the digest of what was written.
ghost use Rattle.std.specs.Prelude.{◌≡◌, ◌≢◌, ◌⊎◌, ◌+◌, ℕ, None, Some, length, IfOk, OnOk, IfErr, OnErr};
ghost use Rattle.hc_types.specs.Limits.{first_wrong};
ghost use Rattle.hc_history.specs.Honest.{Honest};
ghost use Rattle.hc_history.specs.Lawful.{Legal};
ghost use Rattle.hc_marked.specs.Marked.{Marked, NoneCollides};

use crate::device::Came;
use crate::helpers::{found_outcome, refused, removed_outcome, without_memory};
use crate::runs::Stopped;
use crate::slots::{Content, Slot, empty_slots, fill, take, take_sealed};
use crate::steps::{Answer, Outcome, Request, Step};
use bytes::Bytes;
use hc_core::{Core, Found, Inserted, Removed, Take, Unfinished, Unlinked};
use hc_flash::{IoResult, Order};
use hc_history::{Kept, Reply};
use hc_io_results::{Results, copy};
use hc_memory::{Fill, Uncharged};
use hc_paged::{Device, Digest, operate};
use hc_tracked::{TrackedCore, digest_of, is_same};
use hc_types::{Config, Key, Refusal};
use std::alloc::{AllocError, Allocator, Global};
use std::marker::Model;

/// A cache that keeps its log, and digests of its pages, over a device, with 256 slots for its write handles, and the results
/// of device operations that aren't handed in yet. Contracts see the slots.
struct Scene<D: Device<A>, G: Digest + Copy, A: Allocator> {
    core: TrackedCore<Kept<A>, A, G>,
    device: D,
    digest: G,
    failed_before: u64,
    results: Results<A>,
    slots: Vec<Slot<A>, A>,
}

impl<D: Device<A>, G: Digest + Copy, A: Allocator> Model for Scene<D, G, A> {
    ghost use Rattle.std.specs.Prelude.{◌≡◌, List, Option, length};
    ghost use Rattle.hc_memory.specs.Item.{Handle};

    ghost Value = { List (Option Handle) };

    ghost view = { λ s. s.slots.items };

    ghost invariant = { λ s. length s.slots.items ≡ 256 };
}

/// A run over any device: its log, where each step's part ends in it, the answers, the device, and how many reads of it were
/// lies. Where the run stopped before a step, `stopped` tells which and why. At the end of the log, what still fills a slot is
/// given up.
#[derive(Drop)]
pub struct RanTracked<D: Device<A>, A: Allocator = Global> {
    pub log: Kept<A>,
    pub ends: Vec<usize, A>,
    pub answers: Vec<Answer<A>, A>,
    pub stopped: Option<Stopped>,
    pub device: D,
    pub lies: u64,
}

impl<D: Device<A>, G: Digest + Copy, A: Allocator + Clone + Copy> Scene<D, G, A> {
    /// An empty cache and empty slots. Refused as `Core::new` is, and where there is no memory for the digests; then the device is
    /// dropped.
    fn new(alloc: A, config: &Config<A>, device: D, digest: G) -> Result<Scene<D, G, A>, Refusal>
        ensures fits { OnOk result (first_wrong config.now ≡ None) }
        ensures err { IfErr result (λ refusal. (first_wrong config.now ≡ Some refusal) ⊎ ((first_wrong config.now ≡ None) × (refusal ≡ Refusal.NoMemory))) }
    {
        let Ok(mut slots) = Vec::with_capacity(alloc, 256) else {
            return Err(without_memory(config));
        };
        match tracked(alloc, config, digest) {
            Ok(core) => {
                empty_slots(&mut slots, 256);
                let failed_before = device.failures();
                let results = Results::new(alloc);
                Ok(Scene {
                    core,
                    device,
                    digest,
                    failed_before,
                    results,
                    slots,
                })
            }
            Err(refusal) => {
                slots.destroy_empty();
                Err(refusal)
            }
        }
    }

    /// Allocates an item, writes the value into it, and leaves its handle in the slot.
    fn open(
        &mut self,
        slot: u8,
        pool: u8,
        key: &Key<A>,
        value: &Bytes<A>,
        ttl: u32,
    ) -> Result<Outcome<A>, AllocError> {
        if self.slots[usize::from(slot)].is_filled() {
            return Ok(Outcome::NoSlot);
        }
        let key = key.clone()?;
        let value = Fill::Copied(value.as_slice());
        match self.core.allocate_with(pool, key, value, ttl) {
            Ok(blank) => {
                fill(&mut self.slots, slot, Content::Written(blank));
                Ok(Outcome::Filled)
            }
            Err(Uncharged { refusal, key }) => {
                drop(key);
                refused(refusal)
            }
        }
    }

    /// Inserts the item of the slot's handle.
    fn put(&mut self, client: u8, slot: u8) -> Result<Outcome<A>, AllocError> {
        let Some(sealed) = take_sealed(&mut self.slots, slot)? else {
            return Ok(Outcome::NoSlot);
        };
        match self.core.insert_or_replace(client, sealed) {
            Ok(()) => Ok(Outcome::Replied(Reply::Stored)),
            Err(Unlinked { refusal, sealed }) => {
                fill(&mut self.slots, slot, Content::Ready(sealed));
                refused(refusal)
            }
        }
    }

    /// Inserts the item of the slot's handle, where its key has no unexpired value.
    fn put_new(&mut self, client: u8, slot: u8) -> Result<Outcome<A>, AllocError> {
        let Some(sealed) = take_sealed(&mut self.slots, slot)? else {
            return Ok(Outcome::NoSlot);
        };
        match self.core.insert(client, sealed) {
            Ok(Inserted::Stored) => Ok(Outcome::Replied(Reply::Stored)),
            Ok(Inserted::Waiting(call)) => Ok(Outcome::Waits(call)),
            Err(Unlinked { refusal, sealed }) => {
                fill(&mut self.slots, slot, Content::Ready(sealed));
                refused(refusal)
            }
        }
    }

    /// Gives up the item of the slot's handle.
    fn discard(&mut self, slot: u8) -> Outcome<A> {
        if !self.slots[usize::from(slot)].is_filled() {
            return Outcome::NoSlot;
        }
        let content = take(&mut self.slots, slot);
        give_up(&mut self.core, content);
        Outcome::Discarded
    }

    /// Makes the device operation for which the job waits, unless it was made. Its result waits.
    fn io(&mut self, job: u64, fails: bool) -> Result<Outcome<A>, AllocError> {
        let Some(order) = self.core.order(job) else {
            return Ok(Outcome::Refused(Refusal::UnknownJob));
        };
        if self.results.get(job).is_some() {
            return Ok(Outcome::Refused(Refusal::UnknownJob));
        }
        self.results.reserve()?;
        let Came { kept, told } = made(&mut self.device, order, fails)?;
        self.results.put(job, kept);
        let failures = self.device.failures().saturating_sub(self.failed_before);
        Ok(Outcome::Made(told, failures))
    }

    /// Hands in the result of the job's operation.
    fn finish(&mut self, job: u64) -> Result<Outcome<A>, AllocError> {
        let Some(waiting) = self.results.get(job) else {
            return Ok(Outcome::Refused(Refusal::UnknownJob));
        };
        let came = copy(waiting)?;
        let mark = digest_of(&self.digest, &came);
        match self.core.finish(job, came, mark) {
            Ok(take) => {
                self.results.forget(job);
                Ok(Outcome::Took(take))
            }
            Err(Unfinished { refusal, came }) => {
                drop(came);
                let outcome = refused(refusal)?;
                self.results.forget(job);
                Ok(outcome)
            }
        }
    }

    /// What comes of a request of a client's. Where memory is wanted, everything is as it was.
    fn serve(&mut self, client: u8, request: &Request<A>) -> Result<Outcome<A>, AllocError> {
        match request {
            Request::Open {
                slot,
                pool,
                key,
                value,
                ttl,
            } => self.open(*slot, *pool, key, value, *ttl),
            Request::Put { slot } => self.put(client, *slot),
            Request::PutNew { slot } => self.put_new(client, *slot),
            Request::Discard { slot } => Ok(self.discard(*slot)),
            Request::Find { key } => found_in(self.core.find(client, key)),
            Request::Remove { key } => removed_in(self.core.remove(client, key)),
            Request::Reply { call } => replied_in(self.core.take_reply(*call)),
            Request::Tick { moment } => moment_in(self.core.tick(*moment)),
            Request::WriterTake => took_in(self.core.writer_take()),
            Request::FillerTake => took_in(self.core.filler_take()),
            Request::Reclaim => reclaimed_in(self.core.reclaim()),
            Request::Io { job, fails } => self.io(*job, *fails),
            Request::Finish { job } => self.finish(*job),
        }
    }
}

impl<D: Device<A>, G: Digest + Copy, A: Allocator + Clone + Copy> Scene<D, G, A> {
    /// One step more: its answer, and where it ends in the log. Where memory is wanted, all is as it was.
    fn go_on(
        &mut self,
        answers: &mut Vec<Answer<A>, A>,
        ends: &mut Vec<usize, A>,
        step: &Step<A>,
    ) -> Result<(), AllocError>
        ensures more { OnOk result (length answers.new.items ≡ length answers.old.items + 1) }
        ensures err { OnErr result (answers.new.items ≡ answers.old.items) }
    {
        answers.reserve(1)?;
        ends.reserve(1)?;
        let outcome = self.serve(step.client, &step.request)?;
        answers.push_reserved(Answer { outcome });
        ends.push_reserved(self.core.notes().notes.len());
        Ok(())
    }

    /// The steps, one after the other, up to the one for which there is no memory: where it stopped, if it did.
    fn go_through(
        &mut self,
        answers: &mut Vec<Answer<A>, A>,
        ends: &mut Vec<usize, A>,
        steps: &[Step<A>],
    ) -> Option<Stopped>
        requires { length answers.old.items ≡ 0 }
        ensures all { result ≡ None → length answers.new.items ≡ length steps.now }
        ensures memory { (place : ℕ) → result ≢ Some (Stopped.NotQuiet place) }
    {
        for (i, step) in steps.iter().enumerate() {
            match self.go_on(answers, ends, step) {
                Ok(()) => {}
                Err(_) => return Some(Stopped::NoMemory(i)),
            }
        }
        None
    }

    /// The log, after what still fills a slot was given up, in the order of the slots; the device, and how many lies it told.
    /// (No call changes a configuration. Since no contract of a call says that, it is looked at once more.)
    fn end(self, config: &Config<A>) -> Result<(Kept<A>, D, u64), Refusal>
        ensures marked { IfOk result (λ end. Marked G.of end.0.notes.items) }
        ensures honest { IfOk result (λ end. NoneCollides G.of end.0.notes.items → Honest end.0.notes.items) }
        ensures legal { IfOk result (λ end. NoneCollides G.of end.0.notes.items → Legal config.now end.0.notes.items) }
        ensures err { IfErr result (λ refusal. refusal ≡ Refusal.NoMemory) }
    {
        let Scene {
            mut core,
            device,
            digest: _,
            failed_before: _,
            results,
            slots,
        } = self;
        drop(results);
        give_up_all(&mut core, slots);
        if !is_same(core.config(), config) {
            return Err(Refusal::NoMemory);
        }
        let lies = core.lies();
        Ok((core.into_notes(), device, lies))
    }
}

/// A new cache that keeps its log and digests of its pages. Refused as `Core::new` is, and where there is no memory for the
/// digests.
fn tracked<G: Digest + Copy, A: Allocator + Clone + Copy>(
    alloc: A,
    config: &Config<A>,
    digest: G,
) -> Result<TrackedCore<Kept<A>, A, G>, Refusal>
    ensures fits { OnOk result (first_wrong config.now ≡ None) }
    ensures err { IfErr result (λ refusal. (first_wrong config.now ≡ Some refusal) ⊎ ((first_wrong config.now ≡ None) × (refusal ≡ Refusal.NoMemory))) }
{
    let core = Core::new(alloc, config, Kept::new(alloc))?;
    match TrackedCore::new(core, digest, alloc) {
        Ok(core) => Ok(core),
        Err(core) => {
            drop(core);
            Err(Refusal::NoMemory)
        }
    }
}

/// The operation is made, and what came of it is for two owners. Where the step fails it, it doesn't reach the device. When
/// out of memory, nothing is written, or what was read isn't told.
fn made<A: Allocator, D: Device<A>>(
    device: &mut D,
    order: &Order<A>,
    fails: bool,
) -> Result<Came<A>, AllocError> {
    if fails {
        return Ok(Came {
            kept: IoResult::Failed,
            told: IoResult::Failed,
        });
    }
    let kept = operate(device, order)?;
    match copy(&kept) {
        Ok(told) => Ok(Came { kept, told }),
        Err(no_memory) => Err(no_memory),
    }
}

/// Gives up the item of a handle, if there is one.
fn give_up<G: Digest + Copy, A: Allocator + Clone + Copy>(
    core: &mut TrackedCore<Kept<A>, A, G>,
    content: Content<A>,
) {
    match content {
        Content::Empty => {}
        Content::Written(blank) => {
            if let Err(blank) = core.discard_blank(blank) {
                blank.abandon();
            }
        }
        Content::Ready(sealed) => {
            if let Err(sealed) = core.discard(sealed) {
                sealed.abandon();
            }
        }
    }
}

/// Gives up the items of all handles, in the order of the slots.
fn give_up_all<G: Digest + Copy, A: Allocator + Clone + Copy>(
    core: &mut TrackedCore<Kept<A>, A, G>,
    slots: Vec<Slot<A>, A>,
) {
    let mut left = slots.into_iter();
    while let Some(slot) = left.next() {
        give_up(core, slot.into_content());
    }
    left.destroy_empty();
}

fn found_in<A: Allocator>(found: Result<Found<A>, Refusal>) -> Result<Outcome<A>, AllocError> {
    match found {
        Ok(found) => Ok(found_outcome(found)),
        Err(_) => Err(AllocError),
    }
}

fn removed_in<A: Allocator>(removed: Result<Removed, Refusal>) -> Result<Outcome<A>, AllocError> {
    match removed {
        Ok(removed) => Ok(removed_outcome(removed)),
        Err(_) => Err(AllocError),
    }
}

fn replied_in<A: Allocator>(reply: Result<Reply<A>, Refusal>) -> Result<Outcome<A>, AllocError> {
    match reply {
        Ok(reply) => Ok(Outcome::Replied(reply)),
        Err(refusal) => refused(refusal),
    }
}

fn moment_in<A: Allocator>(moment: Result<u64, Refusal>) -> Result<Outcome<A>, AllocError> {
    match moment {
        Ok(now) => Ok(Outcome::Moment(now)),
        Err(_) => Err(AllocError),
    }
}

fn took_in<A: Allocator>(take: Result<Take<A>, Refusal>) -> Result<Outcome<A>, AllocError> {
    match take {
        Ok(take) => Ok(Outcome::Took(take)),
        Err(_) => Err(AllocError),
    }
}

fn reclaimed_in<A: Allocator>(
    region: Result<Option<u32>, Refusal>,
) -> Result<Outcome<A>, AllocError> {
    match region {
        Ok(region) => Ok(Outcome::Reclaimed(region)),
        Err(_) => Err(AllocError),
    }
}

/// Makes any list of steps on a new cache over any device at all, of whose pages nothing is known yet: it may fail, and answer
/// other bytes than were written. The cache keeps a digest of each page, and a page that comes back with another is handed in as
/// a failure. So each page that was read in the log has the digest of what was written there last; and the log is honest and
/// legal, unless one of them is another page with that digest. An answer tells what the device said. Refused as `run` is.
pub fn run_tracked<D: Device<A>, G: Digest + Copy, A: Allocator + Clone + Copy>(
    alloc: A,
    config: &Config<A>,
    device: D,
    digest: G,
    steps: &[Step<A>],
) -> Result<RanTracked<D, A>, Refusal>
    ensures marked { IfOk result (λ ran. Marked G.of ran.log.notes.items) }
    ensures honest { IfOk result (λ ran. NoneCollides G.of ran.log.notes.items → Honest ran.log.notes.items) }
    ensures legal { IfOk result (λ ran. NoneCollides G.of ran.log.notes.items → Legal config.now ran.log.notes.items) }
    ensures memory { IfOk result (λ ran. (place : ℕ) → ran.stopped ≢ Some (Stopped.NotQuiet place)) }
    ensures all { IfOk result (λ ran. ran.stopped ≡ None → length ran.answers.items ≡ length steps.now) }
    ensures fits { OnOk result (first_wrong config.now ≡ None) }
    ensures err { IfErr result (λ refusal. (first_wrong config.now ≡ Some refusal) ⊎ ((first_wrong config.now ≡ None) × (refusal ≡ Refusal.NoMemory))) }
{
    let mut scene = Scene::new(alloc, config, device, digest)?;
    let mut answers = Vec::new(alloc);
    let mut ends = Vec::new(alloc);
    let stopped = scene.go_through(&mut answers, &mut ends, steps);
    let (log, device, lies) = scene.end(config)?;
    Ok(RanTracked {
        log,
        ends,
        answers,
        stopped,
        device,
        lies,
    })
}

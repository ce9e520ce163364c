// A cache over a device, with slots for write handles and the results that wait, and its steps.
ghost use Rattle.std.specs.Prelude.{◌≡◌, ◌⊎◌, ℕ, List, Option, [], None, Some, IfOk, IfErr, OnOk, OnErr};
ghost use Rattle.hc_engines.specs.Engine.{Pages};
ghost use Rattle.hc_types.specs.Limits.{first_wrong};
ghost use Rattle.hc_history.specs.Told.{Log, told_more};
ghost use Rattle.hc_machine.specs.Cache.{new_cache};
ghost use Rattle.hc_machine.specs.Schedule.{Open, Put, PutNew, Discard, Find, Remove, Reply as TakeReply, Tick, WriterTake, FillerTake, Reclaim, Io, Finish, given_up};
ghost use Rattle.hc_run.specs.Asked.{deed_of, told_of};
ghost use Rattle.hc_run.specs.Going.{log_length};
ghost use Rattle.hc_run.specs.QuietRuns.{is_quiet_in};
ghost use Rattle.hc_run.specs.Devices.{Counts};
ghost use Rattle.hc_run.specs.Shows.{AreOwn, Moves, Waits, seen};
ghost use Rattle.hc_run.specs.Steps.{IsCalm};
ghost use Rattle.hc_shards.specs.Parts.{Beside};

use crate::device::{Came, failures_after, operate};
use crate::helpers::{
    found_outcome, give_up_all, give_up_content, job_of, operation_of, refused, removed_outcome,
    without_memory,
};
use crate::slots::{Content, Slot, empty_slots, fill, take, take_sealed};
use crate::steps::{Answer, Outcome, Request, Step};
use crate::window::Window;
use bytes::Bytes;
use hc_core::{Core, Inserted, Unfinished, Unlinked};
use hc_flash::Flash;
use hc_history::{Kept, Reply};
use hc_io_results::{Results, copy};
use hc_memory::{Fill, Uncharged};
use hc_types::{Config, Key, Refusal};
use std::alloc::{AllocError, Allocator, Global};
use std::marker::Model;

/// A cache that keeps its log, with 256 slots for its write handles, and the results of device operations that aren't
/// handed in yet. For each step it is lent the device, of which some pages are its own; it counts what fails of its
/// own operations.
///
/// Each step that wants memory in vain leaves everything as it was. It isn't `Drop`, as no write handle is: `end`
/// takes it.
pub struct Stage<A: Allocator = Global> {
    core: Core<Kept<A>, A>,
    window: Window,
    failures: u64,
    results: Results<A>,
    slots: Vec<Slot<A>, A>,
}

impl<A: Allocator> Model for Stage<A> {
    ghost use Rattle.std.specs.Prelude.{◌≡◌, length};
    ghost use Rattle.hc_run.specs.Shows.{Stage as Meaning};
    ghost use Rattle.hc_run.specs.Slots.{filled_from};

    ghost Value = { Meaning };

    ghost view = { λ s. record { cache = s.core.cache; log = s.core.log; window = s.window; failures = s.failures; results = s.results.results; slots = filled_from 0 s.slots.items } };

    ghost invariant = { λ s. length s.slots.items ≡ 256 };
}

impl<A: Allocator + Clone + Copy> Stage<A> {
    /// An empty cache and empty slots, over these pages of whatever device it will be lent. Refused as `Core::new` is.
    pub fn new(alloc: A, config: &Config<A>, window: Window) -> Result<Stage<A>, Refusal>
        ensures cache { IfOk result (λ stage. stage.cache ≡ new_cache config.now) }
        ensures log { IfOk result (λ stage. stage.log ≡ Log []) }
        ensures results { IfOk result (λ stage. stage.results ≡ []) }
        ensures slots { IfOk result (λ stage. stage.slots ≡ []) }
        ensures window { IfOk result (λ stage. stage.window ≡ window) }
        ensures failures { IfOk result (λ stage. stage.failures ≡ 0) }
        ensures fits { OnOk result (first_wrong config.now ≡ None) }
        ensures err { IfErr result (λ refusal. (first_wrong config.now ≡ Some refusal) ⊎ ((first_wrong config.now ≡ None) × (refusal ≡ Refusal.NoMemory))) }
    {
        let Ok(mut slots) = Vec::with_capacity(alloc, 256) else {
            return Err(without_memory(config));
        };
        match Core::new(alloc, config, Kept::new(alloc)) {
            Ok(core) => {
                empty_slots(&mut slots, 256);
                let results = Results::new(alloc);
                Ok(Stage {
                    core,
                    window,
                    failures: 0,
                    results,
                    slots,
                })
            }
            Err(refusal) => {
                slots.destroy_empty();
                Err(refusal)
            }
        }
    }

    /// Allocates an item, writes the value into it, and leaves its handle in the slot.
    fn open(
        &mut self,
        client: u8,
        slot: u8,
        pool: u8,
        key: &Key<A>,
        value: &Bytes<A>,
        ttl: u32,
    ) -> Result<Outcome<A>, AllocError>
        ensures ok { IfOk result (λ outcome. (held : Pages) → Moves held self.old (record { client = client; deed = Open slot pool key.now value.now ttl }) (told_of outcome) held self.new) }
        ensures err { OnErr result ((held : Pages) → Waits held self.old held self.new) }
        ensures window { self.new.window ≡ self.old.window }
        ensures failures { self.new.failures ≡ self.old.failures }
    {
        let _sized = key.len();
        if self.slots[usize::from(slot)].is_filled() {
            return Ok(Outcome::NoSlot);
        }
        let key = key.clone()?;
        let value = Fill::Copied(value.as_slice());
        match self.core.allocate_with(pool, key, value, ttl) {
            Ok(blank) => {
                fill(&mut self.slots, slot, Content::Written(blank));
                Ok(Outcome::Filled)
            }
            Err(Uncharged { refusal, key }) => {
                drop(key);
                refused(refusal)
            }
        }
    }

    /// Inserts the item of the slot's handle.
    fn put(&mut self, client: u8, slot: u8) -> Result<Outcome<A>, AllocError>
        requires own { AreOwn self.old.slots self.old.cache }
        ensures ok { IfOk result (λ outcome. (held : Pages) → Moves held self.old (record { client = client; deed = Put slot }) (told_of outcome) held self.new) }
        ensures err { OnErr result ((held : Pages) → Waits held self.old held self.new) }
        ensures window { self.new.window ≡ self.old.window }
        ensures failures { self.new.failures ≡ self.old.failures }
    {
        let Some(sealed) = take_sealed(&mut self.slots, slot)? else {
            return Ok(Outcome::NoSlot);
        };
        match self.core.insert_or_replace(client, sealed) {
            Ok(()) => Ok(Outcome::Replied(Reply::Stored)),
            Err(Unlinked { refusal, sealed }) => {
                fill(&mut self.slots, slot, Content::Ready(sealed));
                match refusal {
                    Refusal::NoMemory => Err(AllocError),
                    _ => unreachable!(),
                }
            }
        }
    }

    /// Inserts the item of the slot's handle, where its key has no unexpired value.
    fn put_new(&mut self, client: u8, slot: u8) -> Result<Outcome<A>, AllocError>
        ensures ok { IfOk result (λ outcome. (held : Pages) → Moves held self.old (record { client = client; deed = PutNew slot }) (told_of outcome) held self.new) }
        ensures err { OnErr result ((held : Pages) → Waits held self.old held self.new) }
        ensures window { self.new.window ≡ self.old.window }
        ensures failures { self.new.failures ≡ self.old.failures }
    {
        let Some(sealed) = take_sealed(&mut self.slots, slot)? else {
            return Ok(Outcome::NoSlot);
        };
        match self.core.insert(client, sealed) {
            Ok(Inserted::Stored) => Ok(Outcome::Replied(Reply::Stored)),
            Ok(Inserted::Waiting(call)) => Ok(Outcome::Waits(call)),
            Err(Unlinked { refusal, sealed }) => {
                fill(&mut self.slots, slot, Content::Ready(sealed));
                refused(refusal)
            }
        }
    }

    /// Gives up the item of the slot's handle.
    fn discard(&mut self, client: u8, slot: u8) -> Outcome<A>
        requires own { AreOwn self.old.slots self.old.cache }
        ensures moves { (held : Pages) → Moves held self.old (record { client = client; deed = Discard slot }) (told_of result) held self.new }
        ensures window { self.new.window ≡ self.old.window }
        ensures failures { self.new.failures ≡ self.old.failures }
    {
        if !self.slots[usize::from(slot)].is_filled() {
            return Outcome::NoSlot;
        }
        let content = take(&mut self.slots, slot);
        give_up_content(&mut self.core, content);
        Outcome::Discarded
    }

    /// Finds the value under the key.
    fn find(&mut self, client: u8, key: &Key<A>) -> Result<Outcome<A>, AllocError>
        ensures ok { IfOk result (λ outcome. (held : Pages) → Moves held self.old (record { client = client; deed = Find key.now }) (told_of outcome) held self.new) }
        ensures err { OnErr result ((held : Pages) → Waits held self.old held self.new) }
        ensures window { self.new.window ≡ self.old.window }
        ensures failures { self.new.failures ≡ self.old.failures }
    {
        match self.core.find(client, key) {
            Ok(found) => Ok(found_outcome(found)),
            Err(_) => Err(AllocError),
        }
    }

    /// Takes the key's item out of the cache.
    fn remove(&mut self, client: u8, key: &Key<A>) -> Result<Outcome<A>, AllocError>
        ensures ok { IfOk result (λ outcome. (held : Pages) → Moves held self.old (record { client = client; deed = Remove key.now }) (told_of outcome) held self.new) }
        ensures err { OnErr result ((held : Pages) → Waits held self.old held self.new) }
        ensures window { self.new.window ≡ self.old.window }
        ensures failures { self.new.failures ≡ self.old.failures }
    {
        match self.core.remove(client, key) {
            Ok(removed) => Ok(removed_outcome(removed)),
            Err(_) => Err(AllocError),
        }
    }

    /// Takes the reply of the call that waited.
    fn take_reply(&mut self, client: u8, call: u64) -> Result<Outcome<A>, AllocError>
        ensures ok { IfOk result (λ outcome. (held : Pages) → Moves held self.old (record { client = client; deed = TakeReply call }) (told_of outcome) held self.new) }
        ensures err { OnErr result ((held : Pages) → Waits held self.old held self.new) }
        ensures window { self.new.window ≡ self.old.window }
        ensures failures { self.new.failures ≡ self.old.failures }
    {
        match self.core.take_reply(call) {
            Ok(reply) => Ok(Outcome::Replied(reply)),
            Err(refusal) => refused(refusal),
        }
    }

    /// Moves the clock on.
    fn tick(&mut self, client: u8, moment: u64) -> Result<Outcome<A>, AllocError>
        ensures ok { IfOk result (λ outcome. (held : Pages) → Moves held self.old (record { client = client; deed = Tick moment }) (told_of outcome) held self.new) }
        ensures err { OnErr result ((held : Pages) → Waits held self.old held self.new) }
        ensures window { self.new.window ≡ self.old.window }
        ensures failures { self.new.failures ≡ self.old.failures }
    {
        match self.core.tick(moment) {
            Ok(now) => Ok(Outcome::Moment(now)),
            Err(_) => Err(AllocError),
        }
    }

    /// The writer takes what is next.
    fn writer_take(&mut self, client: u8) -> Result<Outcome<A>, AllocError>
        ensures ok { IfOk result (λ outcome. (held : Pages) → Moves held self.old (record { client = client; deed = WriterTake }) (told_of outcome) held self.new) }
        ensures err { OnErr result ((held : Pages) → Waits held self.old held self.new) }
        ensures window { self.new.window ≡ self.old.window }
        ensures failures { self.new.failures ≡ self.old.failures }
    {
        match self.core.writer_take() {
            Ok(take) => Ok(Outcome::Took(take)),
            Err(_) => Err(AllocError),
        }
    }

    /// The filler takes what is next.
    fn filler_take(&mut self, client: u8) -> Result<Outcome<A>, AllocError>
        ensures ok { IfOk result (λ outcome. (held : Pages) → Moves held self.old (record { client = client; deed = FillerTake }) (told_of outcome) held self.new) }
        ensures err { OnErr result ((held : Pages) → Waits held self.old held self.new) }
        ensures window { self.new.window ≡ self.old.window }
        ensures failures { self.new.failures ≡ self.old.failures }
    {
        match self.core.filler_take() {
            Ok(take) => Ok(Outcome::Took(take)),
            Err(_) => Err(AllocError),
        }
    }

    /// Gives up the region that was written first, where too few are clean.
    fn reclaim(&mut self, client: u8) -> Result<Outcome<A>, AllocError>
        ensures ok { IfOk result (λ outcome. (held : Pages) → Moves held self.old (record { client = client; deed = Reclaim }) (told_of outcome) held self.new) }
        ensures err { OnErr result ((held : Pages) → Waits held self.old held self.new) }
        ensures window { self.new.window ≡ self.old.window }
        ensures failures { self.new.failures ≡ self.old.failures }
    {
        match self.core.reclaim() {
            Ok(region) => Ok(Outcome::Reclaimed(region)),
            Err(_) => Err(AllocError),
        }
    }

    /// Makes the device operation for which the job waits, unless it was made. Its result waits.
    fn io<D: Flash<A>>(
        &mut self,
        device: &mut D,
        client: u8,
        job: u64,
        fails: bool,
    ) -> Result<Outcome<A>, AllocError>
        ensures ok { IfOk result (λ outcome. Moves (seen self.old.window (D.held device.old)) self.old (record { client = client; deed = Io job fails }) (told_of outcome) (seen self.old.window (D.held device.new)) self.new) }
        ensures err { OnErr result (Waits (seen self.old.window (D.held device.old)) self.old (seen self.old.window (D.held device.new)) self.new) }
        ensures window { self.new.window ≡ self.old.window }
        ensures beside { Beside self.old.window.first self.old.window.pages (D.held device.old) (D.held device.new) }
        ensures counted { Counts self.old.window (D.failed device.old) (D.failed device.new) self.old.failures self.new.failures }
    {
        let Some(order) = self.core.order(job) else {
            return Ok(Outcome::Refused(Refusal::UnknownJob));
        };
        if self.results.get(job).is_some() {
            return Ok(Outcome::Refused(Refusal::UnknownJob));
        }
        self.results.reserve()?;
        if self.failures == u64::MAX {
            return Err(AllocError);
        }
        let Came { kept, told } = operate(device, &self.window, order, fails)?;
        self.failures = failures_after(self.failures, fails, &kept);
        self.results.put(job, kept);
        Ok(Outcome::Made(told, self.failures))
    }

    /// Hands in the result of the job's operation.
    fn finish(&mut self, client: u8, job: u64) -> Result<Outcome<A>, AllocError>
        ensures ok { IfOk result (λ outcome. (held : Pages) → Moves held self.old (record { client = client; deed = Finish job }) (told_of outcome) held self.new) }
        ensures err { OnErr result ((held : Pages) → Waits held self.old held self.new) }
        ensures window { self.new.window ≡ self.old.window }
        ensures failures { self.new.failures ≡ self.old.failures }
    {
        let Some(waiting) = self.results.get(job) else {
            return Ok(Outcome::Refused(Refusal::UnknownJob));
        };
        let came = copy(waiting)?;
        match self.core.finish(job, came) {
            Ok(take) => {
                self.results.forget(job);
                Ok(Outcome::Took(take))
            }
            Err(Unfinished { refusal, came }) => {
                drop(came);
                match refusal {
                    Refusal::NoMemory => Err(AllocError),
                    _ => {
                        self.results.forget(job);
                        Ok(Outcome::Refused(refusal))
                    }
                }
            }
        }
    }

    /// What comes of a request that makes no device operation. Where memory is wanted, everything is as it was.
    fn serve(&mut self, client: u8, request: &Request<A>) -> Result<Outcome<A>, AllocError>
        requires own { AreOwn self.old.slots self.old.cache }
        requires calm { IsCalm (deed_of request.now) }
        ensures ok { IfOk result (λ outcome. (held : Pages) → Moves held self.old (record { client = client; deed = deed_of request.now }) (told_of outcome) held self.new) }
        ensures err { OnErr result ((held : Pages) → Waits held self.old held self.new) }
        ensures window { self.new.window ≡ self.old.window }
        ensures failures { self.new.failures ≡ self.old.failures }
    {
        match request {
            Request::Open {
                slot,
                pool,
                key,
                value,
                ttl,
            } => self.open(client, *slot, *pool, key, value, *ttl),
            Request::Put { slot } => self.put(client, *slot),
            Request::PutNew { slot } => self.put_new(client, *slot),
            Request::Discard { slot } => Ok(self.discard(client, *slot)),
            Request::Find { key } => self.find(client, key),
            Request::Remove { key } => self.remove(client, key),
            Request::Reply { call } => self.take_reply(client, *call),
            Request::Tick { moment } => self.tick(client, *moment),
            Request::WriterTake => self.writer_take(client),
            Request::FillerTake => self.filler_take(client),
            Request::Reclaim => self.reclaim(client),
            Request::Io { .. } => unreachable!(),
            Request::Finish { job } => self.finish(client, *job),
        }
    }

    /// What comes of a request, over the device that is lent. Where memory is wanted, everything is as it was.
    fn make<D: Flash<A>>(
        &mut self,
        device: &mut D,
        client: u8,
        request: &Request<A>,
    ) -> Result<Outcome<A>, AllocError>
        requires own { AreOwn self.old.slots self.old.cache }
        ensures ok { IfOk result (λ outcome. Moves (seen self.old.window (D.held device.old)) self.old (record { client = client; deed = deed_of request.now }) (told_of outcome) (seen self.old.window (D.held device.new)) self.new) }
        ensures err { OnErr result (Waits (seen self.old.window (D.held device.old)) self.old (seen self.old.window (D.held device.new)) self.new) }
        ensures window { self.new.window ≡ self.old.window }
        ensures beside { Beside self.old.window.first self.old.window.pages (D.held device.old) (D.held device.new) }
        ensures counted { Counts self.old.window (D.failed device.old) (D.failed device.new) self.old.failures self.new.failures }
    {
        match operation_of(request) {
            Some((job, fails)) => self.io(device, client, job, fails),
            None => self.serve(client, request),
        }
    }

    /// One step, over the device that is lent. Where memory is wanted, everything is as it was.
    pub fn step<D: Flash<A>>(
        &mut self,
        device: &mut D,
        step: &Step<A>,
    ) -> Result<Answer<A>, AllocError>
        requires own { AreOwn self.old.slots self.old.cache }
        ensures ok { IfOk result (λ answer. Moves (seen self.old.window (D.held device.old)) self.old step.now answer (seen self.old.window (D.held device.new)) self.new) }
        ensures err { OnErr result (Waits (seen self.old.window (D.held device.old)) self.old (seen self.old.window (D.held device.new)) self.new) }
        ensures window { self.new.window ≡ self.old.window }
        ensures beside { Beside self.old.window.first self.old.window.pages (D.held device.old) (D.held device.new) }
        ensures counted { Counts self.old.window (D.failed device.old) (D.failed device.new) self.old.failures self.new.failures }
    {
        let outcome = self.make(device, step.client, &step.request)?;
        Ok(Answer { outcome })
    }

    /// Whether the step is quiet: each job that is out is the step's own, whose operation it makes or whose result it
    /// hands in.
    #[must_use]
    pub fn is_quiet(&self, step: &Step<A>) -> bool
        ensures { result ≡ is_quiet_in step.now self.now.cache }
    {
        match job_of(&step.request) {
            Some(job) => self.core.is_alone(job),
            None => self.core.is_idle(),
        }
    }

    /// The log, after what still fills a slot was given up, in the order of the slots.
    #[must_use]
    pub fn end(self) -> Kept<A>
        requires own { AreOwn self.slots self.cache }
        ensures log { Log result.notes.items ≡ told_more self.log (given_up self.slots self.cache).part }
    {
        let Stage {
            mut core,
            window: _,
            failures: _,
            results,
            slots,
        } = self;
        drop(results);
        give_up_all(&mut core, slots);
        core.into_notes()
    }
}

impl<A: Allocator> Stage<A> {
    /// How many notes the log has.
    #[must_use]
    pub fn log_len(&self) -> usize
        ensures { result ≡ log_length self.now.log }
    {
        self.core.notes().notes.len()
    }
}

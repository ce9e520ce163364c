// What an insert or an add needs is made before anything changes: its number and its first note, and what its key and the
// calls that wait for it need, as a remove's do too.
ghost use Rattle.std.specs.Prelude.{◌≡◌, ◌≤◌, ◌+◌, ◌^◌, [], Option, Some, None, IsSome, vec_len, vec_capacity, IfOk, OnOk, OnErr, IfErr};
ghost use Rattle.hc_types.specs.FlashEntry.{FlashEntry};
ghost use Rattle.hc_memory.specs.Sound.{Sound};
ghost use Rattle.hc_history.specs.Note.{Begin};
ghost use Rattle.hc_history.specs.Seen.{op_of};
ghost use Rattle.hc_history.specs.Told.{where_kept};
ghost use Rattle.hc_machine.specs.Waiting.{entry_of_handle};
ghost use Rattle.hc_state.specs.store.Insert.{store_op as store_op_seen};
ghost use Rattle.hc_state.specs.wait.Plan.{IsThere};
ghost use Rattle.hc_state.specs.store.Plan.{Clears, Prepares, HasRoomFor};
ghost use Rattle.hc_state.specs.Whole.{Stays};

use crate::begin::number_after;
use crate::state::State;
use crate::wait::commit::Course;
use crate::wait::plan::There;
use hc_history::{Note, Notes, Op, Said};
use hc_memory::Sealed;
use hc_nvm::Outdating;
use hc_types::{Key, Refusal};
use std::alloc::{AllocError, Allocator};

/// What a key needs to leave each place where it stood, and how the calls that wait for it are served then.
#[derive(Drop)]
pub(crate) struct Clearing<A: Allocator> {
    pub outdating: Outdating<A>,
    pub courses: Vec<Course<A>, A>,
}

/// What an insert or a remove needs before it changes anything: its number, the note with which it begins, where notes are
/// kept, and what its key needs.
#[derive(Drop)]
pub(crate) struct Prepared<A: Allocator> {
    pub call: u64,
    pub begin: Option<Note<A>>,
    pub clearing: Clearing<A>,
}

/// What a call asks for that stores a handle's item: an add, or an insert. The value is shared.
fn store_op<A: Allocator>(sealed: &Sealed<A>, adds: bool) -> Result<Op<A>, AllocError>
    ensures { IfOk result (λ op. op_of op ≡ store_op_seen adds sealed.now) }
{
    let key = sealed.key().clone()?;
    let value = sealed.to_bytes()?;
    if adds {
        Ok(Op::Add(key, value, sealed.expiry()))
    } else {
        Ok(Op::Insert(key, value, sealed.expiry()))
    }
}

/// The note with which the call begins that stores a handle's item, where notes are kept.
fn begin_store<A: Allocator, N: Notes<Note<A>>>(
    notes: &N,
    call: u64,
    client: u8,
    sealed: &Sealed<A>,
    adds: bool,
) -> Result<Option<Note<A>>, AllocError>
    ensures { IfOk result (λ note. note ≡ where_kept (N.told notes.now) (Begin call client (store_op_seen adds sealed.now))) }
{
    if !notes.keeps() {
        return Ok(None);
    }
    let op = store_op(sealed, adds)?;
    Ok(Some(Note::new(Said::Begin { call, client, op })))
}

/// An empty list with room for the charges that end early: one more than so many calls that wait.
pub(crate) fn room_for_charges<A: Allocator>(
    alloc: A,
    waiting: usize,
) -> Result<Vec<u64, A>, AllocError>
    ensures empty { IfOk result (λ earlier. earlier.items ≡ []) }
    ensures room { IfOk result (λ earlier. vec_len earlier + (1 + waiting) ≤ vec_capacity earlier) }
{
    let Some(count) = waiting.checked_add(1) else {
        return Err(AllocError);
    };
    Vec::with_capacity(alloc, count)
}

impl<N: Notes<Note<A>>, A: Allocator + Clone + Copy> State<N, A> {
    /// The pools are sound, as ever.
    pub(crate) fn is_sound(&self)
        ensures { Sound self.now.cache.memory.pools self.now.cache.memory.charges self.now.cache.memory.made }
    {
        let _sound = self.pools.len();
    }

    /// The number of the next call. Refused with `NoMemory` where the numbers have run out.
    pub(crate) fn next_call(&self) -> Result<u64, Refusal>
        ensures ok { IfOk result (λ call. call ≡ self.now.cache.calls + 1) }
        ensures memory { IfErr result (λ refusal. refusal ≡ Refusal.NoMemory) }
        ensures ran_out { OnErr result (self.now.cache.calls + 1 ≡ 2 ^ 64) }
    {
        number_after(self.calls)
    }

    /// The note with which the call begins that stores a handle's item, where notes are kept.
    pub(crate) fn note_of_store(
        &self,
        call: u64,
        client: u8,
        sealed: &Sealed<A>,
        adds: bool,
    ) -> Result<Option<Note<A>>, AllocError>
        ensures { IfOk result (λ note. note ≡ where_kept self.now.log (Begin call client (store_op_seen adds sealed.now))) }
    {
        begin_store(&self.notes, call, client, sealed, adds)
    }

    /// What the key needs to leave each place where it stood, and the calls that wait for it, where this is what it has
    /// then. Refused only when out of memory.
    pub(crate) fn plan_to_clear(
        &self,
        key: &Key<A>,
        there: Option<There<A>>,
    ) -> Result<Clearing<A>, AllocError>
        ensures clears { IfOk result (λ plan. (entry : Option FlashEntry) → IsThere entry there → Clears key.now entry self.now plan) }
        ensures silent { OnErr result (IsSome self.now.cache.nvm) }
    {
        let courses = self.plan_to_serve(key, there)?;
        match self.plan_to_outdate(key) {
            Ok(outdating) => Ok(Clearing { outdating, courses }),
            Err(no_memory) => {
                drop(courses);
                Err(no_memory)
            }
        }
    }

    /// The same, where the handle's item is what the key has then.
    fn plan_to_clear_for(&self, sealed: &Sealed<A>) -> Result<Clearing<A>, AllocError>
        ensures { IfOk result (λ plan. Clears sealed.now.key (Some (entry_of_handle sealed.now)) self.now plan) }
    {
        if !self.has_flash() {
            // no call waits, so that the value isn't shared with any
            return self.plan_to_clear(sealed.key(), None);
        }
        let there = There::of_handle(sealed)?;
        self.plan_to_clear(sealed.key(), Some(there))
    }

    /// What an insert or an add of a handle's item needs before it changes anything. Refused with `NoMemory`.
    fn plan_to_store(
        &self,
        client: u8,
        sealed: &Sealed<A>,
        adds: bool,
    ) -> Result<Prepared<A>, Refusal>
        ensures ok { IfOk result (λ plan. Prepares client (store_op_seen adds sealed.now) sealed.now.key (Some (entry_of_handle sealed.now)) self.now plan) }
        ensures memory { IfErr result (λ refusal. refusal ≡ Refusal.NoMemory) }
    {
        let call = self.next_call()?;
        let clearing = self.plan_to_clear_for(sealed)?;
        match self.note_of_store(call, client, sealed, adds) {
            Ok(begin) => Ok(Prepared {
                call,
                begin,
                clearing,
            }),
            Err(_) => {
                drop(clearing);
                Err(Refusal::NoMemory)
            }
        }
    }

    /// Room for what an insert or an add of a handle's item tells and buries, and what else it needs. Refused with
    /// `NoMemory`.
    pub(crate) fn prepare_to_store(
        &mut self,
        client: u8,
        sealed: &Sealed<A>,
        adds: bool,
    ) -> Result<Prepared<A>, Refusal>
        ensures stays { Stays self.old self.new }
        ensures ok { IfOk result (λ plan. Prepares client (store_op_seen adds sealed.now) sealed.now.key (Some (entry_of_handle sealed.now)) self.new plan) }
        ensures room { OnOk result (HasRoomFor sealed.now.key self.new) }
        ensures memory { IfErr result (λ refusal. refusal ≡ Refusal.NoMemory) }
    {
        self.room_for(sealed.key())?;
        self.plan_to_store(client, sealed, adds)
    }
}

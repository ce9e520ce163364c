// Finds that hand out the value.
ghost use Rattle.std.specs.Prelude.{◌≡◌, ℕ, ◌+◌, ◌≤◌, List, [], ◌∷◌, true, false, None, Some, is_some, length, option_to_list, IfOk, OnOk, OnErr, IfErr};
ghost use Rattle.hc_memory.specs.Memory.{after_find, value_at};
ghost use Rattle.hc_history.specs.Note.{Begin, Did, End, Find};
ghost use Rattle.hc_history.specs.Told.{told_more, kind_of, is_log};
ghost use Rattle.hc_machine.specs.Cache.{Replied};
ghost use Rattle.hc_machine.specs.Calls.{must_wait as must_wait_seen, used, find as find_step};
ghost use Rattle.hc_machine.specs.Waiting.{live, find_reply};
ghost use Rattle.hc_state.specs.find.Answer.{found_answer, reply_by, stands_in, told_did};
ghost use Rattle.hc_state.specs.wait.Begin.{OwesBegun};
ghost use Rattle.hc_state.specs.Whole.{IsReady, IsStep, Stays, IsUnchanged, nvm_of};

use crate::answers::Found;
use crate::begin::{NOTES_OF_A_FIND, begin_find, number_after, room_for_notes};
use crate::find::plan::{Finding, notes_of_find, waiting_value};
use crate::state::State;
use crate::tells;
use crate::wait::begin::{is_linked, wait};
use hc_history::{Kind, Note, Notes};
use hc_memory::{Pools, ReadHandle};
use hc_nvm::Nvm;
use hc_types::{Key, Refusal};
use hc_waiting::{Waiter, Wish};
use std::alloc::{AllocError, Allocator};

/// A handle to the value that stands under the key, unless it is expired at `now` (seconds): of its item, which is then the
/// one that was used last in its pool, or else of its put that waits.
fn look_up<A: Allocator + Clone + Copy>(
    pools: &mut Pools<A>,
    nvm: &Option<Nvm<A>>,
    key: &Key<A>,
    now: u64,
) -> Result<Option<ReadHandle<A>>, AllocError>
    ensures value { IfOk result (λ found. reply_by found ≡ find_reply (live now (stands_in pools.old.pools (nvm_of nvm.now) key.now))) }
    ensures pools { OnOk result (pools.new ≡ after_find pools.old now key.now) }
    ensures err { OnErr result (pools.new ≡ pools.old) }
{
    if is_linked(pools, key) {
        return pools.find(key, now);
    }
    match waiting_value(nvm, key, now)? {
        Some(value) => Ok(Some(ReadHandle::new(value))),
        None => Ok(None),
    }
}

/// As what a find is counted, by what was found.
fn kind_by<A: Allocator>(found: &Option<ReadHandle<A>>) -> Kind
    ensures { Some result ≡ kind_of (reply_by found.now) }
{
    match found {
        Some(_) => Kind::Hit,
        None => Kind::Miss,
    }
}

/// What a find answers, by what was found.
fn found_by<A: Allocator>(found: Option<ReadHandle<A>>) -> Found<A>
    ensures { found_answer result ≡ Replied (reply_by found) }
{
    match found {
        Some(handle) => Found::Hit(handle),
        None => Found::Miss,
    }
}

/// Answers a find: by its note, where notes are kept.
fn tell_did<A: Allocator, N: Notes<Note<A>>>(notes: &mut N, did: Option<Note<A>>, kind: Kind)
    requires { 1 ≤ N.room notes.old }
    ensures told { N.told notes.new ≡ told_did (N.told notes.old) did kind }
    ensures room { N.room notes.old ≤ N.room notes.new + 1 }
{
    match did {
        Some(note) => notes.note(note),
        None => notes.count(kind),
    }
}

/// Tells the notes of a find, or counts its answer as this kind.
fn tell_find<A: Allocator, N: Notes<Note<A>>>(notes: &mut N, plan: Finding<A>, kind: Kind)
    requires { 3 ≤ N.room notes.old }
    ensures told { N.told notes.new ≡ told_more (told_did (told_more (N.told notes.old) (option_to_list plan.begin)) plan.did kind) (End plan.call ∷ []) }
    ensures room { N.room notes.old ≤ N.room notes.new + 3 }
{
    let Finding { call, begin, did } = plan;
    tells::tell(notes, begin);
    tell_did(notes, did, kind);
    tells::ended(notes, call);
}

impl<N: Notes<Note<A>>, A: Allocator + Clone + Copy> State<N, A> {
    /// A find that memory answers: the value is there, or flash can't have it.
    fn find_now(&mut self, call: u64, client: u8, key: &Key<A>) -> Result<Found<A>, Refusal>
        requires ready { IsReady self.old }
        requires call { call ≡ self.old.cache.calls + 1 }
        requires now { must_wait_seen self.old.cache key.now ≡ false }
        ensures ok { IfOk result (λ found. IsStep (find_step client key.now self.old.cache) (found_answer found) self.old self.new) }
        ensures err { OnErr result (Stays self.old self.new) }
        ensures memory { IfErr result (λ refusal. refusal ≡ Refusal.NoMemory) }
    {
        room_for_notes(&mut self.notes, &self.pools, NOTES_OF_A_FIND)?;
        let plan = notes_of_find(
            &self.notes,
            call,
            client,
            &self.pools,
            &self.nvm,
            key,
            self.clock,
        )?;
        let found = match look_up(&mut self.pools, &self.nvm, key, self.clock) {
            Ok(found) => found,
            Err(_) => {
                drop(plan);
                return Err(Refusal::NoMemory);
            }
        };

        self.calls = call;
        let kind = kind_by(&found);
        tell_find(&mut self.notes, plan, kind);
        Ok(found_by(found))
    }

    /// A find that waits for flash.
    fn find_later(&mut self, call: u64, client: u8, key: &Key<A>) -> Result<Found<A>, Refusal>
        requires ready { IsReady self.old }
        requires begun { OwesBegun self.old.cache }
        requires call { call ≡ self.old.cache.calls + 1 }
        requires later { must_wait_seen self.old.cache key.now ≡ true }
        ensures ok { IfOk result (λ found. IsStep (find_step client key.now self.old.cache) (found_answer found) self.old self.new) }
        ensures err { OnErr result (IsUnchanged self.old self.new) }
        ensures memory { IfErr result (λ refusal. refusal ≡ Refusal.NoMemory) }
    {
        room_for_notes(&mut self.notes, &self.pools, 1)?;
        let begin = begin_find(&self.notes, call, client, key)?;
        let waiter = Waiter {
            call,
            wish: Wish::Find,
        };
        match wait(&mut self.nvm, &mut self.replies, key, waiter) {
            Ok(()) => {}
            Err(waiter) => {
                drop(waiter);
                drop(begin);
                return Err(Refusal::NoMemory);
            }
        }

        self.calls = call;
        tells::tell(&mut self.notes, begin);
        Ok(Found::Waiting(call))
    }

    /// A find that is answered at once, or waits for flash.
    // Out of line, so that a find without flash has a small frame.
    #[inline(never)]
    fn find_or_wait(&mut self, call: u64, client: u8, key: &Key<A>) -> Result<Found<A>, Refusal>
        requires ready { IsReady self.old }
        requires begun { OwesBegun self.old.cache }
        requires call { call ≡ self.old.cache.calls + 1 }
        ensures ok { IfOk result (λ found. IsStep (find_step client key.now self.old.cache) (found_answer found) self.old self.new) }
        ensures err { OnErr result (IsUnchanged self.old self.new) }
        ensures memory { IfErr result (λ refusal. refusal ≡ Refusal.NoMemory) }
    {
        if self.must_wait(key) {
            self.find_later(call, client, key)
        } else {
            self.find_now(call, client, key)
        }
    }

    /// Whether notes are kept.
    pub(crate) fn keeps_notes(&self) -> bool
        ensures { result ≡ is_log self.now.log }
    {
        self.notes.keeps()
    }

    /// Whether there is flash.
    pub(crate) fn has_flash(&self) -> bool
        ensures { result ≡ is_some self.now.cache.nvm }
    {
        self.nvm.is_some()
    }

    /// A handle to the value of the key's item, unless it is expired. An item that is found is now the one that was used last
    /// in its pool, and there is room to count the find.
    fn use_item(&mut self, key: &Key<A>) -> Result<Option<ReadHandle<A>>, AllocError>
        ensures value { IfOk result (λ found. found ≡ value_at self.old.cache.now key.now self.old.cache.memory.pools) }
        ensures cache { OnOk result (self.new.cache ≡ used key.now self.old.cache) }
        ensures log { self.new.log ≡ self.old.log }
        ensures room { OnOk result (1 + length self.new.cache.memory.charges ≤ self.new.notes) }
        ensures more { self.old.notes ≤ self.new.notes }
        ensures err { OnErr result (self.new.cache ≡ self.old.cache) }
    {
        room_for_notes(&mut self.notes, &self.pools, 1)?;
        self.pools.find(key, self.clock)
    }

    /// The newest find is answered by what was found. It is counted, since notes aren't kept.
    fn count_find(&mut self, call: u64, found: Option<ReadHandle<A>>) -> Found<A>
        requires counted { is_log self.old.log ≡ false }
        requires room { 1 + length self.old.cache.memory.charges ≤ self.old.notes }
        ensures answer { found_answer result ≡ Replied (reply_by found) }
        ensures cache { self.new.cache ≡ record self.old.cache { calls = call } }
        ensures log { (client : ℕ) (key : List ℕ) → self.new.log ≡ told_more self.old.log (Begin call client (Find key) ∷ Did call (reply_by found) ∷ End call ∷ []) }
        ensures ready { IsReady self.new }
    {
        self.calls = call;
        self.notes.count(kind_by(&found));
        found_by(found)
    }

    /// A find of a key without an unexpired item, where notes aren't kept. With no flash it is a miss.
    pub(crate) fn find_beside(
        &mut self,
        call: u64,
        client: u8,
        key: &Key<A>,
    ) -> Result<Found<A>, Refusal>
        requires room { 1 + length self.old.cache.memory.charges ≤ self.old.notes }
        requires begun { OwesBegun self.old.cache }
        requires call { call ≡ self.old.cache.calls + 1 }
        requires counted { is_log self.old.log ≡ false }
        requires absent { None ≡ value_at self.old.cache.now key.now self.old.cache.memory.pools }
        ensures ok { IfOk result (λ found. IsStep (find_step client key.now self.old.cache) (found_answer found) self.old self.new) }
        ensures err { OnErr result (IsUnchanged self.old self.new) }
        ensures memory { IfErr result (λ refusal. refusal ≡ Refusal.NoMemory) }
    {
        if self.has_flash() {
            self.find_or_wait(call, client, key)
        } else {
            Ok(self.count_find(call, None))
        }
    }

    /// A find where notes aren't kept: the pools are asked at once, since no note must be made before. So a hit looks its key
    /// up twice in the item's pool, and a miss without flash once in each.
    fn find_counted(&mut self, call: u64, client: u8, key: &Key<A>) -> Result<Found<A>, Refusal>
        requires begun { OwesBegun self.old.cache }
        requires call { call ≡ self.old.cache.calls + 1 }
        requires counted { is_log self.old.log ≡ false }
        ensures ok { IfOk result (λ found. IsStep (find_step client key.now self.old.cache) (found_answer found) self.old self.new) }
        ensures err { OnErr result (IsUnchanged self.old self.new) }
        ensures memory { IfErr result (λ refusal. refusal ≡ Refusal.NoMemory) }
    {
        match self.use_item(key)? {
            Some(handle) => Ok(self.count_find(call, Some(handle))),
            None => self.find_beside(call, client, key),
        }
    }

    /// Finds the value under the key: of its item, which becomes the one of its pool that was used last, or else of its put
    /// that waits for flash. An expired one is a miss, and stays where it is. Where memory has neither and flash may have the
    /// key, the call waits, and its reply is taken later. Refused with `NoMemory`, also where the call numbers have run out.
    pub fn find(&mut self, client: u8, key: &Key<A>) -> Result<Found<A>, Refusal>
        requires ready { IsReady self.old }
        requires begun { OwesBegun self.old.cache }
        ensures ok { IfOk result (λ found. IsStep (find_step client key.now self.old.cache) (found_answer found) self.old self.new) }
        ensures err { OnErr result (IsUnchanged self.old self.new) }
        ensures memory { IfErr result (λ refusal. refusal ≡ Refusal.NoMemory) }
        ensures begun { OwesBegun self.new.cache }
    {
        let call = number_after(self.calls)?;
        if self.keeps_notes() {
            self.find_or_wait(call, client, key)
        } else {
            self.find_counted(call, client, key)
        }
    }
}

// Finds that copy the value to a buffer, and hand nothing out.
ghost use Rattle.std.specs.Prelude.{◌≡◌, ℕ, ◌+◌, ◌≤◌, List, [], ◌∷◌, false, None, Some, length, option_map, IfOk, OnOk, OnErr, IfErr};
ghost use Rattle.hc_memory.specs.Memory.{value_at, copied};
ghost use Rattle.hc_history.specs.Note.{Begin, Did, End, Find, Hit};
ghost use Rattle.hc_history.specs.Told.{told_more, is_log};
ghost use Rattle.hc_machine.specs.Calls.{used, find as find_step};
ghost use Rattle.hc_state.specs.find.Copy.{copied_by, left_by};
ghost use Rattle.hc_state.specs.find.Answer.{found_answer};
ghost use Rattle.hc_state.specs.wait.Begin.{OwesBegun};
ghost use Rattle.hc_state.specs.Whole.{IsReady, IsStep, IsUnchanged};

use crate::answers::{Copied, Found};
use crate::begin::{number_after, room_for_notes};
use crate::state::State;
use hc_history::{Kind, Note, Notes};
use hc_types::{Key, Refusal};
use std::alloc::{AllocError, Allocator};

/// What a find answers that copies what was found to the buffer.
fn copy_out<A: Allocator>(found: Found<A>, buffer: &mut [u8]) -> Copied
    ensures answer { Some result ≡ copied_by (found_answer found) }
    ensures buffer { buffer.new ≡ left_by (found_answer found) buffer.old }
{
    match found {
        Found::Hit(handle) => Copied::Hit(handle.copy_to(buffer)),
        Found::Miss => Copied::Miss,
        Found::Waiting(call) => Copied::Waiting(call),
    }
}

impl<N: Notes<Note<A>>, A: Allocator + Clone + Copy> State<N, A> {
    /// A find by a handle, out of which the value is copied.
    // Out of line, so that a find where notes are counted has a small frame.
    #[inline(never)]
    fn find_and_copy(
        &mut self,
        client: u8,
        key: &Key<A>,
        buffer: &mut [u8],
    ) -> Result<Copied, Refusal>
        requires ready { IsReady self.old }
        requires begun { OwesBegun self.old.cache }
        ensures ok { IfOk result (λ copied. IsStep (find_step client key.now self.old.cache) (find_step client key.now self.old.cache).answer self.old self.new) }
        ensures answer { IfOk result (λ copied. Some copied ≡ copied_by (find_step client key.now self.old.cache).answer) }
        ensures buffer { OnOk result (buffer.new ≡ left_by (find_step client key.now self.old.cache).answer buffer.old) }
        ensures err { OnErr result (IsUnchanged self.old self.new) }
        ensures same { OnErr result (buffer.new ≡ buffer.old) }
        ensures memory { IfErr result (λ refusal. refusal ≡ Refusal.NoMemory) }
        ensures begun { OwesBegun self.new.cache }
    {
        let found = self.find(client, key)?;
        Ok(copy_out(found, buffer))
    }

    /// Copies the value of the key's item, unless it is expired, and answers how long it is. The item is now the one that was
    /// used last in its pool, and there is room to count the find.
    fn copy_item(&mut self, key: &Key<A>, buffer: &mut [u8]) -> Result<Option<usize>, AllocError>
        ensures value { IfOk result (λ len. len ≡ option_map length (value_at self.old.cache.now key.now self.old.cache.memory.pools)) }
        ensures buffer { OnOk result (buffer.new ≡ copied (value_at self.old.cache.now key.now self.old.cache.memory.pools) buffer.old) }
        ensures cache { OnOk result (self.new.cache ≡ used key.now self.old.cache) }
        ensures log { self.new.log ≡ self.old.log }
        ensures room { OnOk result (1 + length self.new.cache.memory.charges ≤ self.new.notes) }
        ensures more { self.old.notes ≤ self.new.notes }
        ensures err { OnErr result (self.new.cache ≡ self.old.cache) }
        ensures same { OnErr result (buffer.new ≡ buffer.old) }
    {
        room_for_notes(&mut self.notes, &self.pools, 1)?;
        Ok(self.pools.find_into(key, self.clock, buffer))
    }

    /// The newest find is a hit, which is counted, since notes aren't kept.
    fn count_hit(&mut self, call: u64)
        requires counted { is_log self.old.log ≡ false }
        requires room { 1 + length self.old.cache.memory.charges ≤ self.old.notes }
        ensures cache { self.new.cache ≡ record self.old.cache { calls = call } }
        ensures log { (client : ℕ) (key value : List ℕ) → self.new.log ≡ told_more self.old.log (Begin call client (Find key) ∷ Did call (Hit value) ∷ End call ∷ []) }
        ensures ready { IsReady self.new }
    {
        self.calls = call;
        self.notes.count(Kind::Hit);
    }

    /// A find where notes aren't kept: what the pools have is copied at once, and nothing shares the value.
    fn find_into_counted(
        &mut self,
        client: u8,
        key: &Key<A>,
        buffer: &mut [u8],
    ) -> Result<Copied, Refusal>
        requires begun { OwesBegun self.old.cache }
        requires counted { is_log self.old.log ≡ false }
        ensures ok { IfOk result (λ copied. IsStep (find_step client key.now self.old.cache) (find_step client key.now self.old.cache).answer self.old self.new) }
        ensures answer { IfOk result (λ copied. Some copied ≡ copied_by (find_step client key.now self.old.cache).answer) }
        ensures buffer { OnOk result (buffer.new ≡ left_by (find_step client key.now self.old.cache).answer buffer.old) }
        ensures err { OnErr result (IsUnchanged self.old self.new) }
        ensures same { OnErr result (buffer.new ≡ buffer.old) }
        ensures memory { IfErr result (λ refusal. refusal ≡ Refusal.NoMemory) }
        ensures begun { OwesBegun self.new.cache }
    {
        let call = number_after(self.calls)?;
        match self.copy_item(key, buffer)? {
            Some(len) => {
                self.count_hit(call);
                Ok(Copied::Hit(len))
            }
            None => {
                let found = self.find_beside(call, client, key)?;
                Ok(copy_out(found, buffer))
            }
        }
    }

    /// Finds the value under the key as `find` does, and copies it to the head of the buffer: so a hit in memory takes no
    /// share of the value. Where the value is longer than the buffer its length alone is told. Refused with `NoMemory`, also
    /// where the call numbers have run out.
    pub fn find_into(
        &mut self,
        client: u8,
        key: &Key<A>,
        buffer: &mut [u8],
    ) -> Result<Copied, Refusal>
        requires ready { IsReady self.old }
        requires begun { OwesBegun self.old.cache }
        ensures ok { IfOk result (λ copied. IsStep (find_step client key.now self.old.cache) (find_step client key.now self.old.cache).answer self.old self.new) }
        ensures answer { IfOk result (λ copied. Some copied ≡ copied_by (find_step client key.now self.old.cache).answer) }
        ensures buffer { OnOk result (buffer.new ≡ left_by (find_step client key.now self.old.cache).answer buffer.old) }
        ensures err { OnErr result (IsUnchanged self.old self.new) }
        ensures same { OnErr result (buffer.new ≡ buffer.old) }
        ensures memory { IfErr result (λ refusal. refusal ≡ Refusal.NoMemory) }
        ensures begun { OwesBegun self.new.cache }
    {
        if self.keeps_notes() {
            self.find_and_copy(client, key, buffer)
        } else {
            self.find_into_counted(client, key, buffer)
        }
    }
}

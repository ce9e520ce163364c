// The calls of clients by keys, and the clock.
ghost use Rattle.std.specs.Prelude.{◌≡◌, ◌<◌, ◌%◌, length, IfOk, OnOk, OnErr, IfErr};
ghost use Rattle.hc_machine.specs.Cache.{Moment};
ghost use Rattle.hc_machine.specs.Calls.{find as find_step, remove as remove_step, tick as tick_step};
ghost use Rattle.hc_core.specs.Answers.{found_answer, removed_answer};
ghost use Rattle.hc_core.specs.Logged.{IsCall};
ghost use Rattle.hc_lease.specs.Stamps.{changed};
ghost use Rattle.hc_lease.specs.Turns.{without_turn, without_turn_at};
ghost use Rattle.hc_leased.specs.Leased.{Become, SameLeases, added_at};
ghost use Rattle.hc_machine.specs.Call.{Finds, Ticks};
ghost use Rattle.hc_leased.specs.Runs.{Does, Looks, Deletes};

use crate::cache::{Cache, Calls};
use crate::leased::Leased;
use hc_state::{Found, Inserted, Removed};
use hc_types::{Key, Refusal};
use std::alloc::Allocator;

impl<C: Cache, A: Allocator> Leased<C, A> {
    // An add of a key of this digest is answered: it has stored, or it waits, for which there is room.
    pub(crate) fn note_add(&mut self, inserted: Inserted, digest: u64)
        requires { 0 < self.old.stamps.room }
        ensures logged { self.new.logged ≡ self.old.logged }
        ensures stamps { Become (added_at (digest % length self.old.stamps.slots) inserted self.old.stamps) self.new.stamps }
        ensures turns { self.new.turns ≡ without_turn_at digest self.old.turns }
    {
        let slot = self.stamps.slot_at(digest);
        match inserted {
            Inserted::Stored => self.stamps.change_in(slot),
            Inserted::Waiting(call) => self.stamps.wait_in(call, slot),
        }
        self.turns.end_at(digest);
    }
}

impl<C: Calls<A>, A: Allocator + Clone + Copy> Leased<C, A> {
    /// As `Core::tick`.
    pub fn tick(&mut self, moment: u64) -> Result<u64, Refusal>
        ensures ok { IfOk result (λ now. IsCall (tick_step moment self.old.logged.cache) (Moment now) self.old.logged self.new.logged) }
        ensures does { IfOk result (λ now. Does (Looks (Ticks moment) (Moment now)) self.old self.new) }
        ensures leases { SameLeases self.old self.new }
        ensures err { OnErr result (self.new ≡ self.old) }
        ensures memory { IfErr result (λ refusal. refusal ≡ Refusal.NoMemory) }
    {
        self.cache.tick(moment)
    }

    /// As `Core::find`.
    pub fn find(&mut self, client: u8, key: &Key<A>) -> Result<Found<A>, Refusal>
        ensures ok { IfOk result (λ found. IsCall (find_step client key.now self.old.logged.cache) (found_answer found) self.old.logged self.new.logged) }
        ensures does { IfOk result (λ found. Does (Looks (Finds client key.now) (found_answer found)) self.old self.new) }
        ensures leases { SameLeases self.old self.new }
        ensures err { OnErr result (self.new ≡ self.old) }
        ensures memory { IfErr result (λ refusal. refusal ≡ Refusal.NoMemory) }
    {
        self.cache.find(client, key)
    }

    /// As `Core::remove`: no ticket of before is fresh for the key any more, and its turn is over.
    pub fn remove(&mut self, client: u8, key: &Key<A>) -> Result<Removed, Refusal>
        ensures ok { IfOk result (λ removed. IsCall (remove_step client key.now self.old.logged.cache) (removed_answer removed) self.old.logged self.new.logged) }
        ensures does { IfOk result (λ removed. Does (Deletes client key.now (removed_answer removed)) self.old self.new) }
        ensures stamps { OnOk result (self.new.stamps ≡ changed key.now self.old.stamps) }
        ensures turns { OnOk result (self.new.turns ≡ without_turn key.now self.old.turns) }
        ensures err { OnErr result (self.new ≡ self.old) }
        ensures memory { IfErr result (λ refusal. refusal ≡ Refusal.NoMemory) }
    {
        let removed = self.cache.remove(client, key)?;
        self.note_change(key.digest());
        Ok(removed)
    }
}

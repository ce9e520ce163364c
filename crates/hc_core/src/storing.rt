// Items are inserted and removed.
ghost use Rattle.std.specs.Prelude.{◌≡◌, IfOk, OnOk, OnErr, IfErr};
ghost use Rattle.hc_history.specs.Note.{Stored};
ghost use Rattle.hc_machine.specs.Cache.{Replied};
ghost use Rattle.hc_machine.specs.Calls.{insert_or_replace as insert_or_replace_step, insert as insert_step, remove as remove_step};
ghost use Rattle.hc_state.specs.Answers.{IsReason};
ghost use Rattle.hc_state.specs.store.Insert.{inserted_answer};
ghost use Rattle.hc_state.specs.remove.Answer.{removed_answer};
ghost use Rattle.hc_state.specs.Whole.{MayLack};
ghost use Rattle.hc_core.specs.Logged.{IsCall};

use crate::cache::Core;
use hc_history::{Note, Notes};
use hc_memory::Sealed;
use hc_state::{Inserted, Removed, Unlinked};
use hc_types::{Key, Refusal};
use std::alloc::Allocator;

impl<N: Notes<Note<A>>, A: Allocator + Clone + Copy> Core<N, A> {
    /// Inserts the item of the handle, as the one of its pool that was used last, in place of what the key has, in
    /// whichever pool and on flash; calls that wait for the key are answered by it. Refused with `ForeignHandle` where the
    /// handle isn't one of this cache's, and with `NoMemory`; then the handle comes back.
    pub fn insert_or_replace(&mut self, client: u8, sealed: Sealed<A>) -> Result<(), Unlinked<A>>
        ensures ok { OnOk result (IsCall (insert_or_replace_step client sealed self.old.cache) (Replied Stored) self.old self.new) }
        ensures err { OnErr result (self.new ≡ self.old) }
        ensures why { IfErr result (λ e. IsReason (insert_or_replace_step client sealed self.old.cache).answer e.refusal) }
        ensures sealed_returned { IfErr result (λ e. e.sealed ≡ sealed) }
    {
        let _sized = sealed.key().len();
        let _second = sealed.expiry();
        self.state.insert_or_replace(client, sealed)
    }

    /// Inserts the item of the handle where the key has no unexpired value, which isn't replaced. Where memory has none and
    /// flash may have one, the call waits, keeps the item, and its reply is taken later. Refused with `Exists` where memory
    /// has one, and else as `insert_or_replace` is; then the handle comes back.
    pub fn insert(&mut self, client: u8, sealed: Sealed<A>) -> Result<Inserted, Unlinked<A>>
        ensures ok { IfOk result (λ inserted. IsCall (insert_step client sealed self.old.cache) (inserted_answer inserted) self.old self.new) }
        ensures err { OnErr result (self.new ≡ self.old) }
        ensures why { IfErr result (λ e. IsReason (insert_step client sealed self.old.cache).answer e.refusal) }
        ensures sealed_returned { IfErr result (λ e. e.sealed ≡ sealed) }
    {
        let _sized = sealed.key().len();
        let _second = sealed.expiry();
        self.state.insert(client, sealed)
    }

    /// Takes what the key has out of the cache, expired or not: its item, its put that waits for flash, and what flash has;
    /// calls that wait for the key are answered by that. Answers whether an item was in memory. Refused with `NoMemory`,
    /// also where the call numbers have run out; without flash, where nobody hears of the log, then alone.
    pub fn remove(&mut self, client: u8, key: &Key<A>) -> Result<Removed, Refusal>
        ensures ok { IfOk result (λ removed. IsCall (remove_step client key.now self.old.cache) (removed_answer removed) self.old self.new) }
        ensures err { OnErr result (self.new ≡ self.old) }
        ensures memory { IfErr result (λ refusal. refusal ≡ Refusal.NoMemory) }
        ensures silent { OnErr result (MayLack self.old.log self.old.cache) }
    {
        self.state.remove(client, key)
    }
}

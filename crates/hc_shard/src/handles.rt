// Items are allocated, and inserted or given up.
ghost use Rattle.std.specs.Prelude.{◌≡◌, true, replicate, IfOk, IfErr, OnOk, OnErr};
ghost use Rattle.hc_types.specs.declared.refusal.Refusal.TheVariants.{WrongShard, ForeignHandle};
ghost use Rattle.hc_history.specs.Note.{Stored};
ghost use Rattle.hc_memory.specs.Seen.{filled};
ghost use Rattle.hc_machine.specs.Cache.{Opened, Discarded, Replied};
ghost use Rattle.hc_machine.specs.Evicting.{allocate as allocate_step};
ghost use Rattle.hc_machine.specs.Calls.{is_known, discard as discard_step, insert_or_replace as insert_or_replace_step, insert as insert_step};
ghost use Rattle.hc_core.specs.Answers.{IsReason, inserted_answer};
ghost use Rattle.hc_shard.specs.Shard.{is_own as is_own_seen, Does, IsWhy};

use crate::shard::Shard;
use hc_history::{Note, Notes};
use hc_memory::{Blank, Fill, Sealed, Uncharged};
use hc_state::{Inserted, Unlinked};
use hc_types::{Key, Refusal};
use std::alloc::Allocator;

impl<N: Notes<Note<A>>, A: Allocator + Clone + Copy> Shard<N, A> {
    /// Allocates an item that begins as zeros, as `Core::allocate` does. Refused with `WrongShard` first, and then as that
    /// is; then the key comes back.
    pub fn allocate(
        &mut self,
        pool: u8,
        key: Key<A>,
        size: u64,
        ttl: u32,
    ) -> Result<Blank<A>, Uncharged<A>>
        ensures own { OnOk result (is_own_seen self.old key ≡ true) }
        ensures ok { IfOk result (λ blank. Does (allocate_step pool key (replicate size 0) ttl self.old.core.cache) (Opened blank) self.old self.new) }
        ensures mine { IfOk result (λ blank. is_known self.new.core.cache blank ≡ true) }
        ensures err { OnErr result (self.new ≡ self.old) }
        ensures why { IfErr result (λ e. IsWhy (is_own_seen self.old key) WrongShard (IsReason (allocate_step pool key (replicate size 0) ttl self.old.core.cache).answer) e.refusal) }
        ensures key_returned { IfErr result (λ e. e.key ≡ key) }
    {
        self.allocate_with(pool, key, Fill::Repeated(size, 0), ttl)
    }

    /// Allocates an item that begins as `fill`, as `Core::allocate_with` does, and is refused as `allocate` is.
    pub fn allocate_with(
        &mut self,
        pool: u8,
        key: Key<A>,
        fill: Fill<'_>,
        ttl: u32,
    ) -> Result<Blank<A>, Uncharged<A>>
        ensures own { OnOk result (is_own_seen self.old key ≡ true) }
        ensures ok { IfOk result (λ blank. Does (allocate_step pool key (filled fill.entry) ttl self.old.core.cache) (Opened blank) self.old self.new) }
        ensures mine { IfOk result (λ blank. is_known self.new.core.cache blank ≡ true) }
        ensures err { OnErr result (self.new ≡ self.old) }
        ensures why { IfErr result (λ e. IsWhy (is_own_seen self.old key) WrongShard (IsReason (allocate_step pool key (filled fill.entry) ttl self.old.core.cache).answer) e.refusal) }
        ensures key_returned { IfErr result (λ e. e.key ≡ key) }
    {
        if !self.is_own(&key) {
            return Err(Uncharged {
                refusal: Refusal::WrongShard,
                key,
            });
        }
        self.core.allocate_with(pool, key, fill, ttl)
    }

    /// Gives up an item that wasn't inserted, as `Core::discard` does. One of another's key comes back, as a foreign one
    /// does.
    pub fn discard(&mut self, sealed: Sealed<A>) -> Result<(), Sealed<A>>
        ensures own { OnOk result (is_own_seen self.old sealed.key ≡ true) }
        ensures ok { OnOk result (Does (discard_step sealed self.old.core.cache) Discarded self.old self.new) }
        ensures err { OnErr result (self.new ≡ self.old) }
        ensures sealed_returned { IfErr result (λ back. back ≡ sealed) }
    {
        if !self.is_own(sealed.key()) {
            return Err(sealed);
        }
        self.core.discard(sealed)
    }

    /// Gives up an item that wasn't sealed, as `Core::discard_blank` does. One of another's key comes back, as a foreign one
    /// does.
    pub fn discard_blank(&mut self, blank: Blank<A>) -> Result<(), Blank<A>>
        ensures own { OnOk result (is_own_seen self.old blank.key ≡ true) }
        ensures ok { OnOk result (Does (discard_step blank self.old.core.cache) Discarded self.old self.new) }
        ensures err { OnErr result (self.new ≡ self.old) }
        ensures blank_returned { IfErr result (λ back. back ≡ blank) }
    {
        if !self.is_own(blank.key()) {
            return Err(blank);
        }
        self.core.discard_blank(blank)
    }

    /// Inserts the item of the handle, as `Core::insert_or_replace` does. Refused as that is: with `ForeignHandle` also
    /// where its key is another shard's.
    pub fn insert_or_replace(&mut self, client: u8, sealed: Sealed<A>) -> Result<(), Unlinked<A>>
        ensures own { OnOk result (is_own_seen self.old sealed.key ≡ true) }
        ensures ok { OnOk result (Does (insert_or_replace_step client sealed self.old.core.cache) (Replied Stored) self.old self.new) }
        ensures err { OnErr result (self.new ≡ self.old) }
        ensures why { IfErr result (λ e. IsWhy (is_own_seen self.old sealed.key) ForeignHandle (IsReason (insert_or_replace_step client sealed self.old.core.cache).answer) e.refusal) }
        ensures sealed_returned { IfErr result (λ e. e.sealed ≡ sealed) }
    {
        if !self.is_own(sealed.key()) {
            return Err(foreign(sealed));
        }
        self.core.insert_or_replace(client, sealed)
    }

    /// Inserts the item of the handle where the key has no unexpired value, as `Core::insert` does. Refused as that is: with
    /// `ForeignHandle` also where its key is another shard's.
    pub fn insert(&mut self, client: u8, sealed: Sealed<A>) -> Result<Inserted, Unlinked<A>>
        ensures own { OnOk result (is_own_seen self.old sealed.key ≡ true) }
        ensures ok { IfOk result (λ inserted. Does (insert_step client sealed self.old.core.cache) (inserted_answer inserted) self.old self.new) }
        ensures err { OnErr result (self.new ≡ self.old) }
        ensures why { IfErr result (λ e. IsWhy (is_own_seen self.old sealed.key) ForeignHandle (IsReason (insert_step client sealed self.old.core.cache).answer) e.refusal) }
        ensures sealed_returned { IfErr result (λ e. e.sealed ≡ sealed) }
    {
        if !self.is_own(sealed.key()) {
            return Err(foreign(sealed));
        }
        self.core.insert(client, sealed)
    }
}

/// The refusal of an item of another shard's key.
fn foreign<A: Allocator>(sealed: Sealed<A>) -> Unlinked<A>
    ensures refusal { result.refusal ≡ Refusal.ForeignHandle }
    ensures sealed { result.sealed ≡ sealed }
{
    Unlinked {
        refusal: Refusal::ForeignHandle,
        sealed,
    }
}

// The calls of an ordinary day: keys and values are bytes, and no handle is left to the caller.
ghost use Rattle.std.specs.Prelude.{◌≡◌, ◌≢◌, ◌⊎◌, true, None, Some, IfOk, OnOk, OnErr, IfErr};
ghost use Rattle.hc_types.specs.Limits.{key_refusal};
ghost use Rattle.hc_types.specs.declared.refusal.Refusal.TheVariants.{Exists};
ghost use Rattle.hc_history.specs.Note.{Stored};
ghost use Rattle.hc_memory.specs.Seen.{filled};
ghost use Rattle.hc_machine.specs.Cache.{Discarded, Opened, Replied, Refused};
ghost use Rattle.hc_machine.specs.Evicting.{allocate as allocate_step};
ghost use Rattle.hc_machine.specs.Calls.{is_known, discard as discard_step, insert_or_replace as insert_or_replace_step, find as find_step, remove as remove_step};
ghost use Rattle.hc_machine.specs.World.{put_new};
ghost use Rattle.hc_state.specs.set.Short.{is_brief as is_brief_seen};
ghost use Rattle.hc_core.specs.Answers.{IsReason, found_answer, copied_by, left_by, inserted_answer, removed_answer};
ghost use Rattle.hc_core.specs.Logged.{IsCall};
ghost use Rattle.hc_core.specs.Plain.{set_step, add_step, give_up_step, MayRefuse, MayRefuseNew};

use crate::cache::Core;
use crate::giving_up::{give_up, give_up_blank};
use hc_history::{Note, Notes};
use hc_memory::{Fill, Sealed, Uncharged};
use hc_state::{Copied, Found, Inserted, Removed, Unlinked};
use hc_types::{Config, Key, Refusal};
use std::alloc::Allocator;

// The key of these bytes, by the allocator of the configuration's list. Always inlined, so that it is made where the call
// has it.
#[inline(always)]
fn key_of<A: Allocator + Copy>(config: &Config<A>, bytes: &[u8]) -> Result<Key<A>, Refusal>
    ensures ok { IfOk result (λ key. key ≡ bytes.now) }
    ensures fits { OnOk result (key_refusal bytes.now ≡ None) }
    ensures why { IfErr result (λ refusal. (key_refusal bytes.now ≡ Some refusal) ⊎ ((key_refusal bytes.now ≡ None) × (refusal ≡ Refusal.NoMemory))) }
{
    Key::new(*config.pools.allocator(), bytes)
}

// The sealed handle of a new item that begins as `fill`. An item that can't be sealed for lack of memory is given up.
fn open_with<N: Notes<Note<A>>, A: Allocator + Clone + Copy>(
    core: &mut Core<N, A>,
    pool: u8,
    key: Key<A>,
    fill: Fill<'_>,
    ttl: u32,
) -> Result<Sealed<A>, Refusal>
    ensures ok { IfOk result (λ sealed. IsCall (allocate_step pool key (filled fill.entry) ttl core.old.cache) (Opened sealed) core.old core.new) }
    ensures mine { IfOk result (λ sealed. is_known core.new.cache sealed ≡ true) }
    ensures err { IfErr result (λ refusal. (core.new ≡ core.old) ⊎ (IsCall (give_up_step pool key (filled fill.entry) ttl core.old.cache) Discarded core.old core.new × (refusal ≡ Refusal.NoMemory))) }
    ensures why { IfErr result (λ refusal. IsReason (allocate_step pool key (filled fill.entry) ttl core.old.cache).answer refusal) }
{
    let blank = match core.allocate_with(pool, key, fill, ttl) {
        Ok(blank) => blank,
        Err(Uncharged { refusal, key }) => {
            drop(key);
            return Err(refusal);
        }
    };
    match blank.seal() {
        Ok(sealed) => Ok(sealed),
        Err(blank) => {
            give_up_blank(core, blank);
            Err(Refusal::NoMemory)
        }
    }
}

// Inserts an item of this cache, in place of what the key has. For out of memory it is given up.
fn link<N: Notes<Note<A>>, A: Allocator + Clone + Copy>(
    core: &mut Core<N, A>,
    sealed: Sealed<A>,
) -> Result<(), Refusal>
    requires mine { is_known core.old.cache sealed ≡ true }
    ensures ok { OnOk result (IsCall (insert_or_replace_step 0 sealed core.old.cache) (Replied Stored) core.old core.new) }
    ensures err { OnErr result (IsCall (discard_step sealed core.old.cache) Discarded core.old core.new) }
    ensures memory { IfErr result (λ refusal. refusal ≡ Refusal.NoMemory) }
{
    match core.insert_or_replace(0, sealed) {
        Ok(()) => Ok(()),
        Err(Unlinked { refusal, sealed }) => {
            give_up(core, sealed);
            Err(refusal)
        }
    }
}

// Stores what `fill` says under the key: the item is allocated, and inserted by its handle. Never inlined, so that a caller
// that stores in one step doesn't take the room for it.
#[inline(never)]
fn set_by_handle<N: Notes<Note<A>>, A: Allocator + Clone + Copy>(
    core: &mut Core<N, A>,
    pool: u8,
    key: Key<A>,
    fill: Fill<'_>,
    ttl: u32,
) -> Result<(), Refusal>
    ensures ok { OnOk result (IsCall (set_step pool key (filled fill.entry) ttl core.old.cache) (Replied Stored) core.old core.new) }
    ensures err { IfErr result (λ refusal. (core.new ≡ core.old) ⊎ (IsCall (give_up_step pool key (filled fill.entry) ttl core.old.cache) Discarded core.old core.new × (refusal ≡ Refusal.NoMemory))) }
    ensures why { IfErr result (λ refusal. MayRefuse (allocate_step pool key (filled fill.entry) ttl core.old.cache).answer refusal) }
{
    let sealed = open_with(core, pool, key, fill, ttl)?;
    link(core, sealed)
}

// Inserts an item of this cache where the key has no unexpired value. Where memory has one, the new item is given up.
fn link_new<N: Notes<Note<A>>, A: Allocator + Clone + Copy>(
    core: &mut Core<N, A>,
    sealed: Sealed<A>,
) -> Result<Inserted, Refusal>
    requires mine { is_known core.old.cache sealed ≡ true }
    ensures ok { IfOk result (λ inserted. IsCall (put_new sealed core.old.cache) (inserted_answer inserted) core.old core.new) }
    ensures err { IfErr result (λ refusal. (IsCall (put_new sealed core.old.cache) (Refused Exists) core.old core.new × (refusal ≡ Refusal.Exists)) ⊎ (IsCall (discard_step sealed core.old.cache) Discarded core.old core.new × (refusal ≡ Refusal.NoMemory))) }
{
    match core.insert(0, sealed) {
        Ok(inserted) => Ok(inserted),
        Err(Unlinked { refusal, sealed }) => {
            give_up(core, sealed);
            Err(refusal)
        }
    }
}

impl<N: Notes<Note<A>>, A: Allocator + Clone + Copy> Core<N, A> {
    // Stores what `fill` says under the key in one step.
    fn set_short(&mut self, pool: u8, key: Key<A>, fill: Fill<'_>, ttl: u32) -> Result<(), Refusal>
        requires brief { is_brief_seen key self.old.log self.old.cache ≡ true }
        ensures ok { OnOk result (IsCall (set_step pool key (filled fill.entry) ttl self.old.cache) (Replied Stored) self.old self.new) }
        ensures err { IfErr result (λ refusal. (self.new ≡ self.old) ⊎ (IsCall (give_up_step pool key (filled fill.entry) ttl self.old.cache) Discarded self.old self.new × (refusal ≡ Refusal.NoMemory))) }
        ensures why { IfErr result (λ refusal. MayRefuse (allocate_step pool key (filled fill.entry) ttl self.old.cache).answer refusal) }
    {
        self.state.set_short(pool, key, fill, ttl)
    }

    // Whether a value can be stored under the key in one step.
    fn is_brief(&self, key: &Key<A>) -> bool
        ensures { result ≡ is_brief_seen key.now self.now.log self.now.cache }
    {
        self.state.is_brief(key)
    }

    // Stores what `fill` says under the key: in one step where notes aren't kept and no call waits for it.
    fn set_key(&mut self, pool: u8, key: Key<A>, fill: Fill<'_>, ttl: u32) -> Result<(), Refusal>
        ensures ok { OnOk result (IsCall (set_step pool key (filled fill.entry) ttl self.old.cache) (Replied Stored) self.old self.new) }
        ensures err { IfErr result (λ refusal. (self.new ≡ self.old) ⊎ (IsCall (give_up_step pool key (filled fill.entry) ttl self.old.cache) Discarded self.old self.new × (refusal ≡ Refusal.NoMemory))) }
        ensures why { IfErr result (λ refusal. MayRefuse (allocate_step pool key (filled fill.entry) ttl self.old.cache).answer refusal) }
    {
        if self.is_brief(&key) {
            return self.set_short(pool, key, fill, ttl);
        }
        set_by_handle(self, pool, key, fill, ttl)
    }

    /// Stores a copy of `value` under the key in the pool, in place of what the key has in whichever pool and on flash, for
    /// `ttl` seconds from now (0: for good). Room is made as `allocate` makes it. An item that is stored before the first
    /// `tick` expires as soon as the clock moves to the day's seconds: tick first.
    ///
    /// Refused with `KeyEmpty`, `KeyTooLong`, `NoPool`, `ValueTooLong` or `NoRoom`, and with `NoMemory`, also once room
    /// was made: then what went to make it has left memory, and what the key has stays, if it didn't go too. A key of up to
    /// 46 bytes takes no memory itself.
    pub fn set(&mut self, pool: u8, key: &[u8], value: &[u8], ttl: u32) -> Result<(), Refusal>
        ensures ok { OnOk result (IsCall (set_step pool key.now value.now ttl self.old.cache) (Replied Stored) self.old self.new) }
        ensures fits { OnOk result (key_refusal key.now ≡ None) }
        ensures err { IfErr result (λ refusal. (self.new ≡ self.old) ⊎ (IsCall (give_up_step pool key.now value.now ttl self.old.cache) Discarded self.old self.new × (refusal ≡ Refusal.NoMemory))) }
        ensures why { IfErr result (λ refusal. (key_refusal key.now ≡ Some refusal) ⊎ ((key_refusal key.now ≡ None) × MayRefuse (allocate_step pool key.now value.now ttl self.old.cache).answer refusal)) }
    {
        self.set_with(pool, key, Fill::Copied(value), ttl)
    }

    /// Stores what `fill` says, as `set` does a copy of bytes.
    pub fn set_with(
        &mut self,
        pool: u8,
        key: &[u8],
        fill: Fill<'_>,
        ttl: u32,
    ) -> Result<(), Refusal>
        ensures ok { OnOk result (IsCall (set_step pool key.now (filled fill.entry) ttl self.old.cache) (Replied Stored) self.old self.new) }
        ensures fits { OnOk result (key_refusal key.now ≡ None) }
        ensures err { IfErr result (λ refusal. (self.new ≡ self.old) ⊎ (IsCall (give_up_step pool key.now (filled fill.entry) ttl self.old.cache) Discarded self.old self.new × (refusal ≡ Refusal.NoMemory))) }
        ensures why { IfErr result (λ refusal. (key_refusal key.now ≡ Some refusal) ⊎ ((key_refusal key.now ≡ None) × MayRefuse (allocate_step pool key.now (filled fill.entry) ttl self.old.cache).answer refusal)) }
    {
        let key = key_of(self.config(), key)?;
        self.set_key(pool, key, fill, ttl)
    }

    /// Stores a copy of `value` as `set` does, where the key has no unexpired value once room is made. Where memory has
    /// none and flash may have one, the call waits, and its reply is taken later. Where memory has one, that one stays, and
    /// the call is refused with `Exists`: what went to make room has left memory. Otherwise refused as `set` is.
    pub fn add(&mut self, pool: u8, key: &[u8], value: &[u8], ttl: u32) -> Result<Inserted, Refusal>
        ensures ok { IfOk result (λ inserted. IsCall (add_step pool key.now value.now ttl self.old.cache) (inserted_answer inserted) self.old self.new) }
        ensures fits { OnOk result (key_refusal key.now ≡ None) }
        ensures err { IfErr result (λ refusal. ((self.new ≡ self.old) × (refusal ≢ Refusal.Exists)) ⊎ ((IsCall (add_step pool key.now value.now ttl self.old.cache) (Refused Exists) self.old self.new × (refusal ≡ Refusal.Exists)) ⊎ (IsCall (give_up_step pool key.now value.now ttl self.old.cache) Discarded self.old self.new × (refusal ≡ Refusal.NoMemory)))) }
        ensures why { IfErr result (λ refusal. (key_refusal key.now ≡ Some refusal) ⊎ ((key_refusal key.now ≡ None) × MayRefuseNew (allocate_step pool key.now value.now ttl self.old.cache).answer refusal)) }
    {
        self.add_with(pool, key, Fill::Copied(value), ttl)
    }

    /// Stores what `fill` says, as `add` does a copy of bytes.
    pub fn add_with(
        &mut self,
        pool: u8,
        key: &[u8],
        fill: Fill<'_>,
        ttl: u32,
    ) -> Result<Inserted, Refusal>
        ensures ok { IfOk result (λ inserted. IsCall (add_step pool key.now (filled fill.entry) ttl self.old.cache) (inserted_answer inserted) self.old self.new) }
        ensures fits { OnOk result (key_refusal key.now ≡ None) }
        ensures err { IfErr result (λ refusal. ((self.new ≡ self.old) × (refusal ≢ Refusal.Exists)) ⊎ ((IsCall (add_step pool key.now (filled fill.entry) ttl self.old.cache) (Refused Exists) self.old self.new × (refusal ≡ Refusal.Exists)) ⊎ (IsCall (give_up_step pool key.now (filled fill.entry) ttl self.old.cache) Discarded self.old self.new × (refusal ≡ Refusal.NoMemory)))) }
        ensures why { IfErr result (λ refusal. (key_refusal key.now ≡ Some refusal) ⊎ ((key_refusal key.now ≡ None) × MayRefuseNew (allocate_step pool key.now (filled fill.entry) ttl self.old.cache).answer refusal)) }
    {
        let key = key_of(self.config(), key)?;
        let sealed = open_with(self, pool, key, fill, ttl)?;
        link_new(self, sealed)
    }

    /// Finds the value under the key, as `find` does. Refused with `KeyEmpty` and `KeyTooLong`, and with `NoMemory`. A
    /// key of up to 46 bytes takes no memory itself.
    pub fn get(&mut self, key: &[u8]) -> Result<Found<A>, Refusal>
        ensures ok { IfOk result (λ found. IsCall (find_step 0 key.now self.old.cache) (found_answer found) self.old self.new) }
        ensures fits { OnOk result (key_refusal key.now ≡ None) }
        ensures err { OnErr result (self.new ≡ self.old) }
        ensures why { IfErr result (λ refusal. (key_refusal key.now ≡ Some refusal) ⊎ ((key_refusal key.now ≡ None) × (refusal ≡ Refusal.NoMemory))) }
    {
        let key = key_of(self.config(), key)?;
        // the one refusal of a find, as a constant: handed on as a value, it makes LLVM copy the notes of each find
        match self.find(0, &key) {
            Ok(found) => Ok(found),
            Err(_) => Err(Refusal::NoMemory),
        }
    }

    /// Finds the value under the key, and copies it to the head of the buffer (of bytes), as `find_into` does. Refused as `get`
    /// is; then the buffer is as it was.
    pub fn get_into(&mut self, key: &[u8], buffer: &mut [u8]) -> Result<Copied, Refusal>
        ensures ok { IfOk result (λ copied. IsCall (find_step 0 key.now self.old.cache) (find_step 0 key.now self.old.cache).answer self.old self.new) }
        ensures answer { IfOk result (λ copied. Some copied ≡ copied_by (find_step 0 key.now self.old.cache).answer) }
        ensures buffer { OnOk result (buffer.new ≡ left_by (find_step 0 key.now self.old.cache).answer buffer.old) }
        ensures fits { OnOk result (key_refusal key.now ≡ None) }
        ensures err { OnErr result (self.new ≡ self.old) }
        ensures same { OnErr result (buffer.new ≡ buffer.old) }
        ensures why { IfErr result (λ refusal. (key_refusal key.now ≡ Some refusal) ⊎ ((key_refusal key.now ≡ None) × (refusal ≡ Refusal.NoMemory))) }
    {
        let key = key_of(self.config(), key)?;
        self.find_into(0, &key, buffer)
    }

    /// Takes what the key has out of the cache, expired or not, as `remove` does. Refused as `get` is.
    pub fn delete(&mut self, key: &[u8]) -> Result<Removed, Refusal>
        ensures ok { IfOk result (λ removed. IsCall (remove_step 0 key.now self.old.cache) (removed_answer removed) self.old self.new) }
        ensures fits { OnOk result (key_refusal key.now ≡ None) }
        ensures err { OnErr result (self.new ≡ self.old) }
        ensures why { IfErr result (λ refusal. (key_refusal key.now ≡ Some refusal) ⊎ ((key_refusal key.now ≡ None) × (refusal ≡ Refusal.NoMemory))) }
    {
        let key = key_of(self.config(), key)?;
        self.remove(0, &key)
    }
}

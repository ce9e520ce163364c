// The calls of an ordinary day: keys and values are bytes.
ghost use Rattle.std.specs.Prelude.{◌≡◌, ◌≢◌, ◌⊎◌, true, None, Some, IfOk, OnOk, OnErr, IfErr};
ghost use Rattle.hc_types.specs.Limits.{key_refusal};
ghost use Rattle.hc_types.specs.declared.refusal.Refusal.TheVariants.{Exists, WrongShard};
ghost use Rattle.hc_history.specs.Note.{Stored};
ghost use Rattle.hc_machine.specs.Cache.{Discarded, Replied, Refused};
ghost use Rattle.hc_machine.specs.Evicting.{allocate as allocate_step};
ghost use Rattle.hc_machine.specs.Calls.{find as find_step, remove as remove_step};
ghost use Rattle.hc_core.specs.Answers.{found_answer, copied_by, left_by, inserted_answer, removed_answer};
ghost use Rattle.hc_core.specs.Plain.{set_step, add_step, give_up_step, MayRefuse, MayRefuseNew};
ghost use Rattle.hc_shard.specs.Shard.{is_own as is_own_seen, Does, IsWhy, IsWhyOf, IsMemory};

use crate::shard::Shard;
use hc_history::{Note, Notes};
use hc_state::{Copied, Found, Inserted, Removed};
use hc_types::Refusal;
use std::alloc::Allocator;

impl<N: Notes<Note<A>>, A: Allocator + Clone + Copy> Shard<N, A> {
    /// Stores a copy of `value` under the key, as `Core::set` does. Refused with `WrongShard` first, and then as that is.
    pub fn set(&mut self, pool: u8, key: &[u8], value: &[u8], ttl: u32) -> Result<(), Refusal>
        ensures own { OnOk result (is_own_seen self.old key.now ≡ true) }
        ensures ok { OnOk result (Does (set_step pool key.now value.now ttl self.old.core.cache) (Replied Stored) self.old self.new) }
        ensures err { IfErr result (λ refusal. (self.new ≡ self.old) ⊎ (Does (give_up_step pool key.now value.now ttl self.old.core.cache) Discarded self.old self.new × (refusal ≡ Refusal.NoMemory))) }
        ensures why { IfErr result (λ refusal. IsWhy (is_own_seen self.old key.now) WrongShard (IsWhyOf key.now (MayRefuse (allocate_step pool key.now value.now ttl self.old.core.cache).answer)) refusal) }
    {
        if !self.is_own_of(key) {
            return Err(Refusal::WrongShard);
        }
        self.core.set(pool, key, value, ttl)
    }

    /// Stores a copy of `value` where the key has no unexpired value, as `Core::add` does. Refused with `WrongShard` first,
    /// and then as that is.
    pub fn add(&mut self, pool: u8, key: &[u8], value: &[u8], ttl: u32) -> Result<Inserted, Refusal>
        ensures own { OnOk result (is_own_seen self.old key.now ≡ true) }
        ensures ok { IfOk result (λ inserted. Does (add_step pool key.now value.now ttl self.old.core.cache) (inserted_answer inserted) self.old self.new) }
        ensures err { IfErr result (λ refusal. ((self.new ≡ self.old) × (refusal ≢ Refusal.Exists)) ⊎ ((Does (add_step pool key.now value.now ttl self.old.core.cache) (Refused Exists) self.old self.new × (refusal ≡ Refusal.Exists)) ⊎ (Does (give_up_step pool key.now value.now ttl self.old.core.cache) Discarded self.old self.new × (refusal ≡ Refusal.NoMemory)))) }
        ensures why { IfErr result (λ refusal. IsWhy (is_own_seen self.old key.now) WrongShard (IsWhyOf key.now (MayRefuseNew (allocate_step pool key.now value.now ttl self.old.core.cache).answer)) refusal) }
    {
        if !self.is_own_of(key) {
            return Err(Refusal::WrongShard);
        }
        self.core.add(pool, key, value, ttl)
    }

    /// Finds the value under the key, as `Core::get` does. Refused with `WrongShard` first, and then as that is.
    pub fn get(&mut self, key: &[u8]) -> Result<Found<A>, Refusal>
        ensures own { OnOk result (is_own_seen self.old key.now ≡ true) }
        ensures ok { IfOk result (λ found. Does (find_step 0 key.now self.old.core.cache) (found_answer found) self.old self.new) }
        ensures err { OnErr result (self.new ≡ self.old) }
        ensures why { IfErr result (λ refusal. IsWhy (is_own_seen self.old key.now) WrongShard (IsWhyOf key.now IsMemory) refusal) }
    {
        if !self.is_own_of(key) {
            return Err(Refusal::WrongShard);
        }
        self.core.get(key)
    }

    /// Finds the value under the key and copies it, as `Core::get_into` does. Refused as `get` is; then the buffer is as it
    /// was.
    pub fn get_into(&mut self, key: &[u8], buffer: &mut [u8]) -> Result<Copied, Refusal>
        ensures own { OnOk result (is_own_seen self.old key.now ≡ true) }
        ensures ok { IfOk result (λ copied. Does (find_step 0 key.now self.old.core.cache) (find_step 0 key.now self.old.core.cache).answer self.old self.new) }
        ensures answer { IfOk result (λ copied. Some copied ≡ copied_by (find_step 0 key.now self.old.core.cache).answer) }
        ensures buffer { OnOk result (buffer.new ≡ left_by (find_step 0 key.now self.old.core.cache).answer buffer.old) }
        ensures err { OnErr result (self.new ≡ self.old) }
        ensures same { OnErr result (buffer.new ≡ buffer.old) }
        ensures why { IfErr result (λ refusal. IsWhy (is_own_seen self.old key.now) WrongShard (IsWhyOf key.now IsMemory) refusal) }
    {
        if !self.is_own_of(key) {
            return Err(Refusal::WrongShard);
        }
        self.core.get_into(key, buffer)
    }

    /// Takes what the key has out of the shard, as `Core::delete` does. Refused as `get` is.
    pub fn delete(&mut self, key: &[u8]) -> Result<Removed, Refusal>
        ensures own { OnOk result (is_own_seen self.old key.now ≡ true) }
        ensures ok { IfOk result (λ removed. Does (remove_step 0 key.now self.old.core.cache) (removed_answer removed) self.old self.new) }
        ensures err { OnErr result (self.new ≡ self.old) }
        ensures why { IfErr result (λ refusal. IsWhy (is_own_seen self.old key.now) WrongShard (IsWhyOf key.now IsMemory) refusal) }
    {
        if !self.is_own_of(key) {
            return Err(Refusal::WrongShard);
        }
        self.core.delete(key)
    }
}

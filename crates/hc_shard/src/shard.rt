// A shard, and what its clients find and remove.
ghost use Rattle.std.specs.Prelude.{◌≡◌, ◌⊎◌, ◌<◌, ◌≤◌, true, [], None, Some, IfOk, IfErr, OnOk, OnErr};
ghost use Rattle.hc_types.specs.Limits.{first_wrong};
ghost use Rattle.hc_types.specs.declared.refusal.Refusal.TheVariants.{WrongShard};
ghost use Rattle.hc_history.specs.Seen.{reply_of};
ghost use Rattle.hc_history.specs.Told.{IfLog, Hears};
ghost use Rattle.hc_machine.specs.Cache.{new_cache, Replied, Moment};
ghost use Rattle.hc_machine.specs.Calls.{find as find_step, remove as remove_step, take_reply as reply_step, tick as tick_step};
ghost use Rattle.hc_shards.specs.Shards.{shard_of, share_of, sharded_wrong};
ghost use Rattle.hc_core.specs.Answers.{IsReason, found_answer, removed_answer, copied_by, left_by};
ghost use Rattle.hc_shard.specs.Shard.{is_own as is_own_seen, Does, IsWhy, IsMemory};

use hc_core::Core;
use hc_history::{Listener, Note, Notes, Reply};
use hc_shards::{Sharded, shares_are_right};
use hc_state::{Copied, Found, Removed};
use hc_types::{Key, Refusal, hash_of};
use std::alloc::{Allocator, Global};
use std::marker::Model;

/// One shard of a cache that is cut into many: a cache by itself, with its share of each pool, which is told of its own
/// keys alone. A call of another's key is refused with `WrongShard` before all else, and an item of another's key is a
/// foreign handle; nothing changes then. Each call is that of `Core` else.
#[derive(Drop)]
pub struct Shard<N: Listener, A: Allocator = Global> {
    pub(crate) core: Core<N, A>,
    shard: u8,
    shards: u8,
}

impl<N: Listener, A: Allocator> Model for Shard<N, A> {
    ghost use Rattle.std.specs.Prelude.{◌<◌};
    ghost use Rattle.hc_shard.specs.Shard.{Shard as Seen};

    ghost Value = { Seen };

    ghost view = { λ s. record { core = s.core; shard = s.shard; shards = s.shards } };

    ghost invariant = { λ s. s.shard < s.shards };
}

impl<N: Notes<Note<A>>, A: Allocator + Clone + Copy> Shard<N, A> {
    /// The empty shard of this number, from 0, which tells `notes` what it does. Refused as `Sharded::check` refuses; with
    /// `BadShards` where there is no shard of this number; and with `NoMemory`. Then `notes` are dropped.
    pub fn new_shard(
        alloc: A,
        sharded: &Sharded<A>,
        shard: u8,
        notes: N,
    ) -> Result<Shard<N, A>, Refusal>
        requires log { IfLog (N.told notes) (λ log. log ≡ []) }
        ensures ok { IfOk result (λ s. s ≡ record { core = record { cache = new_cache (share_of sharded.now); log = N.told notes }; shard = shard; shards = sharded.now.shards }) }
        ensures fits { OnOk result ((sharded_wrong sharded.now ≡ None) × (shard < sharded.now.shards)) }
        ensures err { IfErr result (λ refusal. (sharded_wrong sharded.now ≡ Some refusal) ⊎ ((refusal ≡ Refusal.BadShards) × (sharded.now.shards ≤ shard)) ⊎ (refusal ≡ Refusal.NoMemory)) }
    {
        sharded.check()?;
        if shard >= sharded.shards {
            return Err(Refusal::BadShards);
        }
        let share = sharded.share(alloc)?;
        shares_are_right();
        match Core::new(alloc, &share, notes) {
            Ok(core) => Ok(Shard {
                core,
                shard,
                shards: sharded.shards,
            }),
            Err(_) => Err(Refusal::NoMemory),
        }
    }
}

impl<N: Listener, A: Allocator> Shard<N, A> {
    /// Its number among the shards, from 0.
    #[must_use]
    pub fn shard(&self) -> u8
        ensures value { result ≡ self.now.shard }
        ensures below { result < self.now.shards }
    {
        self.shard
    }

    /// How many shards there are.
    #[must_use]
    pub fn shards(&self) -> u8
        ensures { result ≡ self.now.shards }
    {
        self.shards
    }

    /// Its cache, to look at.
    #[must_use]
    pub fn core(&self) -> &Core<N, A>
        ensures { result.now ≡ self.now.core }
    {
        &self.core
    }

    /// Its cache, which is told of any key from then on.
    #[must_use]
    pub fn into_core(self) -> Core<N, A>
        ensures { result ≡ self.core }
    {
        let Shard {
            core,
            shard: _,
            shards: _,
        } = self;
        core
    }

    /// Whether the key is one of its own.
    #[must_use]
    pub fn is_own(&self, key: &Key<A>) -> bool
        ensures { result ≡ is_own_seen self.now key.now }
    {
        self.is_own_of(key.as_slice())
    }

    /// Whether a key of these bytes is.
    pub(crate) fn is_own_of(&self, key: &[u8]) -> bool
        ensures { result ≡ is_own_seen self.now key.now }
    {
        self.shards == 1 || (hash_of(key) >> 40) % u64::from(self.shards) == u64::from(self.shard)
    }
}

impl<N: Notes<Note<A>>, A: Allocator + Clone + Copy> Shard<N, A> {
    /// Moves its clock on, as `Core::tick` does. Each shard has a clock of its own.
    pub fn tick(&mut self, moment: u64) -> Result<u64, Refusal>
        ensures ok { IfOk result (λ now. Does (tick_step moment self.old.core.cache) (Moment now) self.old self.new) }
        ensures err { OnErr result (self.new ≡ self.old) }
        ensures memory { IfErr result (λ refusal. refusal ≡ Refusal.NoMemory) }
        ensures silent { OnErr result (Hears self.old.core.log) }
    {
        self.core.tick(moment)
    }

    /// Finds the value under the key, as `Core::find` does. Refused with `WrongShard`, and with `NoMemory`.
    pub fn find(&mut self, client: u8, key: &Key<A>) -> Result<Found<A>, Refusal>
        ensures own { OnOk result (is_own_seen self.old key.now ≡ true) }
        ensures ok { IfOk result (λ found. Does (find_step client key.now self.old.core.cache) (found_answer found) self.old self.new) }
        ensures err { OnErr result (self.new ≡ self.old) }
        ensures why { IfErr result (λ refusal. IsWhy (is_own_seen self.old key.now) WrongShard IsMemory refusal) }
    {
        if !self.is_own(key) {
            return Err(Refusal::WrongShard);
        }
        self.core.find(client, key)
    }

    /// Finds the value under the key and copies it, as `Core::find_into` does. Refused as `find` is; then the buffer is as it
    /// was.
    pub fn find_into(
        &mut self,
        client: u8,
        key: &Key<A>,
        buffer: &mut [u8],
    ) -> Result<Copied, Refusal>
        ensures own { OnOk result (is_own_seen self.old key.now ≡ true) }
        ensures ok { IfOk result (λ copied. Does (find_step client key.now self.old.core.cache) (find_step client key.now self.old.core.cache).answer self.old self.new) }
        ensures answer { IfOk result (λ copied. Some copied ≡ copied_by (find_step client key.now self.old.core.cache).answer) }
        ensures buffer { OnOk result (buffer.new ≡ left_by (find_step client key.now self.old.core.cache).answer buffer.old) }
        ensures err { OnErr result (self.new ≡ self.old) }
        ensures same { OnErr result (buffer.new ≡ buffer.old) }
        ensures why { IfErr result (λ refusal. IsWhy (is_own_seen self.old key.now) WrongShard IsMemory refusal) }
    {
        if !self.is_own(key) {
            return Err(Refusal::WrongShard);
        }
        self.core.find_into(client, key, buffer)
    }

    /// Takes what the key has out of the shard, as `Core::remove` does. Refused with `WrongShard`, and with `NoMemory`.
    pub fn remove(&mut self, client: u8, key: &Key<A>) -> Result<Removed, Refusal>
        ensures own { OnOk result (is_own_seen self.old key.now ≡ true) }
        ensures ok { IfOk result (λ removed. Does (remove_step client key.now self.old.core.cache) (removed_answer removed) self.old self.new) }
        ensures err { OnErr result (self.new ≡ self.old) }
        ensures why { IfErr result (λ refusal. IsWhy (is_own_seen self.old key.now) WrongShard IsMemory refusal) }
    {
        if !self.is_own(key) {
            return Err(Refusal::WrongShard);
        }
        self.core.remove(client, key)
    }

    /// Takes the reply of the call that waited, as `Core::take_reply` does.
    pub fn take_reply(&mut self, call: u64) -> Result<Reply<A>, Refusal>
        ensures ok { IfOk result (λ reply. Does (reply_step call self.old.core.cache) (Replied (reply_of reply)) self.old self.new) }
        ensures err { OnErr result (self.new ≡ self.old) }
        ensures why { IfErr result (λ refusal. IsReason (reply_step call self.old.core.cache).answer refusal) }
        ensures silent { IfErr result (λ refusal. refusal ≡ Refusal.NoMemory → Hears self.old.core.log) }
    {
        self.core.take_reply(call)
    }
}

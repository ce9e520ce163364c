// The core of a cache of pools with flash behind them.
ghost use Rattle.std.specs.Prelude.{◌≡◌, ◌⊎◌, true, [], None, Some, replicate, IfOk, OnOk, OnErr, IfErr};
ghost use Rattle.hc_types.specs.Limits.{first_wrong};
ghost use Rattle.hc_types.specs.declared.refusal.Refusal.TheVariants.{ForeignHandle};
ghost use Rattle.hc_history.specs.Seen.{reply_of};
ghost use Rattle.hc_history.specs.Told.{IfLog, Hears};
ghost use Rattle.hc_memory.specs.Seen.{filled};
ghost use Rattle.hc_machine.specs.Cache.{new_cache, Opened, Discarded, Replied, Moment, Refused};
ghost use Rattle.hc_machine.specs.Evicting.{allocate as allocate_step};
ghost use Rattle.hc_machine.specs.Calls.{is_known, discard as discard_step, find as find_step, take_reply as reply_step, tick as tick_step};
ghost use Rattle.hc_state.specs.Answers.{IsNextReply, IsReason};
ghost use Rattle.hc_state.specs.find.Copy.{copied_by, left_by};
ghost use Rattle.hc_state.specs.find.Answer.{found_answer};
ghost use Rattle.hc_core.specs.Holds.{Holds};
ghost use Rattle.hc_core.specs.Logged.{IsCall, logged_of};

use hc_history::{Listener, Note, Notes, Reply};
use hc_memory::{Blank, Fill, Sealed, Uncharged};
use hc_state::{Copied, Found, State};
use hc_types::{Config, Key, Refusal};
use std::alloc::{Allocator, Global};
use std::marker::Model;

/// A cache of up to 16 pools, with flash behind them where it is configured (CacheLib's `CacheAllocator`). Contracts see
/// the machine's cache, and what is heard of its log.
///
/// Each call first takes all the memory that it needs, and then changes what is there. So a refusal leaves everything
/// as it was, and gives back the key, the handle or the result that was handed in.
///
/// An item is written in two steps, as in CacheLib: `allocate` makes room and charges it, and gives a handle through
/// which it is written; it can be found once its sealed handle is spent by `insert_or_replace` or `insert`.
///
/// What leaves memory is written to flash, and what a find or an insert misses is read from there, by workers: a worker
/// takes a job, does the device operation that the take tells, and hands in what came of it, until the job is over. A call
/// that waits for flash answers its number, and its reply is taken later.
///
/// An insert, a find and a remove take the number of the client that calls, for the log to tell.
pub struct Core<N: Listener, A: Allocator = Global> {
    pub(crate) state: State<N, A>,
}

impl<N: Listener, A: Allocator> Model for Core<N, A> {
    ghost use Rattle.hc_core.specs.Logged.{Logged, logged_of};
    ghost use Rattle.hc_core.specs.Holds.{Holds};

    ghost Value = { Logged };

    ghost view = { λ c. logged_of c.state };

    ghost invariant = { λ c. Holds c.state };
}

// (written out, so that who drops a core calls this one function, whatever stands in it)
impl<N: Listener, A: Allocator> Drop for Core<N, A> {
    fn drop(self) {
        let Core { state: _ } = self;
    }
}

impl<N: Listener, A: Allocator> Core<N, A> {
    /// What it holds.
    pub(crate) fn into_state(self) -> State<N, A>
        ensures seen { logged_of result ≡ self }
        ensures holds { Holds result }
    {
        let Core { state } = self;
        state
    }
}

impl<N: Notes<Note<A>>, A: Allocator + Clone + Copy> Core<N, A> {
    /// An empty cache, which tells `notes` what it does. Its items are allocated by `alloc`, and it keeps a copy of the
    /// configuration. Refused for the first number of the configuration that is outside its limits, as `Config::check` is,
    /// and with `NoMemory`; then `notes` are dropped.
    pub fn new(alloc: A, config: &Config<A>, notes: N) -> Result<Core<N, A>, Refusal>
        requires log { IfLog (N.told notes) (λ log. log ≡ []) }
        ensures ok { IfOk result (λ core. core ≡ record { cache = new_cache config.now; log = N.told notes }) }
        ensures fits { OnOk result (first_wrong config.now ≡ None) }
        ensures err { IfErr result (λ refusal. (first_wrong config.now ≡ Some refusal) ⊎ ((first_wrong config.now ≡ None) × (refusal ≡ Refusal.NoMemory))) }
    {
        let state = State::new(alloc, config, notes)?;
        Ok(Core { state })
    }

    /// Moves the clock on to `moment` (seconds) and answers the moment that holds then: an earlier one is ignored. The
    /// clock begins at 0, and an item's time to live counts from the moment that holds. So tick to the day's seconds
    /// before the first item is stored: an item with a time to live that was stored before expires at that tick.
    /// Refused with `NoMemory`, only where notes are kept.
    pub fn tick(&mut self, moment: u64) -> Result<u64, Refusal>
        ensures ok { IfOk result (λ now. IsCall (tick_step moment self.old.cache) (Moment now) self.old self.new) }
        ensures err { OnErr result (self.new ≡ self.old) }
        ensures memory { IfErr result (λ refusal. refusal ≡ Refusal.NoMemory) }
        ensures silent { OnErr result (Hears self.old.log) }
    {
        self.state.tick(moment)
    }

    /// Finds the value under the key: of its item, which becomes the one of its pool that was used last, or else of its put
    /// that waits for flash. An expired one is a miss, and stays where it is. Where memory has neither and flash may have the
    /// key, the call waits, and its reply is taken later. Refused with `NoMemory`, also where the call numbers have run out.
    pub fn find(&mut self, client: u8, key: &Key<A>) -> Result<Found<A>, Refusal>
        ensures ok { IfOk result (λ found. IsCall (find_step client key.now self.old.cache) (found_answer found) self.old self.new) }
        ensures err { OnErr result (self.new ≡ self.old) }
        ensures memory { IfErr result (λ refusal. refusal ≡ Refusal.NoMemory) }
    {
        self.state.find(client, key)
    }

    /// Finds the value under the key as `find` does, and copies it to the head of the buffer (of bytes), so that a hit in
    /// memory takes no share of the value. Where the value is longer than the buffer, its length alone is told. Refused as
    /// `find` is; then the buffer is as it was.
    pub fn find_into(
        &mut self,
        client: u8,
        key: &Key<A>,
        buffer: &mut [u8],
    ) -> Result<Copied, Refusal>
        ensures ok { IfOk result (λ copied. IsCall (find_step client key.now self.old.cache) (find_step client key.now self.old.cache).answer self.old self.new) }
        ensures answer { IfOk result (λ copied. Some copied ≡ copied_by (find_step client key.now self.old.cache).answer) }
        ensures buffer { OnOk result (buffer.new ≡ left_by (find_step client key.now self.old.cache).answer buffer.old) }
        ensures err { OnErr result (self.new ≡ self.old) }
        ensures same { OnErr result (buffer.new ≡ buffer.old) }
        ensures memory { IfErr result (λ refusal. refusal ≡ Refusal.NoMemory) }
    {
        self.state.find_into(client, key, buffer)
    }

    /// A call whose reply can be taken, whichever of them it is, found without a scan. None, where no reply is ready.
    #[must_use]
    pub fn next_reply(&self) -> Option<u64>
        ensures { IsNextReply self.now.cache.owed result }
    {
        self.state.next_reply()
    }

    /// Takes the reply of the call that waited. Refused with `UnknownCall` where none is owed to the call, with `NotReady`
    /// where it still waits, and with `NoMemory`, only where something is heard of the log.
    pub fn take_reply(&mut self, call: u64) -> Result<Reply<A>, Refusal>
        ensures ok { IfOk result (λ reply. IsCall (reply_step call self.old.cache) (Replied (reply_of reply)) self.old self.new) }
        ensures err { OnErr result (self.new ≡ self.old) }
        ensures why { IfErr result (λ refusal. IsReason (reply_step call self.old.cache).answer refusal) }
        ensures silent { IfErr result (λ refusal. refusal ≡ Refusal.NoMemory → Hears self.old.log) }
    {
        self.state.take_reply(call)
    }

    /// Gives up an item that wasn't inserted; its charge is free. Refused with `ForeignHandle` alone, where the handle
    /// isn't one of this cache's, and then it comes back.
    pub fn discard(&mut self, sealed: Sealed<A>) -> Result<(), Sealed<A>>
        ensures ok { OnOk result (IsCall (discard_step sealed self.old.cache) Discarded self.old self.new) }
        ensures foreign { OnErr result ((discard_step sealed self.old.cache).answer ≡ Refused ForeignHandle) }
        ensures err { OnErr result (self.new ≡ self.old) }
        ensures sealed_returned { IfErr result (λ back. back ≡ sealed) }
    {
        self.state.discard(sealed)
    }

    /// Gives up an item that wasn't sealed; its charge is free. Refused with `ForeignHandle` alone, where the handle
    /// isn't one of this cache's, and then it comes back.
    pub fn discard_blank(&mut self, blank: Blank<A>) -> Result<(), Blank<A>>
        ensures ok { OnOk result (IsCall (discard_step blank self.old.cache) Discarded self.old self.new) }
        ensures foreign { OnErr result ((discard_step blank self.old.cache).answer ≡ Refused ForeignHandle) }
        ensures err { OnErr result (self.new ≡ self.old) }
        ensures blank_returned { IfErr result (λ back. back ≡ blank) }
    {
        self.state.discard_blank(blank)
    }

    /// Makes room in the pool for an item of this key and of `size` bytes that expires `ttl` seconds from now (0: never),
    /// and charges it: the least recently used items are evicted, none while there is room, and wait for flash where
    /// they may. The item can't be found until its handle is sealed and inserted. Tick before the first one, as `tick`
    /// says. Refused with `NoPool`, `ValueTooLong` and `NoRoom`, the first that holds, and with `NoMemory`; then the key
    /// comes back.
    pub fn allocate(
        &mut self,
        pool: u8,
        key: Key<A>,
        size: u64,
        ttl: u32,
    ) -> Result<Blank<A>, Uncharged<A>>
        ensures ok { IfOk result (λ blank. IsCall (allocate_step pool key (replicate size 0) ttl self.old.cache) (Opened blank) self.old self.new) }
        ensures mine { IfOk result (λ blank. is_known self.new.cache blank ≡ true) }
        ensures err { OnErr result (self.new ≡ self.old) }
        ensures why { IfErr result (λ e. IsReason (allocate_step pool key (replicate size 0) ttl self.old.cache).answer e.refusal) }
        ensures key_returned { IfErr result (λ e. e.key ≡ key) }
    {
        self.allocate_with(pool, key, Fill::Repeated(size, 0), ttl)
    }

    /// Allocates an item that begins as `fill`, as `allocate` does one that begins as zeros.
    pub fn allocate_with(
        &mut self,
        pool: u8,
        key: Key<A>,
        fill: Fill<'_>,
        ttl: u32,
    ) -> Result<Blank<A>, Uncharged<A>>
        ensures ok { IfOk result (λ blank. IsCall (allocate_step pool key (filled fill.entry) ttl self.old.cache) (Opened blank) self.old self.new) }
        ensures mine { IfOk result (λ blank. is_known self.new.cache blank ≡ true) }
        ensures err { OnErr result (self.new ≡ self.old) }
        ensures why { IfErr result (λ e. IsReason (allocate_step pool key (filled fill.entry) ttl self.old.cache).answer e.refusal) }
        ensures key_returned { IfErr result (λ e. e.key ≡ key) }
    {
        let _sized = key.len();
        self.state.allocate_with(pool, key, fill, ttl)
    }
}

// The calls of a cache, whatever keeps it.
ghost use Rattle.std.specs.Prelude.{◌≡◌, IfOk, OnErr, IfErr};
ghost use Rattle.hc_history.specs.Seen.{reply_of};
ghost use Rattle.hc_machine.specs.Cache.{Replied, Moment, Took, Reclaimed};
ghost use Rattle.hc_machine.specs.Calls.{find as find_step, remove as remove_step, take_reply as reply_step, tick as tick_step};
ghost use Rattle.hc_machine.specs.Workers.{writer_take as writer_step, filler_take as filler_step, reclaim as reclaim_step};
ghost use Rattle.hc_nvm.specs.Seen.{take_of};
ghost use Rattle.hc_core.specs.Answers.{IsReason, is_work, found_answer, removed_answer};
ghost use Rattle.hc_core.specs.Logged.{Logged, IsCall};

use hc_history::Reply;
use hc_nvm::Take;
use hc_state::{Found, Removed};
use hc_types::{Key, Refusal};
use std::alloc::Allocator;

/// A cache: what contracts see of it, how many calls were begun, and its clock.
pub trait Cache: Drop {
    /// The machine's cache, and what is heard of its log.
    ghost seen: { Self → Logged };

    /// How many calls were begun: inserts, finds and removes that weren't refused.
    #[must_use]
    fn calls(&self) -> u64
        ensures { result ≡ (seen self.now).cache.calls };

    /// The moment that holds, in seconds.
    #[must_use]
    fn now(&self) -> u64
        ensures { result ≡ (seen self.now).cache.now };
}

/// The calls that a `Core` and a `TrackedCore` have in common, with the contracts that they have there: each is the
/// machine's step, and one that is refused changes nothing. (Those that take a key or a handle by value aren't among
/// them: the checker has no proof of such a method of a trait for these types. They stand in handles_core.rt and
/// handles_tracked.rt.)
pub trait Calls<A: Allocator>: Cache {
    /// `Core::tick`.
    fn tick(&mut self, moment: u64) -> Result<u64, Refusal>
        ensures ok { IfOk result (λ now. IsCall (tick_step moment (Self.seen self.old).cache) (Moment now) (Self.seen self.old) (Self.seen self.new)) }
        ensures err { OnErr result (Self.seen self.new ≡ Self.seen self.old) }
        ensures memory { IfErr result (λ refusal. refusal ≡ Refusal.NoMemory) };

    /// `Core::remove`.
    fn remove(&mut self, client: u8, key: &Key<A>) -> Result<Removed, Refusal>
        ensures ok { IfOk result (λ removed. IsCall (remove_step client key.now (Self.seen self.old).cache) (removed_answer removed) (Self.seen self.old) (Self.seen self.new)) }
        ensures err { OnErr result (Self.seen self.new ≡ Self.seen self.old) }
        ensures memory { IfErr result (λ refusal. refusal ≡ Refusal.NoMemory) };

    /// `Core::find`.
    fn find(&mut self, client: u8, key: &Key<A>) -> Result<Found<A>, Refusal>
        ensures ok { IfOk result (λ found. IsCall (find_step client key.now (Self.seen self.old).cache) (found_answer found) (Self.seen self.old) (Self.seen self.new)) }
        ensures err { OnErr result (Self.seen self.new ≡ Self.seen self.old) }
        ensures memory { IfErr result (λ refusal. refusal ≡ Refusal.NoMemory) };

    /// `Core::take_reply`.
    fn take_reply(&mut self, call: u64) -> Result<Reply<A>, Refusal>
        ensures ok { IfOk result (λ reply. IsCall (reply_step call (Self.seen self.old).cache) (Replied (reply_of reply)) (Self.seen self.old) (Self.seen self.new)) }
        ensures err { OnErr result (Self.seen self.new ≡ Self.seen self.old) }
        ensures why { IfErr result (λ refusal. IsReason (reply_step call (Self.seen self.old).cache).answer refusal) };

    /// `Core::writer_has_work`.
    fn writer_has_work(&mut self) -> Result<bool, Refusal>
        ensures ok { IfOk result (λ has. has ≡ is_work (writer_step (Self.seen self.old).cache).answer) }
        ensures same { Self.seen self.new ≡ Self.seen self.old }
        ensures memory { IfErr result (λ refusal. refusal ≡ Refusal.NoMemory) };

    /// `Core::filler_has_work`.
    fn filler_has_work(&mut self) -> Result<bool, Refusal>
        ensures ok { IfOk result (λ has. has ≡ is_work (filler_step (Self.seen self.old).cache).answer) }
        ensures same { Self.seen self.new ≡ Self.seen self.old }
        ensures memory { IfErr result (λ refusal. refusal ≡ Refusal.NoMemory) };

    /// `Core::writer_take`.
    fn writer_take(&mut self) -> Result<Take<A>, Refusal>
        ensures ok { IfOk result (λ take. IsCall (writer_step (Self.seen self.old).cache) (Took (take_of take)) (Self.seen self.old) (Self.seen self.new)) }
        ensures err { OnErr result (Self.seen self.new ≡ Self.seen self.old) }
        ensures memory { IfErr result (λ refusal. refusal ≡ Refusal.NoMemory) };

    /// `Core::filler_take`.
    fn filler_take(&mut self) -> Result<Take<A>, Refusal>
        ensures ok { IfOk result (λ take. IsCall (filler_step (Self.seen self.old).cache) (Took (take_of take)) (Self.seen self.old) (Self.seen self.new)) }
        ensures err { OnErr result (Self.seen self.new ≡ Self.seen self.old) }
        ensures memory { IfErr result (λ refusal. refusal ≡ Refusal.NoMemory) };

    /// `Core::reclaim`.
    fn reclaim(&mut self) -> Result<Option<u32>, Refusal>
        ensures ok { IfOk result (λ region. IsCall (reclaim_step (Self.seen self.old).cache) (Reclaimed region) (Self.seen self.old) (Self.seen self.new)) }
        ensures err { OnErr result (Self.seen self.new ≡ Self.seen self.old) }
        ensures memory { IfErr result (λ refusal. refusal ≡ Refusal.NoMemory) };
}

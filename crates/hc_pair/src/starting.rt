// An operation is started.
ghost use Rattle.std.specs.Prelude.{◌≡◌, [], None, IfOk, OnErr};
ghost use Rattle.hc_engines.specs.small.BigHash.{start as start_small};
ghost use Rattle.hc_engines.specs.large.Steps.{start as start_large};
ghost use Rattle.hc_engines.specs.pair.Pair.{by_small, by_large, start as start_step};
ghost use Rattle.hc_engines.specs.pair.Held.{under_way};
ghost use Rattle.hc_engines.specs.Seen.{op_of};
ghost use Rattle.hc_engines.specs.Next.{next_seen};
ghost use Rattle.hc_block.specs.Moves as block;
ghost use Rattle.hc_pair.specs.Joined.{CanStart, is_miss as is_miss_of};

use crate::pair::Pair;
use hc_engines::{Next, Op};
use std::alloc::{AllocError, Allocator};

/// Whether a get is over that was started: then it found nothing, and changed nothing.
fn is_miss<A: Allocator>(op: &Op<A>, next: &Next<A>) -> bool
    ensures { result ≡ is_miss_of (op_of op.now) (next_seen next.now) }
{
    match (op, next) {
        (Op::Get(_), Next::Done(_)) => true,
        _ => false,
    }
}

impl<A: Allocator + Clone + Copy> Pair<A> {
    /// Starts an operation under a number that no operation under way has. It answers `Busy` where a job of the small engine
    /// is on the bucket of its key. A large entry that is put has to fit a region. Refused only when out of memory; then
    /// nothing changed.
    pub fn start(&mut self, number: u64, op: &Op<A>) -> Result<Next<A>, AllocError>
        requires free { under_way self.old number ≡ None }
        requires can { CanStart self.old.small.flash (op_of op.now) }
        ensures ok { IfOk result (λ next. start_step number (op_of op.now) self.old ≡ record { pair = self.new; next = next_seen next }) }
        ensures err { OnErr result (self.new ≡ self.old) }
    {
        if !self.small.is_ours(op) {
            return self.start_large(number, op);
        }
        let next = self.start_small(number, op)?;
        if !is_miss(op, &next) {
            return Ok(next);
        }
        drop(next);
        let next = self.start_large(number, op)?;
        Ok(next)
    }

    /// Starts an operation in the small engine.
    fn start_small(&mut self, number: u64, op: &Op<A>) -> Result<Next<A>, AllocError>
        requires { under_way self.old number ≡ None }
        ensures ok { IfOk result (λ next. by_small self.old (start_small self.old.small number (op_of op.now)) ≡ record { pair = self.new; next = next_seen next }) }
        ensures err { OnErr result (self.new ≡ self.old) }
    {
        let next = self.small.start(number, op)?;
        Ok(next)
    }

    /// Starts an operation in the large engine.
    fn start_large(&mut self, number: u64, op: &Op<A>) -> Result<Next<A>, AllocError>
        requires free { under_way self.old number ≡ None }
        requires can { block.CanStart self.old.small.flash (op_of op.now) }
        ensures ok { IfOk result (λ next. by_large self.old [] (start_large self.old.small.flash number (op_of op.now) self.old.large) ≡ record { pair = self.new; next = next_seen next }) }
        ensures err { OnErr result (self.new ≡ self.old) }
    {
        self.large.is_sound();
        let next = self.large.start(number, op)?;
        Ok(next)
    }
}

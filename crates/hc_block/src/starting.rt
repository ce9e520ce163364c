// An operation is started.
ghost use Rattle.std.specs.Prelude.{◌≡◌, IfOk, OnErr};
ghost use Rattle.hc_engines.specs.large.Laws.{IsFree};
ghost use Rattle.hc_engines.specs.large.Steps.{flush as flush_seen, start as start_seen};
ghost use Rattle.hc_engines.specs.Seen.{op_of};
ghost use Rattle.hc_engines.specs.Next.{next_seen};
ghost use Rattle.hc_block.specs.Moves.{CanStart, stepped, moved_with};

use crate::block_cache::BlockCache;
use crate::outcomes::nothing;
use crate::steps::Step;
use hc_engines::{Next, Op};
use std::alloc::{AllocError, Allocator};

impl<A: Allocator + Clone + Copy> BlockCache<A> {
    /// A page of a region goes out, where there is one.
    fn flush_step(&mut self, number: u64) -> Result<Step<A>, AllocError>
        requires { IsFree number self.old.block }
        ensures ok { IfOk result (λ step. flush_seen self.old.flash number self.old.block ≡ moved_with self.new.block step) }
        ensures flash { self.new.flash ≡ self.old.flash }
        ensures err { OnErr result (self.new ≡ self.old) }
    {
        let alloc = self.allocator();
        match self.flush(number) {
            Ok(Some(order)) => Ok(Step::Io(order)),
            Ok(None) => Ok(Step::Done(nothing(alloc))),
            Err(error) => Err(error),
        }
    }

    /// An operation is begun.
    fn begin(&mut self, number: u64, op: &Op<A>) -> Result<Step<A>, AllocError>
        requires free { IsFree number self.old.block }
        requires can { CanStart self.old.flash (op_of op.now) }
        ensures ok { IfOk result (λ step. start_seen self.old.flash number (op_of op.now) self.old.block ≡ moved_with self.new.block step) }
        ensures flash { self.new.flash ≡ self.old.flash }
        ensures err { OnErr result (self.new ≡ self.old) }
    {
        match op {
            Op::Put(entry) => Ok(Step::Done(self.put(entry)?)),
            Op::Get(key) => self.get(number, key),
            Op::Delete(_) => Ok(Step::Done(nothing(self.allocator()))),
            Op::Flush => self.flush_step(number),
            Op::Reclaim => Ok(Step::Done(self.reclaim()?)),
        }
    }

    /// Starts an operation under a number that no operation under way has. A put is over at once: its entry goes into the
    /// region in use, or the next clean one. A get is answered from the buffer, or reads the entry's pages one after the
    /// other. A flush writes the pages of the region sealed first, or one full page of the region in use. A reclaim gives up
    /// the region flushed first, where fewer regions are clean than are to be. A delete does nothing: it is for BigHash.
    /// Refused only when out of memory, and then nothing changed.
    pub fn start(&mut self, number: u64, op: &Op<A>) -> Result<Next<A>, AllocError>
        requires free { IsFree number self.old.block }
        requires can { CanStart self.old.flash (op_of op.now) }
        ensures ok { IfOk result (λ next. stepped (start_seen self.old.flash number (op_of op.now) self.old.block) ≡ record { state = self.new.block; next = next_seen next }) }
        ensures flash { self.new.flash ≡ self.old.flash }
        ensures err { OnErr result (self.new ≡ self.old) }
    {
        let alloc = self.allocator();
        let step = self.begin(number, op)?;
        Ok(step.next(alloc))
    }
}

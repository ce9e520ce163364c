// How much is lost at most, asked before anything changes.
ghost use Rattle.std.specs.Prelude.{◌≡◌, ◌≤◌, ℕ, length, false, Some};
ghost use Rattle.hc_engines.specs.Engine.{IoResult as Came, Op as Asked, Reclaim};
ghost use Rattle.hc_engines.specs.pair.Pair.{Moved, start as start_step, resume as resume_step};
ghost use Rattle.hc_bighash.specs.Found.{losses_of, is_get as is_get_seen};
ghost use Rattle.hc_bighash.specs.Handed.{op_in};
ghost use Rattle.hc_engines.specs.Seen.{op_of};
ghost use Rattle.hc_pair.specs.Found.{is_reclaim};

use crate::pair::Pair;
use hc_engines::Op;
use std::alloc::Allocator;

/// Whether it is a get, which may go on with the large engine.
pub(crate) fn is_get<A: Allocator>(op: &Op<A>) -> bool
    ensures { result ≡ is_get_seen (op_of op.now) }
{
    matches!(op, Op::Get(_))
}

impl<A: Allocator + Clone + Copy> Pair<A> {
    /// How many losses at most are told with the next result that is handed in for the operation with this number: what a
    /// put pushed out of its bucket, a region's entries where its page is written, and up to two for a get.
    #[must_use]
    pub fn most_losses(&self, number: u64) -> usize
        ensures { (came : Came) (moved : Moved) → resume_step number came self.now ≡ Some moved → length (losses_of moved.next) ≤ result }
    {
        match self.small.op(number) {
            None => self.large.most_losses(number),
            Some(op) => self.most_of_small(number, op),
        }
    }

    /// The same of this operation of the small engine.
    fn most_of_small(&self, number: u64, op: &Op<A>) -> usize
        requires { op_in number self.now.small.jobs ≡ Some (op_of op.now) }
        ensures { (came : Came) (moved : Moved) → resume_step number came self.now ≡ Some moved → length (losses_of moved.next) ≤ result }
    {
        let most = self.small.most_losses(number);
        if is_get(op) { most + 1 } else { most }
    }

    /// How many losses at most an operation tells that is started now, whatever it is but a reclaim: 1.
    #[must_use]
    pub fn most_losses_at_start(&self) -> usize
        ensures value { result ≡ 1 }
        ensures most { (number : ℕ) (op : Asked) → is_reclaim op ≡ false → length (losses_of (start_step number op self.now).next) ≤ result }
    {
        1
    }

    /// How many losses at most a reclaim tells that is started now: the entries of the region that it gives up.
    #[must_use]
    pub fn most_reclaimed(&self) -> usize
        ensures { (number : ℕ) → length (losses_of (start_step number Reclaim self.now).next) ≤ result }
    {
        self.large.most_reclaimed()
    }
}

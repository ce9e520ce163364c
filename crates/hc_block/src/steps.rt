// What comes next of an operation of the large engine, which is never in the way of another.
ghost use Rattle.std.specs.Prelude.{◌≡◌};
ghost use Rattle.hc_engines.specs.Next.{next_seen};
ghost use Rattle.hc_block.specs.Moves.{next_in};

use crate::outcomes::nothing;
use hc_engines::{Next, Outcome, SharedOrder};
use std::alloc::{Allocator, Global};

/// What comes next of an operation.
#[derive(Drop)]
pub(crate) enum Step<A: Allocator = Global> {
    /// This page is to be read or written.
    Io(SharedOrder<A>),
    /// It is over.
    Done(Outcome<A>),
}

impl<A: Allocator> Step<A> {
    /// The same, as any engine says it.
    pub(crate) fn next(self, alloc: A) -> Next<A>
        ensures { next_seen result ≡ next_in self }
    {
        match self {
            Step::Io(order) => Next::Io(order, nothing(alloc)),
            Step::Done(outcome) => Next::Done(outcome),
        }
    }
}

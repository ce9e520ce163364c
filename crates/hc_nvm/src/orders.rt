// Device operations, as the engines ask for them, and as workers do them.
ghost use Rattle.std.specs.Prelude.{◌≡◌};
ghost use Rattle.hc_engines.specs.Seen.{order_of as order_asked};
ghost use Rattle.hc_flash.specs.Seen.{order_of};

use hc_engines::SharedOrder;
use hc_flash::Order;
use std::alloc::Allocator;

/// A device operation that has two owners: the worker that does it, and the job, which tells of it.
pub(crate) fn twice<A: Allocator>(order: SharedOrder<A>) -> (Order<A>, Order<A>)
    ensures first { order_of result.0 ≡ order_asked order }
    ensures second { order_of result.1 ≡ order_asked order }
{
    match order {
        SharedOrder::Read(page) => (Order::Read(page), Order::Read(page)),
        SharedOrder::Write(page, bytes) => {
            let (ours, theirs) = bytes.split();
            (Order::Write(page, ours), Order::Write(page, theirs))
        }
    }
}

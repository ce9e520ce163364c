// How what an engine answers is shown: pages by their length.
use crate::ops::SharedOrder;
use crate::unresumed::Unresumed;
use std::alloc::Allocator;
use std::error::Error;
use std::fmt;

impl<A: Allocator> fmt::Debug for SharedOrder<A> {
    fn fmt<W: fmt::Write>(&self, f: &mut fmt::Formatter<W>) -> fmt::Result {
        match self {
            SharedOrder::Read(page) => write!(f, "Read({page})"),
            SharedOrder::Write(page, bytes) => write!(f, "Write({page}, {} bytes)", bytes.len()),
        }
    }
}

impl<A: Allocator> fmt::Display for Unresumed<A> {
    ghost use Rattle.std.specs.Prelude.{Some};
    ghost use Rattle.hc_types.specs.Refusals.{refusal_text};

    ghost output = { λ e. Some (refusal_text e.refusal) };

    fn fmt<W: fmt::Write>(&self, f: &mut fmt::Formatter<W>) -> fmt::Result {
        fmt::Display::fmt(&self.refusal, f)
    }
}

impl<A: Allocator> fmt::Debug for Unresumed<A> {
    fn fmt<W: fmt::Write>(&self, f: &mut fmt::Formatter<W>) -> fmt::Result {
        fmt::Debug::fmt(&self.refusal, f)
    }
}

impl<A: Allocator> Error for Unresumed<A> {}

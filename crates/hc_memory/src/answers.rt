// What the calls of the pools answer.
use crate::handles::Blank;
use crate::item::Item;
use hc_types::{Key, Refusal};
use std::alloc::{Allocator, Global};
use std::error::Error;
use std::fmt;

/// A charge that was made: the handle of its item, and the items that went to make room for it, the one that was used
/// longest ago first.
#[derive(Debug)]
pub struct Charged<A: Allocator = Global> {
    pub blank: Blank<A>,
    pub victims: Vec<Item<A>, A>,
}

/// An item that came from flash: the number of its charge, and the items that went to make room for it, the one that was
/// used longest ago first.
#[derive(Drop)]
#[must_use]
pub struct Brought<A: Allocator = Global> {
    pub number: u64,
    pub victims: Vec<Item<A>, A>,
}

/// A charge that was refused, with the key that was handed in.
#[derive(Drop)]
pub struct Uncharged<A: Allocator = Global> {
    pub refusal: Refusal,
    pub key: Key<A>,
}

impl<A: Allocator> From<Uncharged<A>> for Refusal {
    ghost use Rattle.std.specs.Prelude.{◌≡◌};

    ghost from_gives = { λ uncharged refusal. refusal ≡ uncharged.refusal };

    // The key is dropped.
    fn from(uncharged: Uncharged<A>) -> Refusal {
        uncharged.refusal
    }
}

impl<A: Allocator> fmt::Display for Uncharged<A> {
    ghost use Rattle.std.specs.Prelude.{Some};
    ghost use Rattle.hc_types.specs.Refusals.{refusal_text};

    ghost output = { λ e. Some (refusal_text e.refusal) };

    fn fmt<W: fmt::Write>(&self, f: &mut fmt::Formatter<W>) -> fmt::Result {
        fmt::Display::fmt(&self.refusal, f)
    }
}

impl<A: Allocator> fmt::Debug for Uncharged<A> {
    fn fmt<W: fmt::Write>(&self, f: &mut fmt::Formatter<W>) -> fmt::Result {
        fmt::Debug::fmt(&self.refusal, f)
    }
}

impl<A: Allocator> Error for Uncharged<A> {}

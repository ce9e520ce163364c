// Calls that wait for a key.
ghost use Rattle.std.specs.Prelude.{◌≡◌};
ghost use Rattle.hc_machine.specs.Nvm.{adds};

use hc_memory::Parked;
use std::alloc::{Allocator, Global};
use std::marker::Model;

/// What a call that waits asks for.
#[derive(Drop)]
pub enum Wish<A: Allocator = Global> {
    /// The value.
    Find,
    /// To store this item, where there is no value.
    Add(Parked<A>),
}

/// A call that waits, by its number, and what it asks for.
#[derive(Drop)]
pub struct Waiter<A: Allocator = Global> {
    pub call: u64,
    pub wish: Wish<A>,
}

impl<A: Allocator> Model for Waiter<A> {
    ghost use Rattle.hc_machine.specs.Nvm.{Waiter as Waits};
    ghost use Rattle.hc_waiting.specs.Seen.{wish_of};

    ghost Value = { Waits };

    ghost view = { λ w. record { call = w.call; wish = wish_of w.wish } };
}

impl<A: Allocator> Waiter<A> {
    /// Whether it is an add, and keeps the charge with this number.
    #[must_use]
    pub fn keeps(&self, number: u64) -> bool
        ensures { result ≡ adds number self.now }
    {
        match &self.wish {
            Wish::Add(parked) => parked.number() == number,
            Wish::Find => false,
        }
    }
}

// The jobs: operations on flash that are under way.
ghost use Rattle.std.specs.Prelude.{◌≡◌};

use hc_flash::Order;
use hc_types::Key;
use std::alloc::{Allocator, Global};
use std::marker::Model;

/// What a job is for.
#[derive(Drop)]
pub(crate) enum Task<A: Allocator = Global> {
    /// A small entry of this key is written.
    Put(Key<A>),
    /// This key is deleted.
    Delete(Key<A>),
    /// A key is brought to memory.
    Fill,
    /// A region's page is written.
    Flush,
}

/// An operation that is under way: its number, what it is for, and the device operation that it waits for.
#[derive(Drop)]
pub(crate) struct Job<A: Allocator = Global> {
    pub(crate) number: u64,
    pub(crate) task: Task<A>,
    pub(crate) order: Order<A>,
}

impl<A: Allocator> Model for Job<A> {
    ghost use Rattle.hc_machine.specs.Nvm.{Job as Machine};
    ghost use Rattle.hc_nvm.specs.Seen.{task_of};
    ghost use Rattle.hc_flash.specs.Seen.{order_of};

    ghost Value = { Machine };

    ghost view = { λ j. record { number = j.number; task = task_of j.task; order = order_of j.order } };
}

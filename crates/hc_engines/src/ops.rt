// What an engine on flash is asked, and what it answers.
ghost use Rattle.std.specs.Prelude.{◌≡◌};
ghost use Rattle.hc_types.specs.Loss.{scope_of, cause_of};
ghost use Rattle.hc_engines.specs.Engine.{outcome_of};
ghost use Rattle.hc_engines.specs.Seen.{answer_of};

use crate::shared_page::SharedPage;
use hc_types::{Cause, Entry, Key, Scope};
use std::alloc::{Allocator, Global};
use std::marker::Model;

/// What an engine on flash is asked.
#[derive(Debug, Drop)]
pub enum Op<A: Allocator = Global> {
    /// This entry is to be held, in place of an older one of its key.
    Put(Entry<A>),
    /// What is held under this key?
    Get(Key<A>),
    /// Nothing is to be held under this key.
    Delete(Key<A>),
    /// The next sealed region is to be written. BigHash has no regions, and does nothing.
    Flush,
    /// The oldest region on flash is to be given up. BigHash has no regions, and does nothing.
    Reclaim,
}

/// A device operation on one page, by the number of the page, where a page that is to be written has two owners.
#[derive(Drop)]
#[must_use]
pub enum SharedOrder<A: Allocator = Global> {
    Read(u32),
    /// The page is to have these bytes, as many as a page has.
    Write(u32, SharedPage<A>),
}

/// What an operation answers.
#[derive(Debug, Drop)]
pub enum Answer<A: Allocator = Global> {
    /// There was nothing to do, or it isn't over yet.
    Nothing,
    /// The put or the delete is over.
    Over,
    /// The get found nothing.
    Absent,
    /// The get found this. It stands in a block of its own, so that what has no entry isn't as large as one: an answer goes
    /// through many hands.
    Found(Box<Entry<A>, A>),
}

/// What is forgotten, and why.
#[derive(Debug, Drop)]
pub struct Loss<A: Allocator = Global> {
    pub scope: Scope<A>,
    pub cause: Cause<A>,
}

impl<A: Allocator> Model for Loss<A> {
    ghost use Rattle.hc_types.specs.Loss.{scope_of, cause_of};
    ghost use Rattle.hc_engines.specs.Engine.{Loss as Forgotten};

    ghost Value = { Forgotten };

    ghost view = { λ loss. record { scope = scope_of loss.scope; cause = cause_of loss.cause } };
}

impl<A: Allocator> Loss<A> {
    /// This is forgotten, for this cause.
    #[must_use]
    pub fn new(scope: Scope<A>, cause: Cause<A>) -> Loss<A>
        ensures { result ≡ record { scope = scope_of scope; cause = cause_of cause } }
    {
        Loss { scope, cause }
    }
}

/// What holds from here on.
#[derive(Debug, Drop)]
pub struct Outcome<A: Allocator = Global> {
    pub answer: Answer<A>,
    /// What is forgotten, in this order.
    pub losses: Vec<Loss<A>, A>,
    /// The region that was opened.
    pub opened: Option<u32>,
    /// The region that is on flash from here on.
    pub flushed: Option<u32>,
    /// The region that is clean again.
    pub cleared: Option<u32>,
    /// The region that a reclaim gave up.
    pub reclaimed: Option<u32>,
}

impl<A: Allocator> Model for Outcome<A> {
    ghost use Rattle.hc_engines.specs.Engine.{Outcome as Came};
    ghost use Rattle.hc_engines.specs.Seen.{answer_of};

    ghost Value = { Came };

    ghost view = { λ o. record { answer = answer_of o.answer; losses = o.losses.items; opened = o.opened; flushed = o.flushed; cleared = o.cleared; reclaimed = o.reclaimed } };
}

impl<A: Allocator> Outcome<A> {
    /// Of an operation that touches no region.
    #[must_use]
    pub fn new(answer: Answer<A>, losses: Vec<Loss<A>, A>) -> Outcome<A>
        ensures { result ≡ outcome_of (answer_of answer) losses.items }
    {
        Outcome {
            answer,
            losses,
            opened: None,
            flushed: None,
            cleared: None,
            reclaimed: None,
        }
    }
}

/// What comes next of an operation.
#[derive(Debug, Drop)]
#[must_use]
pub enum Next<A: Allocator = Global> {
    /// Another job is in the way. Nothing changed, and nothing is under way: the operation is to be started again later.
    Busy,
    /// This page is to be read or written, and what came of it handed in with `resume`. The outcome holds already.
    Io(SharedOrder<A>, Outcome<A>),
    /// It is over.
    Done(Outcome<A>),
}

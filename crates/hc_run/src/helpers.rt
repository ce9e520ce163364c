// What the steps of a stage share: answers, and items that are given up.
ghost use Rattle.std.specs.Prelude.{◌≡◌, ◌≢◌, ℕ, ◌⊎◌, true, None, Some, length, IfSome, IfNone, IfOk, OnErr};
ghost use Rattle.hc_types.specs.Limits.{first_wrong};
ghost use Rattle.hc_history.specs.Told.{told_more};
ghost use Rattle.hc_machine.specs.Cache.{Refused};
ghost use Rattle.hc_machine.specs.Calls.{is_known};
ghost use Rattle.hc_machine.specs.Quiet.{is_own};
ghost use Rattle.hc_machine.specs.World.{Says};
ghost use Rattle.hc_machine.specs.Schedule.{Io, Tells, given_up};
ghost use Rattle.hc_machine.specs.Nvm.{is_number_in};
ghost use Rattle.hc_core.specs.Answers.{found_answer, removed_answer};
ghost use Rattle.hc_run.specs.Asked.{deed_of, told_of, handle_of};
ghost use Rattle.hc_run.specs.Ending.{after_give_up, part_of_give_up};
ghost use Rattle.hc_run.specs.Shows.{AreOwn};
ghost use Rattle.hc_run.specs.Slots.{filled_from};
ghost use Rattle.hc_run.specs.Steps.{IsCalm};

use crate::slots::{Content, Slot};
use crate::steps::{Outcome, Request};
use hc_core::{Core, Found, Removed};
use hc_history::{Kept, Reply};
use hc_types::{Config, Refusal};
use std::alloc::{AllocError, Allocator};

/// Why there is no stage of this configuration when out of memory: a wrong number is named first.
pub(crate) fn without_memory<A: Allocator>(config: &Config<A>) -> Refusal
    ensures { (first_wrong config.now ≡ Some result) ⊎ ((first_wrong config.now ≡ None) × (result ≡ Refusal.NoMemory)) }
{
    match config.check() {
        Ok(()) => Refusal::NoMemory,
        Err(refusal) => refusal,
    }
}

/// The job whose operation the step makes, or whose result it hands in.
pub(crate) fn job_of<A: Allocator>(request: &Request<A>) -> Option<u64>
    ensures { (number : ℕ) → is_own number (deed_of request.now) ≡ is_number_in number result }
{
    match request {
        Request::Io { job, fails: _ } => Some(*job),
        Request::Finish { job } => Some(*job),
        Request::Open { .. } => None,
        Request::Put { .. } => None,
        Request::PutNew { .. } => None,
        Request::Discard { .. } => None,
        Request::Find { .. } => None,
        Request::Remove { .. } => None,
        Request::Reply { .. } => None,
        Request::Tick { .. } => None,
        Request::WriterTake => None,
        Request::FillerTake => None,
        Request::Reclaim => None,
    }
}

/// The job whose device operation the step makes, and whether the step fails it.
pub(crate) fn operation_of<A: Allocator>(request: &Request<A>) -> Option<(u64, bool)>
    ensures some { IfSome result (λ operation. deed_of request.now ≡ Io operation.0 operation.1) }
    ensures none { IfNone result (IsCalm (deed_of request.now)) }
{
    match request {
        Request::Io { job, fails } => Some((*job, *fails)),
        Request::Finish { .. } => None,
        Request::Open { .. } => None,
        Request::Put { .. } => None,
        Request::PutNew { .. } => None,
        Request::Discard { .. } => None,
        Request::Find { .. } => None,
        Request::Remove { .. } => None,
        Request::Reply { .. } => None,
        Request::Tick { .. } => None,
        Request::WriterTake => None,
        Request::FillerTake => None,
        Request::Reclaim => None,
    }
}

/// A step is refused, where it isn't for lack of memory.
pub(crate) fn refused<A: Allocator>(refusal: Refusal) -> Result<Outcome<A>, AllocError>
    ensures ok { IfOk result (λ outcome. (told_of outcome ≡ Tells (Says (Refused refusal))) × (refusal ≢ Refusal.NoMemory)) }
{
    match refusal {
        Refusal::NoMemory => Err(AllocError),
        _ => Ok(Outcome::Refused(refusal)),
    }
}

pub(crate) fn found_outcome<A: Allocator>(found: Found<A>) -> Outcome<A>
    ensures { told_of result ≡ Tells (Says (found_answer found)) }
{
    match found {
        Found::Hit(handle) => Outcome::Replied(Reply::Hit(handle.into_bytes())),
        Found::Miss => Outcome::Replied(Reply::Miss),
        Found::Waiting(call) => Outcome::Waits(call),
    }
}

pub(crate) fn removed_outcome<A: Allocator>(removed: Removed) -> Outcome<A>
    ensures { told_of result ≡ Tells (Says (removed_answer removed)) }
{
    match removed {
        Removed::FoundInMemory => Outcome::Replied(Reply::FoundInMemory),
        Removed::NotInMemory => Outcome::Replied(Reply::NotInMemory),
    }
}

/// Gives up the item of a handle, if there is one.
pub(crate) fn give_up_content<A: Allocator + Clone + Copy>(
    core: &mut Core<Kept<A>, A>,
    content: Content<A>,
)
    requires mine { IfSome (handle_of content) (λ handle. is_known core.old.cache handle ≡ true) }
    ensures cache { core.new.cache ≡ after_give_up core.old.cache (handle_of content) }
    ensures log { core.new.log ≡ told_more core.old.log (part_of_give_up core.old.cache (handle_of content)) }
{
    match content {
        Content::Empty => {}
        Content::Written(blank) => match core.discard_blank(blank) {
            Ok(()) => {}
            Err(_) => unreachable!(),
        },
        Content::Ready(sealed) => match core.discard(sealed) {
            Ok(()) => {}
            Err(_) => unreachable!(),
        },
    }
}

/// Gives up the items of all handles, in the order of the slots.
pub(crate) fn give_up_all<A: Allocator + Clone + Copy>(
    core: &mut Core<Kept<A>, A>,
    slots: Vec<Slot<A>, A>,
)
    requires all { length slots.items ≡ 256 }
    requires own { AreOwn (filled_from 0 slots.items) core.old.cache }
    ensures { core.new.log ≡ told_more core.old.log (given_up (filled_from 0 slots.items) core.old.cache).part }
{
    let mut left = slots.into_iter();
    while let Some(slot) = left.next() {
        give_up_content(core, slot.into_content());
    }
    left.destroy_empty();
}

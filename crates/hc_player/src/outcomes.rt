// How the cache's answers are those of a trace.
ghost use Rattle.std.specs.Prelude.{◌≡◌, ◌≢◌, Some, IfOk};
ghost use Rattle.hc_types.specs.declared.refusal.Refusal.TheVariants.{NoMemory};
ghost use Rattle.hc_history.specs.Seen.{reply_of};
ghost use Rattle.hc_flash.specs.Seen.{result_of};
ghost use Rattle.hc_nvm.specs.Seen.{take_of};
ghost use Rattle.hc_machine.specs.Cache as machine;
ghost use Rattle.hc_core.specs.Answers.{found_answer, inserted_answer, removed_answer};
ghost use Rattle.hc_trace_meaning.specs.Actions.{answer_of, reply_answer, take_answer, reclaim_answer, io_answer};
ghost use Rattle.hc_player.specs.Seen.{answer_seen};

use crate::answers::Answer;
use hc_core::{Found, Inserted, Removed};
use hc_flash::{IoResult, Order};
use hc_history::Reply;
use hc_nvm::Take;
use hc_types::Refusal;
use std::alloc::AllocError;

/// A refusal is an answer, but not that it is out of memory.
pub(crate) fn refused(refusal: Refusal) -> Result<Answer, AllocError>
    ensures { IfOk result (λ answer. (refusal ≢ NoMemory) × (answer_of (machine.Refused refusal) ≡ Some (answer_seen answer))) }
{
    match refusal {
        Refusal::NoMemory => Err(AllocError),
        _ => Ok(Answer::Refused(refusal)),
    }
}

/// What a find answered.
pub(crate) fn found(found: Found) -> Answer
    ensures { answer_of (found_answer found) ≡ Some (answer_seen result) }
{
    match found {
        Found::Hit(value) => Answer::Hit(value.into_bytes()),
        Found::Miss => Answer::Miss,
        Found::Waiting(call) => Answer::Waiting(call),
    }
}

/// What an insert answered.
pub(crate) fn inserted(inserted: Inserted) -> Answer
    ensures { answer_of (inserted_answer inserted) ≡ Some (answer_seen result) }
{
    match inserted {
        Inserted::Stored => Answer::Stored,
        Inserted::Waiting(call) => Answer::Waiting(call),
    }
}

/// What a remove answered.
pub(crate) fn removed(removed: Removed) -> Answer
    ensures { answer_of (removed_answer removed) ≡ Some (answer_seen result) }
{
    match removed {
        Removed::FoundInMemory => Answer::Found,
        Removed::NotInMemory => Answer::Absent,
    }
}

/// The reply of a call that waited.
pub(crate) fn replied(reply: Reply) -> Answer
    ensures { reply_answer (reply_of reply) ≡ answer_seen result }
{
    match reply {
        Reply::Stored => Answer::Stored,
        Reply::Exists => Answer::Exists,
        Reply::Hit(value) => Answer::Hit(value),
        Reply::Miss => Answer::Miss,
        Reply::FoundInMemory => Answer::Found,
        Reply::NotInMemory => Answer::Absent,
    }
}

/// What a worker has to do next.
pub(crate) fn taken(take: Take) -> Answer
    ensures { take_answer (take_of take) ≡ answer_seen result }
{
    match take {
        Take::Idle => Answer::Idle,
        Take::Finished => Answer::Finished,
        Take::Work(job, Order::Read(page)) => Answer::Reads(job, page),
        Take::Work(job, Order::Write(page, _)) => Answer::Writes(job, page),
    }
}

/// The region that was given up, if one was.
pub(crate) fn reclaimed(region: Option<u32>) -> Answer
    ensures { reclaim_answer region ≡ answer_seen result }
{
    match region {
        None => Answer::Idle,
        Some(region) => Answer::Reclaimed(region),
    }
}

/// What came of a device operation.
pub(crate) fn made(came: &IoResult) -> Answer
    ensures { io_answer (result_of came.now) ≡ answer_seen result }
{
    match came {
        IoResult::Page(_) | IoResult::Written => Answer::Made,
        IoResult::Failed => Answer::Failed,
    }
}

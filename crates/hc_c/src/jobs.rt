// Each call of a worker, and the status that it answers.
ghost use Rattle.std.specs.Prelude.{◌≡◌};
ghost use Rattle.hc_flash.specs.Seen.{result_of};
ghost use Rattle.hc_machine.specs.World.{order_in};
ghost use Rattle.hc_machine.specs.Workers.{writer_take as writer_step, filler_take as filler_step};
ghost use Rattle.hc_nvm.specs.Seen.{take_of};
ghost use Rattle.hc_flash.specs.Seen.{order_of};
ghost use Rattle.hc_c.specs.Jobs.{TellsTake, Takes, Reclaims, Finishes, HasWork, NamesReply, TellsOrder, IsOrdered};

use crate::calls::copy;
use crate::status::Status;
use hc_core::{Core, IoResult, Order, Refusal, Take, Totals, Unfinished};
use hc_leased::Leased;

/// A device operation on a page of flash.
#[repr(C)]
#[derive(Clone, Copy)]
pub struct Operation {
    pub page: u32,
    /// It is to be written; else it is to be read.
    pub writes: bool,
}

// Tells the number of the job that goes on.
pub(crate) fn tell_take(take: Take, job: &mut u64) -> Status
    ensures { TellsTake (take_of take) job.old job.new result }
{
    match take {
        Take::Idle => Status::Idle,
        Take::Finished => Status::Finished,
        Take::Work(number, order) => {
            drop(order);
            *job = number;
            Status::Done
        }
    }
}

/// The writer takes what is next, and is told the job's number.
pub fn writer_take(cache: &mut Leased<Core<Totals>>, job: &mut u64) -> Status
    ensures { Takes writer_step job.old job.new result cache.old cache.new }
{
    match cache.writer_take() {
        Ok(take) => tell_take(take, job),
        Err(refusal) => Status::Refused(refusal),
    }
}

/// The filler takes what is next, and is told the job's number.
pub fn filler_take(cache: &mut Leased<Core<Totals>>, job: &mut u64) -> Status
    ensures { Takes filler_step job.old job.new result cache.old cache.new }
{
    match cache.filler_take() {
        Ok(take) => tell_take(take, job),
        Err(refusal) => Status::Refused(refusal),
    }
}

/// Gives up the region that was written first, where too few are clean.
pub fn reclaim(cache: &mut Leased<Core<Totals>>) -> Status
    ensures { Reclaims result cache.old cache.new }
{
    match cache.reclaim() {
        Ok(Some(_)) => Status::Done,
        Ok(None) => Status::Idle,
        Err(refusal) => Status::Refused(refusal),
    }
}

/// Says whether the writer finds something to do.
pub fn writer_has_work(cache: &mut Leased<Core<Totals>>) -> Status
    ensures { HasWork writer_step result cache.old cache.new }
{
    match cache.writer_has_work() {
        Ok(true) => Status::Done,
        Ok(false) => Status::Idle,
        Err(refusal) => Status::Refused(refusal),
    }
}

/// Says whether the filler finds something to do.
pub fn filler_has_work(cache: &mut Leased<Core<Totals>>) -> Status
    ensures { HasWork filler_step result cache.old cache.new }
{
    match cache.filler_has_work() {
        Ok(true) => Status::Done,
        Ok(false) => Status::Idle,
        Err(refusal) => Status::Refused(refusal),
    }
}

/// Tells the number of a call whose reply can be taken.
pub fn next_reply(cache: &Leased<Core<Totals>>, call: &mut u64) -> Status
    ensures { NamesReply call.old call.new result cache.now cache.now }
{
    match cache.cache().next_reply() {
        Some(number) => {
            *call = number;
            Status::Done
        }
        None => Status::Idle,
    }
}

/// Hands in what came of the operation for which the job waits.
pub fn finish(cache: &mut Leased<Core<Totals>>, job: u64, came: IoResult) -> Status
    ensures { Finishes job (result_of came) result cache.old cache.new }
{
    match cache.finish(job, came) {
        Ok(take) => {
            let mut next = job;
            tell_take(take, &mut next)
        }
        Err(Unfinished { refusal, came }) => {
            drop(came);
            Status::Refused(refusal)
        }
    }
}

// Tells an operation, and copies the bytes that are to be written to the head of a buffer.
fn tell_order(order: &Order, told: &mut Operation, out: &mut [u8], len: &mut usize) -> Status
    ensures { TellsOrder (order_of order.now) told.new (record { bytes = out.old; len = len.old }) (record { bytes = out.new; len = len.new }) result }
{
    match order {
        Order::Read(page) => {
            *told = Operation {
                page: *page,
                writes: false,
            };
            Status::Done
        }
        Order::Write(page, bytes) => {
            *told = Operation {
                page: *page,
                writes: true,
            };
            copy(bytes.as_slice(), out, len)
        }
    }
}

/// Tells the operation for which the job waits.
pub fn order(
    cache: &Leased<Core<Totals>>,
    job: u64,
    told: &mut Operation,
    out: &mut [u8],
    len: &mut usize,
) -> Status
    ensures { IsOrdered (order_in cache.now.logged.cache.nvm job) told.old told.new (record { bytes = out.old; len = len.old }) (record { bytes = out.new; len = len.new }) result }
{
    match cache.cache().order(job) {
        Some(order) => tell_order(order, told, out, len),
        None => Status::Refused(Refusal::UnknownJob),
    }
}

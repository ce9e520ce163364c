// The calls of workers, who write to flash what left memory, and read from there what calls wait for.
ghost use Rattle.hc_engines.specs.Engine.{Page, Written, Failed};
ghost use Rattle.hc_machine.specs.Workers.{writer_take as writer_step, filler_take as filler_step};
ghost use Rattle.hc_c.specs.Jobs.{Takes, Reclaims, Finishes, HasWork, NamesReply, Orders};
ghost use Rattle.hc_c.specs.Statuses.{OnCache};

use crate::cache_handle::CacheHandle;
use crate::jobs::{self, Operation};
use crate::status::Status;
use bytes::Bytes;
use hc_core::{IoResult, Refusal};
use std::alloc::Global;

/// The writer takes what is next: a page of a region, a delete, or an item that left memory. Where the status is `Done`, the
/// job whose number is told waits for a device operation (`kilambosetry_order`); `Idle`, where there is nothing to do, and
/// `Finished`, where what was taken is over already. Refused with `NoMemory`.
#[unsafe(no_mangle)]
pub extern "C" fn kilambosetry_writer_take(
    alloc: Global,
    handle: &mut CacheHandle,
    job: &mut u64,
) -> u8
    ensures { OnCache handle.old.seat.cache handle.new.seat.cache result (Takes writer_step job.old job.new) }
{
    let Some(mut cache) = handle.take(alloc) else {
        return Status::Empty.number();
    };
    let status = jobs::writer_take(&mut cache.leased, job);
    handle.put(cache);
    status.number()
}

/// The filler takes the key for which calls have waited longest, as the writer takes what is to be written.
#[unsafe(no_mangle)]
pub extern "C" fn kilambosetry_filler_take(
    alloc: Global,
    handle: &mut CacheHandle,
    job: &mut u64,
) -> u8
    ensures { OnCache handle.old.seat.cache handle.new.seat.cache result (Takes filler_step job.old job.new) }
{
    let Some(mut cache) = handle.take(alloc) else {
        return Status::Empty.number();
    };
    let status = jobs::filler_take(&mut cache.leased, job);
    handle.put(cache);
    status.number()
}

/// Says whether the writer is worth waking: `Done`, where it finds something to do if it takes now, and `Idle`, where it doesn't.
/// Refused with `NoMemory`.
#[unsafe(no_mangle)]
pub extern "C" fn kilambosetry_writer_has_work(alloc: Global, handle: &mut CacheHandle) -> u8
    ensures { OnCache handle.old.seat.cache handle.new.seat.cache result (HasWork writer_step) }
{
    let Some(mut cache) = handle.take(alloc) else {
        return Status::Empty.number();
    };
    let status = jobs::writer_has_work(&mut cache.leased);
    handle.put(cache);
    status.number()
}

/// Says the same of the filler.
#[unsafe(no_mangle)]
pub extern "C" fn kilambosetry_filler_has_work(alloc: Global, handle: &mut CacheHandle) -> u8
    ensures { OnCache handle.old.seat.cache handle.new.seat.cache result (HasWork filler_step) }
{
    let Some(mut cache) = handle.take(alloc) else {
        return Status::Empty.number();
    };
    let status = jobs::filler_has_work(&mut cache.leased);
    handle.put(cache);
    status.number()
}

/// Tells the number of a call whose reply can be taken now, whichever of them it is; `Idle`, where no reply is ready.
#[unsafe(no_mangle)]
pub extern "C" fn kilambosetry_next_reply(
    alloc: Global,
    handle: &mut CacheHandle,
    call: &mut u64,
) -> u8
    ensures { OnCache handle.old.seat.cache handle.new.seat.cache result (NamesReply call.old call.new) }
{
    let Some(cache) = handle.take(alloc) else {
        return Status::Empty.number();
    };
    let status = jobs::next_reply(&cache.leased, call);
    handle.put(cache);
    status.number()
}

/// Gives up the region that was written first, where fewer regions are clean than are wanted; `Idle`, where enough are.
/// Refused with `NoMemory`.
#[unsafe(no_mangle)]
pub extern "C" fn kilambosetry_reclaim(alloc: Global, handle: &mut CacheHandle) -> u8
    ensures { OnCache handle.old.seat.cache handle.new.seat.cache result Reclaims }
{
    let Some(mut cache) = handle.take(alloc) else {
        return Status::Empty.number();
    };
    let status = jobs::reclaim(&mut cache.leased);
    handle.put(cache);
    status.number()
}

/// Tells the device operation for which the job waits. Where a page is to be written, its bytes are copied to the head of
/// `out`, and their number is told; where `out` is shorter, the number alone is. Refused with `UnknownJob`.
#[unsafe(no_mangle)]
pub extern "C" fn kilambosetry_order(
    alloc: Global,
    handle: &mut CacheHandle,
    job: u64,
    operation: &mut Operation,
    out: &mut [u8],
    len: &mut usize,
) -> u8
    ensures { OnCache handle.old.seat.cache handle.new.seat.cache result (Orders job operation.old operation.new (record { bytes = out.old; len = len.old }) (record { bytes = out.new; len = len.new })) }
{
    let Some(cache) = handle.take(alloc) else {
        return Status::Empty.number();
    };
    let status = jobs::order(&cache.leased, job, operation, out, len);
    handle.put(cache);
    status.number()
}

/// Hands in the bytes of the page that was read for the job. Where the status is `Done`, the job waits for its next
/// operation; `Finished`, where it is over. Refused with `UnknownJob` where no job with this number waits for a page, and
/// with `NoMemory`; then the page can be handed in again.
#[unsafe(no_mangle)]
pub extern "C" fn kilambosetry_finish_read(
    alloc: Global,
    handle: &mut CacheHandle,
    job: u64,
    page: &[u8],
) -> u8
    ensures { OnCache handle.old.seat.cache handle.new.seat.cache result (Finishes job (Page page.now)) }
{
    let Some(mut cache) = handle.take(alloc) else {
        return Status::Empty.number();
    };
    let status = match Bytes::copy_from_slice(alloc, page) {
        Ok(bytes) => jobs::finish(&mut cache.leased, job, IoResult::Page(bytes)),
        Err(_) => Status::Refused(Refusal::NoMemory),
    };
    handle.put(cache);
    status.number()
}

/// Says that the job's page was written, as `kilambosetry_finish_read` hands one in.
#[unsafe(no_mangle)]
pub extern "C" fn kilambosetry_finish_write(alloc: Global, handle: &mut CacheHandle, job: u64) -> u8
    ensures { OnCache handle.old.seat.cache handle.new.seat.cache result (Finishes job Written) }
{
    let Some(mut cache) = handle.take(alloc) else {
        return Status::Empty.number();
    };
    let status = jobs::finish(&mut cache.leased, job, IoResult::Written);
    handle.put(cache);
    status.number()
}

/// Says that the device failed to do the job's operation: what was there is forgotten.
#[unsafe(no_mangle)]
pub extern "C" fn kilambosetry_finish_failed(
    alloc: Global,
    handle: &mut CacheHandle,
    job: u64,
) -> u8
    ensures { OnCache handle.old.seat.cache handle.new.seat.cache result (Finishes job Failed) }
{
    let Some(mut cache) = handle.take(alloc) else {
        return Status::Empty.number();
    };
    let status = jobs::finish(&mut cache.leased, job, IoResult::Failed);
    handle.put(cache);
    status.number()
}

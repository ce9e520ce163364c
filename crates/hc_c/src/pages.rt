// Pages by handle: C fills and reads them while others use the cache, and hands them in and out without a copy.
ghost use Rattle.std.specs.Prelude.{◌≡◌, None};
ghost use Rattle.hc_flash.specs.Seen.{order_of};
ghost use Rattle.hc_machine.specs.World.{order_in};
ghost use Rattle.hc_c.specs.Pages.{HandsIn, HandsOut, HandsOrder, TellsPage, Holds};
ghost use Rattle.hc_c.specs.Statuses.{OnCache, Says};

use crate::cache_handle::CacheHandle;
use crate::jobs::{Operation, tell_take};
use crate::reading::Reading;
use crate::status::Status;
use crate::value_handle::ValueHandle;
use bytes::Bytes;
use hc_core::{Core, IoResult, Order, Refusal, Totals, Unfinished};
use hc_leased::Leased;
use std::alloc::Global;
use std::mem;

// A handle to a page, in place of what the handle has.
fn hold(alloc: Global, page: &mut ValueHandle, bytes: Bytes) -> Status
    ensures { Holds bytes page.new.seat.value result }
{
    let _freed = page.take(alloc);
    match Box::new(alloc, Reading { bytes }) {
        Ok(reading) => {
            *page = ValueHandle::of(reading);
            Status::Done
        }
        Err(_) => Status::Refused(Refusal::NoMemory),
    }
}

// A handle to a copy of these bytes.
fn copied(alloc: Global, page: &mut ValueHandle, bytes: &[u8]) -> Status
    ensures { Holds bytes.now page.new.seat.value result }
{
    match Bytes::copy_from_slice(alloc, bytes) {
        Ok(bytes) => hold(alloc, page, bytes),
        Err(_) => {
            drop(page.take(alloc));
            Status::Refused(Refusal::NoMemory)
        }
    }
}

// The page is handed in for the job, and its handle has it no longer, unless it is refused.
fn hand_in(
    cache: &mut Leased<Core<Totals>>,
    alloc: Global,
    job: u64,
    page: &mut ValueHandle,
) -> Status
    ensures { HandsIn job page.old.seat.value page.new.seat.value result cache.old cache.new }
{
    let Some(mut reading) = page.take(alloc) else {
        return Status::Empty;
    };
    let bytes = mem::replace(&mut reading.bytes, Bytes::new());
    match cache.finish(job, IoResult::Page(bytes)) {
        Ok(take) => {
            drop(reading);
            let mut next = job;
            tell_take(take, &mut next)
        }
        Err(Unfinished { refusal, came }) => {
            match came {
                IoResult::Page(bytes) => {
                    reading.bytes = bytes;
                    page.put(reading);
                }
                IoResult::Written | IoResult::Failed => unreachable!(),
            }
            Status::Refused(refusal)
        }
    }
}

// Tells an operation, and hands out the page that is to be written.
fn tell_page(order: &Order, alloc: Global, told: &mut Operation, page: &mut ValueHandle) -> Status
    ensures { TellsPage (order_of order.now) told.old told.new page.new.seat.value result }
{
    match order {
        Order::Read(number) => {
            drop(page.take(alloc));
            *told = Operation {
                page: *number,
                writes: false,
            };
            Status::Done
        }
        Order::Write(number, bytes) => {
            let Ok(bytes) = bytes.clone() else {
                drop(page.take(alloc));
                return Status::Refused(Refusal::NoMemory);
            };
            let status = hold(alloc, page, bytes);
            if let Status::Done = status {
                *told = Operation {
                    page: *number,
                    writes: true,
                };
            }
            status
        }
    }
}

fn hand_out(
    cache: &Leased<Core<Totals>>,
    alloc: Global,
    job: u64,
    told: &mut Operation,
    page: &mut ValueHandle,
) -> Status
    ensures { HandsOut (order_in cache.now.logged.cache.nvm job) told.old told.new page.new.seat.value result }
{
    match cache.cache().order(job) {
        Some(order) => tell_page(order, alloc, told, page),
        None => {
            drop(page.take(alloc));
            Status::Refused(Refusal::UnknownJob)
        }
    }
}

/// Makes a handle to a page of these bytes, which are copied. What the handle has is freed first. Refused with `NoMemory`;
/// then it has none. No cache is asked, so that no lock is needed.
#[unsafe(no_mangle)]
pub extern "C" fn kilambosetry_page_new(alloc: Global, page: &mut ValueHandle, bytes: &[u8]) -> u8
    ensures { Says result (Holds bytes.now page.new.seat.value) }
{
    copied(alloc, page, bytes).number()
}

/// Tells the device operation for which the job waits, as `kilambosetry_order` does. A page that is to be written is handed
/// out by its handle, and isn't copied: its bytes are read when the cache is free for others. Where there is a cache, what the
/// handle has is freed first, so that it has a page after a write alone. Refused with `UnknownJob`, and with `NoMemory`.
#[unsafe(no_mangle)]
pub extern "C" fn kilambosetry_order_page(
    alloc: Global,
    handle: &mut CacheHandle,
    job: u64,
    operation: &mut Operation,
    page: &mut ValueHandle,
) -> u8
    ensures { OnCache handle.old.seat.cache handle.new.seat.cache result (HandsOrder job operation.old operation.new page.new.seat.value) }
{
    let Some(cache) = handle.take(alloc) else {
        return Status::Empty.number();
    };
    let status = hand_out(&cache.leased, alloc, job, operation, page);
    handle.put(cache);
    status.number()
}

/// Hands in the page that was read for the job, as `kilambosetry_finish_read` does, by its handle and without a copy: the
/// handle has no page afterwards. Where it is refused the handle keeps its page, so that it can be handed in again. `Empty`
/// where there is no cache, or the handle has no page.
#[unsafe(no_mangle)]
pub extern "C" fn kilambosetry_finish_page(
    alloc: Global,
    handle: &mut CacheHandle,
    job: u64,
    page: &mut ValueHandle,
) -> u8
    ensures table { OnCache handle.old.seat.cache handle.new.seat.cache result (HandsIn job page.old.seat.value page.new.seat.value) }
    ensures kept { handle.old.seat.cache ≡ None → page.new.seat.value ≡ page.old.seat.value }
{
    let Some(mut cache) = handle.take(alloc) else {
        return Status::Empty.number();
    };
    let status = hand_in(&mut cache.leased, alloc, job, page);
    handle.put(cache);
    status.number()
}

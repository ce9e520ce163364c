// Operations of a cache on the device that it is lent.
ghost use Rattle.std.specs.Prelude.{◌≡◌, ◌<◌, ℕ, false, Some, None, IfOk, IfSome, OnOk, OnErr, IsErrOf};
ghost use Rattle.hc_engines.specs.Engine.{Write, pages_after};
ghost use Rattle.hc_flash.specs.Answers.{failures_in};
ghost use Rattle.hc_flash.specs.Operations.{CameOf};
ghost use Rattle.hc_flash.specs.Seen.{order_of, result_of};
ghost use Rattle.hc_run.specs.Devices.{Comes, Counts, IsSame, broke, one_if};
ghost use Rattle.hc_run.specs.Shows.{seen};
ghost use Rattle.hc_run.specs.Steps.{failed_more};
ghost use Rattle.hc_shards.specs.Parts.{Beside};

use crate::window::Window;
use bytes::Bytes;
use hc_flash::{Flash, FlashError, IoResult, Order};
use hc_io_results::copy;
use std::alloc::{AllocError, Allocator};

/// What came of an operation, for two owners: one hands it in later, one is told.
pub(crate) struct Came<A: Allocator> {
    pub(crate) kept: IoResult<A>,
    pub(crate) told: IoResult<A>,
}

/// The cache's page is read. One that it hasn't fails, and doesn't reach the device.
fn read<A: Allocator, D: Flash<A>>(
    device: &mut D,
    window: &Window,
    page: u32,
) -> Result<Bytes<A>, FlashError>
    ensures as_written { IfOk result (λ bytes. IfSome (seen window.now (D.held device.old) page) (λ written. bytes ≡ written)) }
    ensures same { IsSame (D.held device.old) (D.held device.new) }
    ensures counted { Counts window.now (D.failed device.old) (D.failed device.new) 0 (failures_in result) }
{
    let Some(place) = window.place(page) else {
        return Err(FlashError::Device);
    };
    device.read(place)
}

/// The cache's page is written. One that it hasn't fails, and doesn't reach the device.
fn write<A: Allocator, D: Flash<A>>(
    device: &mut D,
    window: &Window,
    page: u32,
    bytes: &[u8],
) -> Result<(), FlashError>
    ensures written { OnOk result (seen window.now (D.held device.new) page ≡ Some bytes.now) }
    ensures lost { IsErrOf result FlashError.Device → seen window.now (D.held device.new) page ≡ None }
    ensures others { (other : ℕ) → ¬ (other ≡ page) → seen window.now (D.held device.new) other ≡ seen window.now (D.held device.old) other }
    ensures kept { IsErrOf result FlashError.NoMemory → IsSame (D.held device.old) (D.held device.new) }
    ensures beside { Beside window.now.first window.now.pages (D.held device.old) (D.held device.new) }
    ensures counted { Counts window.now (D.failed device.old) (D.failed device.new) 0 (failures_in result) }
{
    let Some(place) = window.place(page) else {
        return Err(FlashError::Device);
    };
    device.write(place, bytes)
}

/// The cache's page is written: what comes of it. When out of memory, it isn't.
fn written<A: Allocator, D: Flash<A>>(
    device: &mut D,
    window: &Window,
    page: u32,
    bytes: &[u8],
) -> Result<IoResult<A>, AllocError>
    ensures came { IfOk result (λ came. CameOf (seen window.now (D.held device.old)) (Write page bytes.now) (result_of came)) }
    ensures pages { IfOk result (λ came. (other : ℕ) → seen window.now (D.held device.new) other ≡ pages_after (Write page bytes.now) (result_of came) (seen window.now (D.held device.old)) other) }
    ensures beside { Beside window.now.first window.now.pages (D.held device.old) (D.held device.new) }
    ensures counted { IfOk result (λ came. Counts window.now (D.failed device.old) (D.failed device.new) 0 (one_if (broke false (result_of came)))) }
    ensures err { OnErr result (IsSame (D.held device.old) (D.held device.new)) }
    ensures uncounted { OnErr result (Counts window.now (D.failed device.old) (D.failed device.new) 0 0) }
{
    match write(device, window, page, bytes) {
        Ok(()) => Ok(IoResult::Written),
        Err(FlashError::Device) => Ok(IoResult::Failed),
        Err(FlashError::NoMemory) => Err(AllocError),
    }
}

/// The operation is made on the cache's page. When out of memory, it isn't.
fn perform<A: Allocator, D: Flash<A>>(
    device: &mut D,
    window: &Window,
    order: &Order<A>,
) -> Result<IoResult<A>, AllocError>
    ensures came { IfOk result (λ came. CameOf (seen window.now (D.held device.old)) (order_of order.now) (result_of came)) }
    ensures pages { IfOk result (λ came. (page : ℕ) → seen window.now (D.held device.new) page ≡ pages_after (order_of order.now) (result_of came) (seen window.now (D.held device.old)) page) }
    ensures beside { Beside window.now.first window.now.pages (D.held device.old) (D.held device.new) }
    ensures counted { IfOk result (λ came. Counts window.now (D.failed device.old) (D.failed device.new) 0 (one_if (broke false (result_of came)))) }
    ensures err { OnErr result (IsSame (D.held device.old) (D.held device.new)) }
    ensures uncounted { OnErr result (Counts window.now (D.failed device.old) (D.failed device.new) 0 0) }
{
    match order {
        Order::Read(page) => match read(device, window, *page) {
            Ok(bytes) => Ok(IoResult::Page(bytes)),
            Err(FlashError::Device) => Ok(IoResult::Failed),
            Err(FlashError::NoMemory) => Err(AllocError),
        },
        Order::Write(page, bytes) => written(device, window, *page, bytes.as_slice()),
    }
}

/// The device does the operation. When out of memory, nothing is read or written, or what was read isn't told.
fn make<A: Allocator, D: Flash<A>>(
    device: &mut D,
    window: &Window,
    order: &Order<A>,
) -> Result<Came<A>, AllocError>
    ensures ok { IfOk result (λ came. Comes (order_of order.now) false (broke false (result_of came.kept)) (seen window.now (D.held device.old)) (result_of came.kept) (seen window.now (D.held device.new))) }
    ensures told { IfOk result (λ came. result_of came.told ≡ result_of came.kept) }
    ensures beside { Beside window.now.first window.now.pages (D.held device.old) (D.held device.new) }
    ensures counted { IfOk result (λ came. Counts window.now (D.failed device.old) (D.failed device.new) 0 (one_if (broke false (result_of came.kept)))) }
    ensures err { OnErr result (IsSame (seen window.now (D.held device.old)) (seen window.now (D.held device.new))) }
    ensures uncounted { OnErr result (Counts window.now (D.failed device.old) (D.failed device.new) 0 0) }
{
    let kept = perform(device, window, order)?;
    match copy(&kept) {
        Ok(told) => Ok(Came { kept, told }),
        Err(no_memory) => Err(no_memory),
    }
}

/// The operation is made. Where the step fails it, it doesn't reach the device. When out of memory, none is made. No
/// page of the device is changed but the cache's own.
pub(crate) fn operate<A: Allocator, D: Flash<A>>(
    device: &mut D,
    window: &Window,
    order: &Order<A>,
    fails: bool,
) -> Result<Came<A>, AllocError>
    ensures ok { IfOk result (λ came. Comes (order_of order.now) fails (broke fails (result_of came.kept)) (seen window.now (D.held device.old)) (result_of came.kept) (seen window.now (D.held device.new))) }
    ensures told { IfOk result (λ came. result_of came.told ≡ result_of came.kept) }
    ensures beside { Beside window.now.first window.now.pages (D.held device.old) (D.held device.new) }
    ensures counted { IfOk result (λ came. Counts window.now (D.failed device.old) (D.failed device.new) 0 (one_if (broke fails (result_of came.kept)))) }
    ensures err { OnErr result (IsSame (seen window.now (D.held device.old)) (seen window.now (D.held device.new))) }
    ensures uncounted { OnErr result (Counts window.now (D.failed device.old) (D.failed device.new) 0 0) }
{
    if fails {
        return Ok(Came {
            kept: IoResult::Failed,
            told: IoResult::Failed,
        });
    }
    make(device, window, order)
}

/// How many operations have failed otherwise than by their step, with the one of which this came.
pub(crate) fn failures_after<A: Allocator>(failures: u64, fails: bool, came: &IoResult<A>) -> u64
    requires { failures < u64.MAX }
    ensures { result ≡ failed_more fails (broke fails (result_of came.now)) failures }
{
    if fails {
        return failures;
    }
    match came {
        IoResult::Failed => failures + 1,
        IoResult::Page(_) => failures,
        IoResult::Written => failures,
    }
}

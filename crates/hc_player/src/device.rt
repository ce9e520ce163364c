// Operations of the device in memory.
ghost use Rattle.std.specs.Prelude.{false, true, IfOk};
ghost use Rattle.hc_flash.specs.Seen.{result_of};
ghost use Rattle.hc_flash.specs.Seen.{order_of};
ghost use Rattle.hc_engines.specs.Engine.{Read, Write};
ghost use Rattle.hc_player.specs.Devices.{Comes};

use hc_flash::{Flash, FlashError, IoResult, MemFlash, Order};
use std::alloc::AllocError;

/// The page is read. It fails where nothing is known of the page.
fn read(device: &mut MemFlash, page: u32) -> Result<IoResult, AllocError>
    ensures { IfOk result (λ came. Comes (Read page) false device.old (result_of came) device.new) }
{
    match device.read(page) {
        Ok(bytes) => Ok(IoResult::Page(bytes)),
        Err(FlashError::Device) => Ok(IoResult::Failed),
        Err(FlashError::NoMemory) => Err(AllocError),
    }
}

/// The page is written. A device that can't have such a page has no memory for it.
fn write(device: &mut MemFlash, page: u32, bytes: &[u8]) -> Result<IoResult, AllocError>
    ensures { IfOk result (λ came. Comes (Write page bytes.now) false device.old (result_of came) device.new) }
{
    match device.write(page, bytes) {
        Ok(()) => Ok(IoResult::Written),
        Err(_) => Err(AllocError),
    }
}

/// The operation fails, and doesn't reach the device. Of a page that was to be written nothing is known then.
fn fail(device: &mut MemFlash, order: &Order) -> IoResult
    ensures { Comes (order_of order.now) true device.old (result_of result) device.new }
{
    match order {
        Order::Read(_) => {}
        Order::Write(page, _) => device.forget(*page),
    }
    IoResult::Failed
}

/// The operation is made, or fails.
pub(crate) fn operate(
    device: &mut MemFlash,
    order: &Order,
    fails: bool,
) -> Result<IoResult, AllocError>
    ensures { IfOk result (λ came. Comes (order_of order.now) fails device.old (result_of came) device.new) }
{
    if fails {
        return Ok(fail(device, order));
    }
    match order {
        Order::Read(page) => read(device, *page),
        Order::Write(page, bytes) => write(device, *page, bytes.as_slice()),
    }
}

// Operations on any device.
ghost use Rattle.std.specs.Prelude.{◌≡◌, ◌+◌, ℕ, None, IfOk, OnErr};
ghost use Rattle.hc_flash.specs.Operations.{CameOf, failures_of};
ghost use Rattle.hc_flash.specs.Seen.{order_of, result_of};

use crate::device::Device;
use hc_flash::{FlashError, IoResult, Order};
use std::alloc::{AllocError, Allocator};

/// The page that the order is for is read or written, as `perform` does it on a `Flash`. Of the bytes no more is
/// promised than the device says (`gives`): what comes of a read is a page or a failure, of a write that it was made or a
/// failure, and each failure is one that the device counted. When out of memory, neither is done, and none is counted.
pub fn operate<A: Allocator, D: Device<A>>(
    device: &mut D,
    order: &Order<A>,
) -> Result<IoResult<A>, AllocError>
    ensures kind { IfOk result (λ came. CameOf (λ page. None) (order_of order.now) (result_of came)) }
    ensures gives { IfOk result (λ came. D.gives device.old (order_of order.now) (result_of came) device.new) }
    ensures counted { IfOk result (λ came. D.failed device.new ≡ D.failed device.old + failures_of (result_of came)) }
    ensures uncounted { OnErr result (D.failed device.new ≡ D.failed device.old) }
{
    let came = match order {
        Order::Read(page) => device.read(*page).map(|bytes| IoResult::Page(bytes)),
        Order::Write(page, bytes) => device
            .write(*page, bytes.as_slice())
            .map(|()| IoResult::Written),
    };
    match came {
        Ok(came) => Ok(came),
        Err(FlashError::Device) => Ok(IoResult::Failed),
        Err(FlashError::NoMemory) => Err(AllocError),
    }
}

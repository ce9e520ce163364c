// Device operations: what a device is asked, and what comes of it.
ghost use Rattle.std.specs.Prelude.{◌≡◌, ◌+◌, ℕ, IfOk, OnErr};
ghost use Rattle.hc_flash.specs.Operations as operations;
ghost use Rattle.hc_flash.specs.Operations.{CameOf, Write, failures_of, pages_after};
ghost use Rattle.hc_flash.specs.Seen.{order_of, result_of};

use crate::flash::{Flash, FlashError};
use bytes::Bytes;
use std::alloc::{AllocError, Allocator, Global};
use std::fmt;

/// A device operation on one page, by the number of the page.
#[derive(Drop)]
#[must_use]
pub enum Order<A: Allocator = Global> {
    Read(u32),
    /// The page is to have these bytes, as many as a page has.
    Write(u32, Bytes<A>),
}

/// What came of a device operation.
#[derive(Drop)]
pub enum IoResult<A: Allocator = Global> {
    /// The page was read, and has these bytes.
    Page(Bytes<A>),
    /// The page was written.
    Written,
    /// The device failed: nothing was read, or nothing is known any more of the page that was to be written.
    Failed,
}

impl<A: Allocator> Order<A> {
    /// The page that it is for.
    #[must_use]
    pub fn page(&self) -> u32
        ensures { result ≡ operations.page_of (order_of self.now) }
    {
        match self {
            Order::Read(page) | Order::Write(page, _) => *page,
        }
    }
}

/// The page that the order is for is read or written. When out of memory, neither is done.
pub fn perform<A: Allocator, F: Flash<A>>(
    device: &mut F,
    order: &Order<A>,
) -> Result<IoResult<A>, AllocError>
    ensures came { IfOk result (λ came. CameOf (F.held device.old) (order_of order.now) (result_of came)) }
    ensures pages { IfOk result (λ came. (page : ℕ) → F.held device.new page ≡ pages_after (order_of order.now) (result_of came) (F.held device.old) page) }
    ensures counted { IfOk result (λ came. F.failed device.new ≡ F.failed device.old + failures_of (result_of came)) }
    ensures err { OnErr result ((page : ℕ) → F.held device.new page ≡ F.held device.old page) }
    ensures uncounted { OnErr result (F.failed device.new ≡ F.failed device.old) }
{
    match order {
        Order::Read(page) => match device.read(*page) {
            Ok(bytes) => Ok(IoResult::Page(bytes)),
            Err(FlashError::Device) => Ok(IoResult::Failed),
            Err(FlashError::NoMemory) => Err(AllocError),
        },
        Order::Write(page, bytes) => write(device, *page, bytes.as_slice()),
    }
}

/// The page is written. When out of memory, it isn't.
fn write<A: Allocator, F: Flash<A>>(
    device: &mut F,
    page: u32,
    bytes: &[u8],
) -> Result<IoResult<A>, AllocError>
    ensures came { IfOk result (λ came. CameOf (F.held device.old) (Write page bytes.now) (result_of came)) }
    ensures pages { IfOk result (λ came. (other : ℕ) → F.held device.new other ≡ pages_after (Write page bytes.now) (result_of came) (F.held device.old) other) }
    ensures counted { IfOk result (λ came. F.failed device.new ≡ F.failed device.old + failures_of (result_of came)) }
    ensures err { OnErr result ((other : ℕ) → F.held device.new other ≡ F.held device.old other) }
    ensures uncounted { OnErr result (F.failed device.new ≡ F.failed device.old) }
{
    match device.write(page, bytes) {
        Ok(()) => Ok(IoResult::Written),
        Err(FlashError::Device) => Ok(IoResult::Failed),
        Err(FlashError::NoMemory) => Err(AllocError),
    }
}

/// A page that is to be written shows as its length.
impl<A: Allocator> fmt::Debug for Order<A> {
    fn fmt<W: fmt::Write>(&self, f: &mut fmt::Formatter<W>) -> fmt::Result {
        match self {
            Order::Read(page) => write!(f, "Read({page})"),
            Order::Write(page, bytes) => write!(f, "Write({page}, {} bytes)", bytes.len()),
        }
    }
}

/// A page that was read shows as its length.
impl<A: Allocator> fmt::Debug for IoResult<A> {
    fn fmt<W: fmt::Write>(&self, f: &mut fmt::Formatter<W>) -> fmt::Result {
        match self {
            IoResult::Page(bytes) => write!(f, "Page({} bytes)", bytes.len()),
            IoResult::Written => f.write_str("Written"),
            IoResult::Failed => f.write_str("Failed"),
        }
    }
}

// The devices of `hc_flash`, as devices of which nothing is promised but the count. An impl for each: one for every `Flash`
// would leave no room for the devices that are none.

use crate::device::Device;
use bytes::Bytes;
use hc_flash::{FailAt, Flash, FlashError, Liar, MemFlash};
use std::alloc::Allocator;

impl<A: Allocator + Clone> Device<A> for MemFlash<A> {
    ghost failed = { λ flash. flash.failed };

    fn read(&mut self, page: u32) -> Result<Bytes<A>, FlashError> {
        Flash::read(self, page)
    }

    fn write(&mut self, page: u32, bytes: &[u8]) -> Result<(), FlashError> {
        Flash::write(self, page, bytes)
    }

    fn failures(&self) -> u64 {
        Flash::failures(self)
    }
}

impl<F: Flash<A>, A: Allocator> Device<A> for FailAt<F, A> {
    ghost use Rattle.std.specs.Prelude.{◌+◌};

    ghost failed = { λ flash. F.failed flash.inner + flash.own };

    fn read(&mut self, page: u32) -> Result<Bytes<A>, FlashError> {
        Flash::read(self, page)
    }

    fn write(&mut self, page: u32, bytes: &[u8]) -> Result<(), FlashError> {
        Flash::write(self, page, bytes)
    }

    fn failures(&self) -> u64 {
        Flash::failures(self)
    }
}

impl<F: Flash<A>, A: Allocator + Clone> Device<A> for Liar<F, A> {
    ghost failed = { λ flash. F.failed flash.inner };

    fn read(&mut self, page: u32) -> Result<Bytes<A>, FlashError> {
        Liar::read(self, page)
    }

    fn write(&mut self, page: u32, bytes: &[u8]) -> Result<(), FlashError> {
        Liar::write(self, page, bytes)
    }

    fn failures(&self) -> u64 {
        Liar::failures(self)
    }
}

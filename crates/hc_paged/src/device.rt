// What any paged device is.
ghost use Rattle.std.specs.Prelude.{◌≡◌, ◌+◌, ℕ, IfOk, OnOk, IsErrOf, ⊤};
ghost use Rattle.hc_flash.specs.Answers.{failures_in};
ghost use Rattle.hc_flash.specs.Operations.{IoResult, Order, Failed, Page, Read, Write, Written};

use bytes::Bytes;
use hc_flash::FlashError;
use std::alloc::Allocator;

/// An array of pages, of whose bytes nothing is promised: a read may answer any bytes at all, of any length. What a device
/// counts is promised: each operation that it answers with `FlashError::Device` is one failure more, and no other is.
pub trait Device<A: Allocator>: Drop {
    /// How often the device has failed.
    ghost failed: { Self → ℕ };

    /// What a device says of its operations: the device before, the operation, what came of it, and the device after. One
    /// that says nothing may answer anything.
    ghost gives: { Self → Order → IoResult → Self → Type 0 } = { λ _ _ _ _. ⊤ };

    /// Reads the page of this number. When out of memory (`FlashError::NoMemory`), nothing is counted.
    fn read(&mut self, page: u32) -> Result<Bytes<A>, FlashError>
        ensures gives { IfOk result (λ bytes. gives self.old (Read page) (Page bytes) self.new) }
        ensures fails { IsErrOf result FlashError.Device → gives self.old (Read page) Failed self.new }
        ensures counted { failed self.new ≡ failed self.old + failures_in result };

    /// Writes these bytes as the page of this number. When out of memory (`FlashError::NoMemory`), nothing is counted.
    fn write(&mut self, page: u32, bytes: &[u8]) -> Result<(), FlashError>
        ensures gives { OnOk result (gives self.old (Write page bytes.now) Written self.new) }
        ensures fails { IsErrOf result FlashError.Device → gives self.old (Write page bytes.now) Failed self.new }
        ensures counted { failed self.new ≡ failed self.old + failures_in result };

    /// How often the device has failed.
    #[must_use]
    fn failures(&self) -> u64
        ensures { result ≡ failed self.now };
}

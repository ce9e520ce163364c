// What a paged device is.
ghost use Rattle.std.specs.Prelude.{◌≡◌, ◌+◌, ℕ, List, Option, Some, None, IfOk, IfSome, OnOk, IsErrOf};
ghost use Rattle.hc_flash.specs.Answers.{failures_in};
ghost use Rattle.hc_flash.specs.declared.flash.FlashError.TheVariants.{NoMemory};

use bytes::Bytes;
use std::alloc::{AllocError, AllocFailed, Allocator};
use thiserror::Error;

/// Why a device did not read or write a page.
#[derive(Clone, Copy, Debug, PartialEq, Eq, Error)]
pub enum FlashError {
    /// The device failed, and counted it.
    #[error("the device failed")]
    Device,
    /// Memory was refused, or the count of failures has run out. Nothing was read, written or counted.
    #[error("no memory")]
    NoMemory,
}

impl From<AllocError> for FlashError {
    ghost from_gives = { λ _ error. error ≡ NoMemory };

    fn from(_error: AllocError) -> FlashError {
        FlashError::NoMemory
    }
}

impl<T: Drop> From<AllocFailed<T>> for FlashError {
    ghost from_gives = { λ _ error. error ≡ NoMemory };

    fn from(_error: AllocFailed<T>) -> FlashError {
        FlashError::NoMemory
    }
}

/// An array of pages. Every device that this trait describes answers a page as it was last written, or an error; it
/// never answers an older page as if it were the last.
pub trait Flash<A: Allocator>: Drop {
    /// Each page as it was last written. `None` is a page of which nothing is known: before its first write, and from
    /// a write that failed until the next one.
    ghost held: { Self → ℕ → Option (List ℕ) };

    /// How often the device has failed.
    ghost failed: { Self → ℕ };

    /// Reads the page of this number. What is read of a page of which nothing is known, nobody knows.
    fn read(&mut self, page: u32) -> Result<Bytes<A>, FlashError>
        ensures as_written { IfOk result (λ bytes. IfSome (held self.old page) (λ written. bytes ≡ written)) }
        ensures same { (every : ℕ) → held self.new every ≡ held self.old every }
        ensures counted { failed self.new ≡ failed self.old + failures_in result }
        ensures count_is_full { failed self.old ≡ u64.MAX → IsErrOf result FlashError.NoMemory };

    /// Writes these bytes as the page of this number.
    fn write(&mut self, page: u32, bytes: &[u8]) -> Result<(), FlashError>
        ensures written { OnOk result (held self.new page ≡ Some bytes.now) }
        ensures lost { IsErrOf result FlashError.Device → held self.new page ≡ None }
        ensures kept { IsErrOf result FlashError.NoMemory → held self.new page ≡ held self.old page }
        ensures others { (other : ℕ) → ¬ (other ≡ page) → held self.new other ≡ held self.old other }
        ensures counted { failed self.new ≡ failed self.old + failures_in result }
        ensures count_is_full { failed self.old ≡ u64.MAX → IsErrOf result FlashError.NoMemory };

    /// How often the device has failed.
    #[must_use]
    fn failures(&self) -> u64
        ensures { result ≡ failed self.now };
}

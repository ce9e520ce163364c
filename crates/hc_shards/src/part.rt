// The pages of a device that are one shard's.
ghost use Rattle.std.specs.Prelude.{◌≡◌, ◌+◌, ◌<◌, ◌≤◌, ℕ, Some, None, IfOk, IfSome, OnOk, IsErrOf};
ghost use Rattle.hc_flash.specs.Answers.{failures_in};
ghost use Rattle.hc_flash.specs.Operations.{Read, Write, Page, Written, Failed};
ghost use Rattle.hc_shards.specs.Parts.{held_in, Beside, GivesPart};

use bytes::Bytes;
use hc_flash::{Flash, FlashError};
use hc_paged::Device;
use std::alloc::Allocator;
use std::fmt;
use std::marker::Model;

/// Some of a device's pages, one behind the other, as a device of its own whose pages are numbered from 0: a `Flash` over a
/// `Flash`, and a `Device` over a `Device`.
///
/// It counts what fails of its own operations. One on a page that it hasn't fails, and doesn't reach the device.
#[derive(Drop)]
pub struct DevicePart<D: Drop> {
    inner: D,
    first: u32,
    pages: u32,
    failures: u64,
}

impl<D: Drop> Model for DevicePart<D> {
    ghost use Rattle.std.specs.Prelude.{◌+◌, ◌≤◌};
    ghost use Rattle.hc_shards.specs.Parts.{Part};

    ghost Value = { Part D };

    ghost view = { λ part. record { inner = part.inner; first = part.first; pages = part.pages; failed = part.failures } };

    ghost invariant = { λ part. part.first + part.pages ≤ 4294967296 };
}

impl<D: Drop> DevicePart<D> {
    /// So many pages of this device, from this one on.
    #[must_use]
    pub fn new(inner: D, first: u32, pages: u32) -> DevicePart<D>
        requires { first + pages ≤ 4294967296 }
        ensures { result ≡ record { inner = inner; first = first; pages = pages; failed = 0 } }
    {
        DevicePart {
            inner,
            first,
            pages,
            failures: 0,
        }
    }

    /// The device.
    #[must_use]
    pub fn into_inner(self) -> D
        ensures { result ≡ self.inner }
    {
        let DevicePart {
            inner,
            first: _,
            pages: _,
            failures: _,
        } = self;
        inner
    }

    /// The device's page that is this page of the part. Where it has none, that is a failure, which is counted.
    fn place(&mut self, page: u32) -> Result<u32, FlashError>
        ensures ok { IfOk result (λ place. (place ≡ self.old.first + page) × (page < self.old.pages) × (self.old.failed < u64.MAX)) }
        ensures device { IsErrOf result FlashError.Device → self.old.pages ≤ page }
        ensures same { (self.new.inner ≡ self.old.inner) × (self.new.first ≡ self.old.first) × (self.new.pages ≡ self.old.pages) }
        ensures counted { self.new.failed ≡ self.old.failed + failures_in result }
        ensures full { self.old.failed ≡ u64.MAX → IsErrOf result FlashError.NoMemory }
    {
        if self.failures == u64::MAX {
            return Err(FlashError::NoMemory);
        }
        if page >= self.pages {
            return Err(self.fail());
        }
        Ok(self.first + page)
    }

    /// Counts a failure.
    fn fail(&mut self) -> FlashError
        requires { self.old.failed < u64.MAX }
        ensures device { result ≡ FlashError.Device }
        ensures counted { self.new.failed ≡ self.old.failed + 1 }
        ensures same { (self.new.inner ≡ self.old.inner) × (self.new.first ≡ self.old.first) × (self.new.pages ≡ self.old.pages) }
    {
        self.failures += 1;
        FlashError::Device
    }
}

impl<F: Flash<A>, A: Allocator> Flash<A> for DevicePart<F> {
    ghost held = { λ part. held_in part.first part.pages (F.held part.inner) };

    ghost failed = { λ part. part.failed };

    fn read(&mut self, page: u32) -> Result<Bytes<A>, FlashError>
        ensures as_written { IfOk result (λ bytes. IfSome (held_in self.old.first self.old.pages (F.held self.old.inner) page) (λ written. bytes ≡ written)) }
        ensures same { (every : ℕ) → held_in self.new.first self.new.pages (F.held self.new.inner) every ≡ held_in self.old.first self.old.pages (F.held self.old.inner) every }
        ensures counted { self.new.failed ≡ self.old.failed + failures_in result }
        ensures count_is_full { self.old.failed ≡ u64.MAX → IsErrOf result FlashError.NoMemory }
        ensures beside { (every : ℕ) → F.held self.new.inner every ≡ F.held self.old.inner every }
        ensures size { (self.new.first ≡ self.old.first) × (self.new.pages ≡ self.old.pages) }
    {
        let place = self.place(page)?;
        match self.inner.read(place) {
            Err(FlashError::Device) => Err(self.fail()),
            read => read,
        }
    }

    fn write(&mut self, page: u32, bytes: &[u8]) -> Result<(), FlashError>
        ensures written { OnOk result (held_in self.new.first self.new.pages (F.held self.new.inner) page ≡ Some bytes.now) }
        ensures lost { IsErrOf result FlashError.Device → held_in self.new.first self.new.pages (F.held self.new.inner) page ≡ None }
        ensures kept { IsErrOf result FlashError.NoMemory → held_in self.new.first self.new.pages (F.held self.new.inner) page ≡ held_in self.old.first self.old.pages (F.held self.old.inner) page }
        ensures others { (other : ℕ) → ¬ (other ≡ page) → held_in self.new.first self.new.pages (F.held self.new.inner) other ≡ held_in self.old.first self.old.pages (F.held self.old.inner) other }
        ensures counted { self.new.failed ≡ self.old.failed + failures_in result }
        ensures count_is_full { self.old.failed ≡ u64.MAX → IsErrOf result FlashError.NoMemory }
        ensures beside { Beside self.old.first self.old.pages (F.held self.old.inner) (F.held self.new.inner) }
        ensures size { (self.new.first ≡ self.old.first) × (self.new.pages ≡ self.old.pages) }
    {
        let place = self.place(page)?;
        match self.inner.write(place, bytes) {
            Err(FlashError::Device) => Err(self.fail()),
            written => written,
        }
    }

    fn failures(&self) -> u64 {
        self.failures
    }
}

impl<D: Device<A>, A: Allocator> Device<A> for DevicePart<D> {
    ghost use Rattle.hc_shards.specs.Parts.{GivesPart};

    ghost failed = { λ part. part.failed };

    ghost gives = { λ before order came after. GivesPart D.gives before order came after };

    fn read(&mut self, page: u32) -> Result<Bytes<A>, FlashError>
        ensures gives { IfOk result (λ bytes. GivesPart D.gives self.old (Read page) (Page bytes) self.new) }
        ensures fails { IsErrOf result FlashError.Device → GivesPart D.gives self.old (Read page) Failed self.new }
        ensures counted { self.new.failed ≡ self.old.failed + failures_in result }
        ensures count_is_full { self.old.failed ≡ u64.MAX → IsErrOf result FlashError.NoMemory }
        ensures size { (self.new.first ≡ self.old.first) × (self.new.pages ≡ self.old.pages) }
    {
        let place = self.place(page)?;
        match self.inner.read(place) {
            Err(FlashError::Device) => Err(self.fail()),
            read => read,
        }
    }

    fn write(&mut self, page: u32, bytes: &[u8]) -> Result<(), FlashError>
        ensures gives { OnOk result (GivesPart D.gives self.old (Write page bytes.now) Written self.new) }
        ensures fails { IsErrOf result FlashError.Device → GivesPart D.gives self.old (Write page bytes.now) Failed self.new }
        ensures counted { self.new.failed ≡ self.old.failed + failures_in result }
        ensures count_is_full { self.old.failed ≡ u64.MAX → IsErrOf result FlashError.NoMemory }
        ensures size { (self.new.first ≡ self.old.first) × (self.new.pages ≡ self.old.pages) }
    {
        let place = self.place(page)?;
        match self.inner.write(place, bytes) {
            Err(FlashError::Device) => Err(self.fail()),
            written => written,
        }
    }

    fn failures(&self) -> u64 {
        self.failures
    }
}

/// A part shows as the pages that it has.
impl<D: Drop> fmt::Debug for DevicePart<D> {
    fn fmt<W: fmt::Write>(&self, f: &mut fmt::Formatter<W>) -> fmt::Result {
        write!(f, "DevicePart({} pages from {})", self.pages, self.first)
    }
}

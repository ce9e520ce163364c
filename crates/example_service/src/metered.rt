// A device of the service's own: any other one, with a meter.
ghost use Rattle.std.specs.Prelude.{◌≡◌, ◌+◌, ℕ, min, true, Some, None, IfOk, IfSome, OnOk, IsErrOf};
ghost use Rattle.hc_flash.specs.Answers.{failures_in};
ghost use Rattle.hc_flash.specs.Operations.{Failed, Page, Read, Write, Written};
ghost use Rattle.example_service.specs.Metering.{made_in};

use bytes::Bytes;
use hc_flash::{Flash, FlashError};
use hc_paged::Device;
use std::alloc::Global;
use std::marker::Model;

/// A device, and how many pages it was asked to read and to write, those that failed too: a disk wears by what is written.
#[derive(Drop)]
pub struct Metered<D: Drop> {
    inner: D,
    reads: u64,
    writes: u64,
}

impl<D: Drop> Model for Metered<D> {
    ghost use Rattle.example_service.specs.Metering.{Meter};

    ghost Value = { Meter D };

    ghost view = { λ device. record { inner = device.inner; reads = device.reads; writes = device.writes } };
}

impl<D: Drop> Metered<D> {
    /// Over this device. Its meter stands at 0.
    pub fn new(inner: D) -> Metered<D>
        ensures { result ≡ record { inner = inner; reads = 0; writes = 0 } }
    {
        Metered {
            inner,
            reads: 0,
            writes: 0,
        }
    }

    /// How many pages it was asked to read.
    pub fn reads(&self) -> u64
        ensures { result ≡ self.now.reads }
    {
        self.reads
    }

    /// How many pages it was asked to write.
    pub fn writes(&self) -> u64
        ensures { result ≡ self.now.writes }
    {
        self.writes
    }

    // Counts a read, by what came of it.
    fn count_read(&mut self, came: &Result<Bytes, FlashError>)
        ensures metered { self.new.reads ≡ min (self.old.reads + made_in came.now) u64.MAX }
        ensures apart { (self.new.inner ≡ self.old.inner) × (self.new.writes ≡ self.old.writes) }
    {
        self.reads = self.reads.saturating_add(made(came));
    }

    // Counts a write, by what came of it.
    fn count_write(&mut self, came: &Result<(), FlashError>)
        ensures metered { self.new.writes ≡ min (self.old.writes + made_in came.now) u64.MAX }
        ensures apart { (self.new.inner ≡ self.old.inner) × (self.new.reads ≡ self.old.reads) }
    {
        self.writes = self.writes.saturating_add(made(came));
    }
}

// What an operation adds to the meter.
fn made<T>(came: &Result<T, FlashError>) -> u64
    ensures { result ≡ made_in came.now }
{
    match came {
        Err(FlashError::NoMemory) => 0,
        _ => 1,
    }
}

// Over any device. Of the bytes it says what that one says, so that no promise is lost on the way.
impl<D: Device<Global>> Device<Global> for Metered<D> {
    ghost failed = { λ device. D.failed device.inner };

    ghost gives = { λ before order came after. D.gives before.inner order came after.inner };

    fn read(&mut self, page: u32) -> Result<Bytes, FlashError>
        ensures gives { IfOk result (λ bytes. D.gives self.old.inner (Read page) (Page bytes) self.new.inner) }
        ensures fails { IsErrOf result FlashError.Device → D.gives self.old.inner (Read page) Failed self.new.inner }
        ensures counted { D.failed self.new.inner ≡ D.failed self.old.inner + failures_in result }
        ensures metered { self.new.reads ≡ min (self.old.reads + made_in result) u64.MAX }
        ensures apart { self.new.writes ≡ self.old.writes }
    {
        let came = self.inner.read(page);
        self.count_read(&came);
        came
    }

    fn write(&mut self, page: u32, bytes: &[u8]) -> Result<(), FlashError>
        ensures gives { OnOk result (D.gives self.old.inner (Write page bytes.now) Written self.new.inner) }
        ensures fails { IsErrOf result FlashError.Device → D.gives self.old.inner (Write page bytes.now) Failed self.new.inner }
        ensures counted { D.failed self.new.inner ≡ D.failed self.old.inner + failures_in result }
        ensures metered { self.new.writes ≡ min (self.old.writes + made_in result) u64.MAX }
        ensures apart { self.new.reads ≡ self.old.reads }
    {
        let came = self.inner.write(page, bytes);
        self.count_write(&came);
        came
    }

    fn failures(&self) -> u64 {
        self.inner.failures()
    }
}

// Over a device that answers a page as it was last written, or an error, it is such a device itself.
impl<F: Flash<Global>> Flash<Global> for Metered<F> {
    ghost held = { λ device. F.held device.inner };

    ghost failed = { λ device. F.failed device.inner };

    fn read(&mut self, page: u32) -> Result<Bytes, FlashError>
        ensures as_written { IfOk result (λ bytes. IfSome (F.held self.old.inner page) (λ written. bytes ≡ written)) }
        ensures same { (every : ℕ) → F.held self.new.inner every ≡ F.held self.old.inner every }
        ensures counted { F.failed self.new.inner ≡ F.failed self.old.inner + failures_in result }
        ensures count_is_full { F.failed self.old.inner ≡ u64.MAX → IsErrOf result FlashError.NoMemory }
        ensures metered { self.new.reads ≡ min (self.old.reads + made_in result) u64.MAX }
        ensures apart { self.new.writes ≡ self.old.writes }
    {
        let read = self.inner.read(page);
        self.count_read(&read);
        read
    }

    fn write(&mut self, page: u32, bytes: &[u8]) -> Result<(), FlashError>
        ensures written { OnOk result (F.held self.new.inner page ≡ Some bytes.now) }
        ensures lost { IsErrOf result FlashError.Device → F.held self.new.inner page ≡ None }
        ensures kept { IsErrOf result FlashError.NoMemory → F.held self.new.inner page ≡ F.held self.old.inner page }
        ensures others { (other : ℕ) → ¬ (other ≡ page) → F.held self.new.inner other ≡ F.held self.old.inner other }
        ensures counted { F.failed self.new.inner ≡ F.failed self.old.inner + failures_in result }
        ensures count_is_full { F.failed self.old.inner ≡ u64.MAX → IsErrOf result FlashError.NoMemory }
        ensures metered { self.new.writes ≡ min (self.old.writes + made_in result) u64.MAX }
        ensures apart { self.new.reads ≡ self.old.reads }
    {
        let wrote = self.inner.write(page, bytes);
        self.count_write(&wrote);
        wrote
    }

    fn failures(&self) -> u64 {
        self.inner.failures()
    }
}

/// Writes these bytes as a page, and reads it. Answers whether it read what it wrote: of a `Flash` it does, or it fails.
pub fn comes_back<F: Flash<Global>>(
    device: &mut F,
    page: u32,
    bytes: &[u8],
) -> Result<bool, FlashError>
    ensures same { IfOk result (λ same. same ≡ true) }
    ensures held { OnOk result (F.held device.new page ≡ Some bytes.now) }
{
    device.write(page, bytes)?;
    let read = device.read(page)?;
    Ok(read.as_slice() == bytes)
}

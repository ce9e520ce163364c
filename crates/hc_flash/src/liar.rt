// A device that lies once.
ghost use Rattle.std.specs.Prelude.{◌≡◌, ◌+◌, ◌-◌, ◌==◌, if◌then◌else◌, ℕ, Some, None, IfOk, IfSome, OnOk, IsErrOf, set};
ghost use Rattle.hc_flash.specs.Answers.{failures_in};

use crate::flash::{Flash, FlashError};
use bytes::Bytes;
use std::alloc::{AllocError, Allocator, Global};
use std::marker::Model;

/// A device for tests, one of whose answers is a lie: a byte that nobody wrote. So it is no `Flash`, but its calls
/// are called as those of one.
#[derive(Drop)]
pub struct Liar<F: Flash<A>, A: Allocator = Global> {
    alloc: A,
    inner: F,
    lies_in: u64,
    at: usize,
    byte: u8,
}

impl<F: Flash<A>, A: Allocator> Model for Liar<F, A> {
    ghost use Rattle.hc_flash.specs.Devices.{Lying};

    ghost Value = { Lying F };

    ghost view = { λ flash. record { inner = flash.inner; lies_in = flash.lies_in; at = flash.at; byte = flash.byte } };
}

impl<F: Flash<A>, A: Allocator + Clone> Liar<F, A> {
    /// Over this device; its nth read answers `byte` at the offset `at` of the page. None does where `nth` is 0, and
    /// a page that is no longer than `at` is answered as it is.
    pub fn new(alloc: A, inner: F, nth: u64, at: usize, byte: u8) -> Liar<F, A>
        ensures { result ≡ record { inner = inner; lies_in = nth; at = at; byte = byte } }
    {
        Liar {
            alloc,
            inner,
            lies_in: nth,
            at,
            byte,
        }
    }

    /// Reads the page of this number, with one byte changed where this read lies.
    pub fn read(&mut self, page: u32) -> Result<Bytes<A>, FlashError>
        ensures as_written { IfOk result (λ bytes. IfSome (F.held self.old.inner page) (λ written. bytes ≡ (if self.old.lies_in == 1 then set written self.old.at self.old.byte else written))) }
        ensures same { (every : ℕ) → F.held self.new.inner every ≡ F.held self.old.inner every }
        ensures counted { F.failed self.new.inner ≡ F.failed self.old.inner + failures_in result }
        ensures next { self.new.lies_in ≡ self.old.lies_in - 1 }
        ensures lie { (self.new.at ≡ self.old.at) × (self.new.byte ≡ self.old.byte) }
    {
        let lies = self.lies_in == 1;
        self.lies_in = self.lies_in.saturating_sub(1);
        let bytes = self.inner.read(page)?;
        if !lies {
            return Ok(bytes);
        }
        let alloc = self.alloc.clone()?;
        Ok(with_byte(alloc, bytes.as_slice(), self.at, self.byte)?)
    }

    /// Writes these bytes as the page of this number.
    pub fn write(&mut self, page: u32, bytes: &[u8]) -> Result<(), FlashError>
        ensures written { OnOk result (F.held self.new.inner page ≡ Some bytes.now) }
        ensures lost { IsErrOf result FlashError.Device → F.held self.new.inner page ≡ None }
        ensures kept { IsErrOf result FlashError.NoMemory → F.held self.new.inner page ≡ F.held self.old.inner page }
        ensures others { (other : ℕ) → ¬ (other ≡ page) → F.held self.new.inner other ≡ F.held self.old.inner other }
        ensures counted { F.failed self.new.inner ≡ F.failed self.old.inner + failures_in result }
        ensures next { self.new.lies_in ≡ self.old.lies_in }
        ensures lie { (self.new.at ≡ self.old.at) × (self.new.byte ≡ self.old.byte) }
    {
        self.inner.write(page, bytes)
    }

    /// How often the device has failed.
    #[must_use]
    pub fn failures(&self) -> u64
        ensures { result ≡ F.failed self.now.inner }
    {
        self.inner.failures()
    }
}

/// A copy of these bytes with this one at `at`, where they reach so far.
fn with_byte<A: Allocator + Clone>(
    alloc: A,
    bytes: &[u8],
    at: usize,
    byte: u8,
) -> Result<Bytes<A>, AllocError>
    ensures { IfOk result (λ copy. copy ≡ set bytes.now at byte) }
{
    let mut copy = Vec::from_slice(alloc, bytes)?;
    if at < copy.len() {
        copy[at] = byte;
    }
    Ok(Bytes::from_vec(copy)?)
}

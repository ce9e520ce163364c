// Devices whose wrong answers a digest tells.
ghost use Rattle.std.specs.Prelude.{◌≡◌, ◌+◌, ◌<◌, ℕ, List, Option, Some, None, IfOk, IfSome, OnOk, OnErr, IsErrOf, length};
ghost use Rattle.hc_flash.specs.Answers.{failures_in};
ghost use Rattle.hc_paged.specs.Devices.{mark_at};

use crate::digest::Digest;
use crate::table::known;
use bytes::Bytes;
use hc_flash::{Flash, FlashError};
use std::alloc::{AllocError, Allocator, Global};
use std::fmt;
use std::marker::{Model, PhantomData};

/// A device that may answer a page otherwise than it was last written, but never by another page with the same digest. That
/// is a premise: no code can show it of a disk, and who writes an `impl` for one takes it on himself. Where that isn't
/// wanted, `Checked` has no premise, and the law that its logs are honest speaks of the pages of one log alone.
pub trait Telling<G: Digest, A: Allocator>: Drop {
    /// Each page as it was last written, as of a `Flash`.
    ghost held: { Self → ℕ → Option (List ℕ) };

    /// How often the device has failed.
    ghost failed: { Self → ℕ };

    /// Reads the page of this number.
    fn read(&mut self, page: u32) -> Result<Bytes<A>, FlashError>
        ensures tells { IfOk result (λ bytes. IfSome (held self.old page) (λ written. G.of bytes ≡ G.of written → bytes ≡ written)) }
        ensures same { (every : ℕ) → held self.new every ≡ held self.old every }
        ensures counted { failed self.new ≡ failed self.old + failures_in result };

    /// Writes these bytes as the page of this number.
    fn write(&mut self, page: u32, bytes: &[u8]) -> Result<(), FlashError>
        ensures written { OnOk result (held self.new page ≡ Some bytes.now) }
        ensures lost { IsErrOf result FlashError.Device → held self.new page ≡ None }
        ensures kept { IsErrOf result FlashError.NoMemory → held self.new page ≡ held self.old page }
        ensures others { (other : ℕ) → ¬ (other ≡ page) → held self.new other ≡ held self.old other }
        ensures counted { failed self.new ≡ failed self.old + failures_in result };

    /// How often the device has failed.
    #[must_use]
    fn failures(&self) -> u64
        ensures { result ≡ failed self.now };
}

/// What `Checked` is over such a device: a `Flash`, for what asks for one. It keeps 8 bytes a page in memory.
#[derive(Drop)]
pub struct Told<D: Telling<G, A>, G: Digest, A: Allocator = Global> {
    inner: D,
    digest: G,
    digests: Vec<u64, A>,
    own: u64,
}

impl<D: Telling<G, A>, G: Digest, A: Allocator> Model for Told<D, G, A> {
    ghost use Rattle.std.specs.Prelude.{◌≡◌, ◌+◌, ◌<◌, ◌^◌, ℕ, List, Some};
    ghost use Rattle.hc_paged.specs.Devices.{Marked, mark_at};

    ghost Value = { Marked D };

    ghost view = { λ device. record { inner = device.inner; digests = device.digests.items; own = device.own } };

    ghost invariant = { λ device. (D.failed device.inner + device.own < 2 ^ 64) × ((page : ℕ) (written : List ℕ) → D.held device.inner page ≡ Some written → mark_at device.digests.items page ≡ Some (G.of written)) };
}

impl<D: Telling<G, A>, G: Digest, A: Allocator> Told<D, G, A> {
    /// Over the pages below `pages` of this device, of none of which anything is known.
    pub fn new(alloc: A, inner: D, digest: G, pages: u32) -> Result<Told<D, G, A>, AllocError>
        requires unknown { (page : ℕ) → D.held inner page ≡ None }
        ensures unknown { IfOk result (λ device. (page : ℕ) → mark_at device.digests page ≡ None) }
        ensures pages { IfOk result (λ device. length device.digests ≡ pages) }
        ensures inner { IfOk result (λ device. (device.inner ≡ inner) × (device.own ≡ 0)) }
    {
        let _within = inner.failures();
        let digests = vec![in alloc; 0u64; pages as usize]?;
        Ok(Told {
            inner,
            digest,
            digests,
            own: 0,
        })
    }
}

impl<D: Telling<G, A>, G: Digest, A: Allocator> Flash<A> for Told<D, G, A> {
    ghost use Rattle.std.specs.Prelude.{◌+◌};

    ghost held = { λ device. D.held device.inner };

    ghost failed = { λ device. D.failed device.inner + device.own };

    fn read(&mut self, page: u32) -> Result<Bytes<A>, FlashError> {
        if self.failures() == u64::MAX {
            return Err(FlashError::NoMemory);
        }
        let known = known(self.digests.as_slice(), page);
        if known == 0 {
            self.own += 1;
            return Err(FlashError::Device);
        }
        let bytes = self.inner.read(page)?;
        if self.digest.digest(bytes.as_slice()) != known {
            self.own += 1;
            return Err(FlashError::Device);
        }
        Ok(bytes)
    }

    fn write(&mut self, page: u32, bytes: &[u8]) -> Result<(), FlashError> {
        if self.failures() == u64::MAX {
            return Err(FlashError::NoMemory);
        }
        let at = page as usize;
        if at >= self.digests.len() {
            self.own += 1;
            return Err(FlashError::Device);
        }
        match self.inner.write(page, bytes) {
            Ok(()) => {
                self.digests[at] = self.digest.digest(bytes);
                Ok(())
            }
            Err(FlashError::Device) => {
                self.digests[at] = 0;
                Err(FlashError::Device)
            }
            Err(FlashError::NoMemory) => Err(FlashError::NoMemory),
        }
    }

    fn failures(&self) -> u64 {
        self.inner.failures() + self.own
    }
}

/// A device shows as how many pages it keeps digests of.
impl<D: Telling<G, A>, G: Digest, A: Allocator> fmt::Debug for Told<D, G, A> {
    fn fmt<W: fmt::Write>(&self, f: &mut fmt::Formatter<W>) -> fmt::Result {
        write!(f, "Told({} pages)", self.digests.len())
    }
}

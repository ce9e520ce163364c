// A device that keeps a digest of each page.
ghost use Rattle.std.specs.Prelude.{◌≡◌, ◌+◌, ◌<◌, ℕ, Some, None, IfOk, OnOk, OnErr, IsErrOf, length};
ghost use Rattle.hc_flash.specs.Answers.{failures_in};
ghost use Rattle.hc_paged.specs.Devices.{mark_at};

use crate::device::Device;
use crate::digest::Digest;
use crate::table::known;
use bytes::Bytes;
use hc_flash::FlashError;
use std::alloc::{AllocError, Allocator, Global};
use std::fmt;
use std::marker::Model;

/// Any device, each of whose pages is read as it was last written, as far as a digest tells: 8 bytes for each page, in
/// memory. A page that reads otherwise, one that was never written, and one whose write failed are failures that are
/// counted. So what the device below lost, tore, misplaced or kept from an earlier run isn't answered, unless its digest
/// is that of the page that was written.
#[derive(Drop)]
pub struct Checked<D: Device<A>, G: Digest, A: Allocator = Global> {
    inner: D,
    digest: G,
    digests: Vec<u64, A>,
    own: u64,
}

impl<D: Device<A>, G: Digest, A: Allocator> Model for Checked<D, G, A> {
    ghost use Rattle.std.specs.Prelude.{◌+◌, ◌<◌, ◌^◌};
    ghost use Rattle.hc_paged.specs.Devices.{Marked};

    ghost Value = { Marked D };

    ghost view = { λ device. record { inner = device.inner; digests = device.digests.items; own = device.own } };

    ghost invariant = { λ device. D.failed device.inner + device.own < 2 ^ 64 };
}

impl<D: Device<A>, G: Digest, A: Allocator> Checked<D, G, A> {
    /// Over the pages below `pages` of this device. Nothing is known of any of them, so that none is answered before it was
    /// written. The table of digests is made whole, so that no later operation wants memory for it.
    pub fn new(alloc: A, inner: D, digest: G, pages: u32) -> Result<Checked<D, G, A>, AllocError>
        ensures unknown { IfOk result (λ device. (page : ℕ) → mark_at device.digests page ≡ None) }
        ensures pages { IfOk result (λ device. length device.digests ≡ pages) }
        ensures inner { IfOk result (λ device. (device.inner ≡ inner) × (device.own ≡ 0)) }
    {
        let _within = inner.failures();
        let digests = vec![in alloc; 0u64; pages as usize]?;
        Ok(Checked {
            inner,
            digest,
            digests,
            own: 0,
        })
    }

    /// The device below.
    #[must_use]
    pub fn into_inner(self) -> D
        ensures { result ≡ self.inner }
    {
        let Checked {
            inner,
            digest: _,
            digests: _,
            own: _,
        } = self;
        inner
    }

    /// Counts a failure of its own.
    fn fail(&mut self) -> FlashError
        requires { D.failed self.old.inner + self.old.own < u64.MAX }
        ensures device { result ≡ FlashError.Device }
        ensures counted { self.new.own ≡ self.old.own + 1 }
        ensures same { (self.new.inner ≡ self.old.inner) × (self.new.digests ≡ self.old.digests) }
    {
        self.own += 1;
        FlashError::Device
    }
}

impl<D: Device<A>, G: Digest, A: Allocator> Device<A> for Checked<D, G, A> {
    ghost use Rattle.std.specs.Prelude.{◌+◌};
    ghost use Rattle.hc_paged.specs.Operations.{GivesMarked};

    ghost failed = { λ device. D.failed device.inner + device.own };

    ghost gives = { λ before order came after. GivesMarked G.of before.digests order came after.digests };

    fn read(&mut self, page: u32) -> Result<Bytes<A>, FlashError>
        ensures as_written { IfOk result (λ bytes. mark_at self.old.digests page ≡ Some (G.of bytes)) }
        ensures same { self.new.digests ≡ self.old.digests }
        ensures counted { D.failed self.new.inner + self.new.own ≡ D.failed self.old.inner + self.old.own + failures_in result }
        ensures count_is_full { D.failed self.old.inner + self.old.own ≡ u64.MAX → IsErrOf result FlashError.NoMemory }
    {
        if self.failures() == u64::MAX {
            return Err(FlashError::NoMemory);
        }
        let known = known(self.digests.as_slice(), page);
        if known == 0 {
            return Err(self.fail());
        }
        let bytes = self.inner.read(page)?;
        if self.digest.digest(bytes.as_slice()) != known {
            return Err(self.fail());
        }
        Ok(bytes)
    }

    fn write(&mut self, page: u32, bytes: &[u8]) -> Result<(), FlashError>
        ensures written { OnOk result (mark_at self.new.digests page ≡ Some (G.of bytes.now)) }
        ensures lost { IsErrOf result FlashError.Device → mark_at self.new.digests page ≡ None }
        ensures kept { IsErrOf result FlashError.NoMemory → self.new.digests ≡ self.old.digests }
        ensures others { (other : ℕ) → ¬ (other ≡ page) → mark_at self.new.digests other ≡ mark_at self.old.digests other }
        ensures counted { D.failed self.new.inner + self.new.own ≡ D.failed self.old.inner + self.old.own + failures_in result }
        ensures count_is_full { D.failed self.old.inner + self.old.own ≡ u64.MAX → IsErrOf result FlashError.NoMemory }
    {
        if self.failures() == u64::MAX {
            return Err(FlashError::NoMemory);
        }
        let at = page as usize;
        if at >= self.digests.len() {
            return Err(self.fail());
        }
        match self.inner.write(page, bytes) {
            Ok(()) => {
                self.digests[at] = self.digest.digest(bytes);
                Ok(())
            }
            Err(FlashError::Device) => {
                self.digests[at] = 0;
                Err(FlashError::Device)
            }
            Err(FlashError::NoMemory) => Err(FlashError::NoMemory),
        }
    }

    fn failures(&self) -> u64 {
        self.inner.failures() + self.own
    }
}

/// A device shows as how many pages it keeps digests of.
impl<D: Device<A>, G: Digest, A: Allocator> fmt::Debug for Checked<D, G, A> {
    fn fmt<W: fmt::Write>(&self, f: &mut fmt::Formatter<W>) -> fmt::Result {
        write!(f, "Checked({} pages)", self.digests.len())
    }
}

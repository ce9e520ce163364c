// Regions at rest: what of one is kept where the cache is closed, and one of such parts.
ghost use Rattle.std.specs.Prelude.{◌≡◌, ◌≤◌};
ghost use Rattle.std.specs.List.{list_all};
ghost use Rattle.hc_region.specs.Resting.{rest_of, resting, is_rising, is_blank, can_stand, can_rest};

use crate::region::{Appended, Region};
use crate::status::Status;
use bytes::BytesMut;
use hc_types::FlashConfig;
use std::alloc::Allocator;

/// Where a region stands of which no page is out and that no read holds.
#[derive(Clone, Copy, Debug, PartialEq, Eq)]
pub enum AtRest {
    /// It has nothing, and can be opened.
    Clean,
    /// Entries are appended to it.
    Open,
    /// It is full, and its flush is not yet taken.
    Sealed,
    /// All its pages are written.
    OnFlash,
}

impl<A: Allocator + Clone + Copy> Region<A> {
    /// Where it stands at rest. None where a page of it is out, or only reads hold it.
    #[must_use]
    pub fn rest(&self) -> Option<AtRest>
        ensures { result ≡ rest_of self.now.status }
    {
        match self.status {
            Status::Clean => Some(AtRest::Clean),
            Status::Open => Some(AtRest::Open),
            Status::Sealed => Some(AtRest::Sealed),
            Status::OnFlash => Some(AtRest::OnFlash),
            Status::Flushing | Status::Draining => None,
        }
    }

    /// The bytes behind its pages that were written.
    #[must_use]
    pub fn buffer(&self) -> &[u8]
        ensures { result.now ≡ self.now.buffer }
    {
        self.buffer.as_slice()
    }

    /// A region of these parts. They aren't checked.
    #[must_use]
    pub fn resting(
        rest: AtRest,
        written: u64,
        buffer: BytesMut<A>,
        appended: Vec<Appended, A>,
    ) -> Region<A>
        ensures { result ≡ resting rest written buffer.items appended.items }
    {
        let status = match rest {
            AtRest::Clean => Status::Clean,
            AtRest::Open => Status::Open,
            AtRest::Sealed => Status::Sealed,
            AtRest::OnFlash => Status::OnFlash,
        };
        Region {
            status,
            written,
            buffer,
            appended,
            early: false,
            pins: 0,
        }
    }

    /// Whether it has nothing.
    fn is_blank(&self) -> bool
        ensures { result ≡ is_blank self.now }
    {
        self.written == 0 && self.buffer.len() == 0 && self.appended.len() == 0
    }

    /// Whether it can stand where it does.
    fn can_stand(&self, flash: &FlashConfig) -> bool
        ensures { result ≡ can_stand flash.now self.now.status self.now }
    {
        match self.status {
            Status::Clean => self.is_blank(),
            Status::Open | Status::Sealed => self.written < flash.region_pages,
            Status::OnFlash => true,
            Status::Flushing | Status::Draining => false,
        }
    }

    /// Whether it is at rest, and as a region can be.
    #[must_use]
    pub fn rests(&self, flash: &FlashConfig) -> bool
        requires page { flash.now.page ≤ 4096 }
        requires pages { flash.now.region_pages ≤ 4096 }
        ensures { result ≡ can_rest flash.now self.now }
    {
        if !self.can_stand(flash)
            || self.early
            || self.pins != 0
            || self.written > flash.region_pages
        {
            return false;
        }
        let filled = self.written * flash.page + self.buffer.len() as u64;
        filled <= flash.region_pages * flash.page && is_rising(self.appended.as_slice(), filled)
    }
}

/// Whether the offsets rise, and end before there.
fn is_rising(appended: &[Appended], to: u64) -> bool
    ensures { result ≡ is_rising 0 appended.now to }
{
    let mut from: u64 = 0;
    for x in appended {
        let offset = u64::from(x.offset());
        if offset < from {
            return false;
        }
        from = offset + 1;
    }
    from <= to
}

/// Whether each of these regions is at rest, and as a region can be.
#[must_use]
pub fn all_rest<A: Allocator + Clone + Copy>(regions: &[Region<A>], flash: &FlashConfig) -> bool
    requires page { flash.now.page ≤ 4096 }
    requires pages { flash.now.region_pages ≤ 4096 }
    ensures { result ≡ list_all (can_rest flash.now) regions.now }
{
    for region in regions {
        if !region.rests(flash) {
            return false;
        }
    }
    true
}

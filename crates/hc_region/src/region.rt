// A region of the flash: what was appended to it, and the reads that hold it.
ghost use Rattle.std.specs.Prelude.{◌≡◌, ◌<◌, ◌≤◌, ◌+◌, ◌^◌, ◌==◌, length, IfOk, OnOk, OnErr};
ghost use Rattle.hc_engines.specs.large.Region.{clean_region, opened_region, filled_to, is_clean as is_status_clean, is_draining as is_status_draining, is_sealed as is_status_sealed, Sealed as SealedSeen};
ghost use Rattle.hc_engines.specs.large.Steps.{emptied};
ghost use Rattle.hc_region.specs.Growing.{grown, undone};
ghost use Rattle.hc_region.specs.Stages.{mark_seen};
ghost use Rattle.hc_engines.specs.large.Choices.{marked};
ghost use Rattle.hc_region.specs.Pins.{is_last, released};

use crate::status::{Mark, Status};
use bytes::BytesMut;
use hc_types::FlashConfig;
use std::alloc::{AllocError, Allocator, Global};
use std::marker::Model;

/// The kept hash of an entry that was appended, and its first byte in the region.
#[derive(Clone, Copy, Debug)]
pub struct Appended {
    hash: u64,
    offset: u32,
}

impl Model for Appended {
    ghost use Rattle.hc_engines.specs.large.Region.{Appended as AppendedSeen};

    ghost Value = { AppendedSeen };

    ghost view = { λ a. record { hash = a.hash; offset = a.offset } };

    ghost inverse = { λ a. record { hash = a.hash; offset = a.offset } };
}

impl Appended {
    /// An entry of this kept hash, at this byte.
    #[must_use]
    pub fn new(hash: u64, offset: u32) -> Appended
        ensures { result ≡ record { hash = hash; offset = offset } }
    {
        Appended { hash, offset }
    }

    /// Its kept hash.
    #[must_use]
    pub fn hash(&self) -> u64
        ensures { result ≡ self.now.hash }
    {
        self.hash
    }

    /// Its first byte in the region.
    #[must_use]
    pub fn offset(&self) -> u32
        ensures { result ≡ self.now.offset }
    {
        self.offset
    }
}

/// A region: how many of its pages were written, the bytes behind those, what was appended in order of offset, whether a
/// page of it goes out early, and how many reads hold it.
#[derive(Drop)]
pub struct Region<A: Allocator = Global> {
    pub(crate) status: Status,
    pub(crate) written: u64,
    pub(crate) buffer: BytesMut<A>,
    pub(crate) appended: Vec<Appended, A>,
    pub(crate) early: bool,
    pub(crate) pins: u64,
}

impl<A: Allocator> Model for Region<A> {
    ghost use Rattle.hc_engines.specs.large.Region.{Region as RegionSeen};
    ghost use Rattle.hc_region.specs.Seen.{status_of};

    ghost Value = { RegionSeen };

    ghost view = { λ r. record { status = status_of r.status; written = r.written; buffer = r.buffer.items; appended = r.appended.items; early = r.early; pins = r.pins } };
}

impl<A: Allocator + Clone + Copy> Region<A> {
    /// A region that has nothing.
    #[must_use]
    pub fn clean(alloc: A) -> Region<A>
        ensures { result ≡ clean_region }
    {
        Region {
            status: Status::Clean,
            written: 0,
            buffer: BytesMut::new(alloc),
            appended: Vec::new(alloc),
            early: false,
            pins: 0,
        }
    }

    /// An open region with these bytes, under this kept hash.
    pub fn opened_with(
        alloc: A,
        flash: &FlashConfig,
        hash: u64,
        bytes: &[u8],
    ) -> Result<Region<A>, AllocError>
        ensures { IfOk result (λ region. region ≡ grown flash.now hash bytes.now opened_region) }
    {
        let mut region = Region::clean(alloc);
        region.status = Status::Open;
        region.append(flash, hash, bytes)?;
        Ok(region)
    }

    /// How far it is filled, in bytes.
    #[must_use]
    pub fn filled(&self, flash: &FlashConfig) -> u64
        requires { filled_to flash.now self.now < 2 ^ 32 }
        ensures { result ≡ filled_to flash.now self.now }
    {
        self.written * flash.page + self.buffer.len() as u64
    }

    /// These bytes go behind what it has, under this kept hash. Refused only when out of memory, and then it is as before.
    pub fn append(&mut self, flash: &FlashConfig, hash: u64, bytes: &[u8]) -> Result<(), AllocError>
        requires { filled_to flash.now self.old < 2 ^ 32 }
        ensures ok { OnOk result (self.new ≡ grown flash.now hash bytes.now self.old) }
        ensures err { OnErr result (self.new ≡ self.old) }
    {
        let offset = self.filled(flash);
        self.appended.reserve(1)?;
        self.buffer.extend_from_slice(bytes)?;
        let _ = self.appended.push(Appended::new(hash, offset as u32));
        Ok(())
    }

    /// What was appended last, so many bytes, leaves it again.
    pub fn undo(&mut self, len: usize)
        requires { len ≤ length self.old.buffer }
        ensures { self.new ≡ undone len self.old }
    {
        let keep = self.buffer.len() - len;
        self.buffer.truncate(keep);
        self.appended
            .truncate(self.appended.len().saturating_sub(1));
    }

    /// What was appended, in order of offset.
    #[must_use]
    pub fn appended(&self) -> &[Appended]
        ensures { result.now ≡ self.now.appended }
    {
        self.appended.as_slice()
    }

    /// Whether it has nothing, and can be opened.
    #[must_use]
    pub fn is_clean(&self) -> bool
        ensures { result ≡ is_status_clean self.now.status }
    {
        matches!(self.status, Status::Clean)
    }

    /// Whether only reads hold it.
    #[must_use]
    pub fn is_draining(&self) -> bool
        ensures { result ≡ is_status_draining self.now.status }
    {
        matches!(self.status, Status::Draining)
    }

    /// Whether no read holds it.
    #[must_use]
    pub fn is_free(&self) -> bool
        ensures { result ≡ (self.now.pins == 0) }
    {
        self.pins == 0
    }

    /// Whether it drains, and one read holds it.
    #[must_use]
    pub fn is_last_read(&self) -> bool
        ensures { result ≡ is_last self.now }
    {
        self.is_draining() && self.pins == 1
    }

    /// Whether it waits for its flush.
    #[must_use]
    pub fn is_sealed(&self) -> bool
        ensures { result ≡ is_status_sealed self.now.status }
    {
        matches!(self.status, Status::Sealed)
    }

    /// It is full.
    pub fn seal(&mut self)
        ensures { self.new ≡ record self.old { status = SealedSeen } }
    {
        self.status = Status::Sealed;
    }

    /// A page of it is out.
    pub fn mark(&mut self, mark: Mark)
        ensures { self.new ≡ marked (mark_seen mark) self.old }
    {
        match mark {
            Mark::Early => self.early = true,
            Mark::Flush => self.status = Status::Flushing,
        }
    }

    /// Nothing leads to it any more: it is clean, or drains while reads hold it. Whether it is clean.
    pub fn empty(&mut self, alloc: A) -> bool
        ensures value { self.new ≡ emptied self.old }
        ensures clean { result ≡ (self.old.pins == 0) }
    {
        let is_free = self.is_free();
        self.buffer = BytesMut::new(alloc);
        self.appended = Vec::new(alloc);
        self.early = false;
        if is_free {
            self.status = Status::Clean;
            self.written = 0;
        } else {
            self.status = Status::Draining;
        }
        is_free
    }

    /// One more read holds it.
    pub fn pin(&mut self)
        requires { self.old.pins + 1 < 2 ^ 64 }
        ensures { self.new ≡ record self.old { pins = self.old.pins + 1 } }
    {
        self.pins += 1;
    }

    /// A read lets it go. Whether it drained and is clean now.
    pub fn release(&mut self, alloc: A) -> bool
        ensures value { self.new ≡ released self.old }
        ensures last { result ≡ is_last self.old }
    {
        if self.is_last_read() {
            *self = Region::clean(alloc);
            true
        } else {
            self.pins = self.pins.saturating_sub(1);
            false
        }
    }
}

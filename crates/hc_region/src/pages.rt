// The pages of a region: which goes out next, and what is still in the buffer.
ghost use Rattle.std.specs.Prelude.{◌≡◌, ◌<◌, ◌≤◌, ◌^◌, ◌++◌, ◌-◌, min, take, drop, replicate, length, IfOk};
ghost use Rattle.hc_engines.specs.large.Region.{next_page as next_page_seen, page_done as page_done_seen, can_go as can_go_seen};
ghost use Rattle.hc_engines.specs.large.Steps.{buffered as buffered_seen};
ghost use Rattle.hc_region.specs.Stages.{stage_of, settled};

use crate::place::Place;
use crate::region::Region;
use crate::status::{Stage, Status};
use bytes::{Bytes, BytesMut};
use hc_types::FlashConfig;
use std::alloc::{AllocError, Allocator};

impl<A: Allocator + Clone + Copy> Region<A> {
    /// How many of its pages, from the first on, were written.
    #[must_use]
    pub fn written(&self) -> u64
        ensures { result ≡ self.now.written }
    {
        self.written
    }

    /// Whether a page of it is out early.
    #[must_use]
    pub fn is_early(&self) -> bool
        ensures { result ≡ self.now.early }
    {
        self.early
    }

    /// Whether its next page can go before it is sealed: it is full, it isn't the last, and no other is out.
    #[must_use]
    pub fn can_go(&self, flash: &FlashConfig) -> bool
        requires written { self.now.written < 2 ^ 32 }
        ensures { result ≡ can_go_seen flash.now self.now }
    {
        !self.early
            && flash.page <= self.buffer.len() as u64
            && self.written + 1 < flash.region_pages
    }

    /// The first page that isn't written, filled up with zeros.
    pub fn next_page(&self, alloc: A, flash: &FlashConfig) -> Result<Bytes<A>, AllocError>
        requires { flash.now.page ≤ 4096 }
        ensures { IfOk result (λ bytes. bytes ≡ next_page_seen flash.now self.now) }
    {
        page_of(alloc, self.buffer.as_slice(), flash.page as usize)
    }

    /// The page behind the first that isn't written, filled up with zeros.
    pub fn page_after(&self, alloc: A, flash: &FlashConfig) -> Result<Bytes<A>, AllocError>
        requires { flash.now.page ≤ 4096 }
        ensures { IfOk result (λ bytes. bytes ≡ next_page_seen flash.now (page_done_seen flash.now self.now)) }
    {
        let page = flash.page as usize;
        let from = at_most(page, self.buffer.len());
        page_of(alloc, &self.buffer.as_slice()[from..], page)
    }

    /// Its next page was written: its bytes leave the buffer, and a buffer that is empty is given back.
    pub fn page_done(&mut self, alloc: A, flash: &FlashConfig)
        requires page { flash.now.page ≤ 4096 }
        requires written { self.old.written < 2 ^ 32 }
        ensures { self.new ≡ page_done_seen flash.now self.old }
    {
        let len = at_most(flash.page as usize, self.buffer.len());
        self.buffer.advance(len);
        if self.buffer.is_empty() {
            self.buffer = BytesMut::new(alloc);
        }
        self.written += 1;
    }

    /// What follows its page that was written.
    #[must_use]
    pub fn stage(&self, flash: &FlashConfig) -> Stage
        requires { self.now.written < 2 ^ 32 }
        ensures { result ≡ stage_of flash.now self.now }
    {
        if !matches!(self.status, Status::Flushing) {
            return Stage::Early;
        }
        if self.written + 1 < flash.region_pages {
            Stage::More
        } else {
            Stage::Last
        }
    }

    /// Its page was written, and this follows.
    pub fn settle(&mut self, alloc: A, flash: &FlashConfig, stage: Stage)
        requires page { flash.now.page ≤ 4096 }
        requires written { self.old.written < 2 ^ 32 }
        ensures { self.new ≡ settled flash.now stage self.old }
    {
        self.page_done(alloc, flash);
        match stage {
            Stage::More => (),
            Stage::Last => self.status = Status::OnFlash,
            Stage::Early => self.early = false,
        }
    }

    /// The part of an entry that is in the buffer.
    pub fn buffered(
        &self,
        alloc: A,
        flash: &FlashConfig,
        place: Place,
    ) -> Result<Vec<u8, A>, AllocError>
        requires page { flash.now.page ≤ 4096 }
        requires written { self.now.written < 2 ^ 32 }
        ensures { IfOk result (λ bytes. bytes.items ≡ buffered_seen flash.now self.now place) }
    {
        let on_flash = self.written * flash.page;
        let from = less(u64::from(place.offset()), on_flash) as usize;
        let len = less(
            u64::from(place.len()),
            less(on_flash, u64::from(place.offset())),
        ) as usize;
        part_of(alloc, self.buffer.as_slice(), from, len)
    }
}

/// A page of these bytes' front, filled up with zeros.
fn page_of<A: Allocator + Clone + Copy>(
    alloc: A,
    rest: &[u8],
    page: usize,
) -> Result<Bytes<A>, AllocError>
    requires { page ≤ 4096 }
    ensures { IfOk result (λ bytes. bytes ≡ take page rest.now ++ replicate (page - length rest.now) 0) }
{
    let len = at_most(page, rest.len());
    let mut bytes = Vec::with_capacity(alloc, page)?;
    bytes.extend_from_slice(&rest[..len])?;
    bytes.resize(page, 0)?;
    let bytes = Bytes::from_vec(bytes)?;
    Ok(bytes)
}

/// The smaller number.
fn at_most(most: usize, n: usize) -> usize
    ensures { result ≡ min most n }
{
    if n < most { n } else { most }
}

/// The difference, 0 where the second is larger.
fn less(a: u64, b: u64) -> u64
    ensures { result ≡ a - b }
{
    a.saturating_sub(b)
}

/// So many of the bytes from there on, or as many as there are.
fn part_of<A: Allocator + Clone>(
    alloc: A,
    bytes: &[u8],
    from: usize,
    len: usize,
) -> Result<Vec<u8, A>, AllocError>
    ensures { IfOk result (λ part. part.items ≡ take len (drop from bytes.now)) }
{
    if from >= bytes.len() {
        return Ok(Vec::new(alloc));
    }
    let rest = &bytes[from..];
    let len = at_most(len, rest.len());
    Vec::from_slice(alloc, &rest[..len])
}

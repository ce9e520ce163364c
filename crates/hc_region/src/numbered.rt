// The regions, by number.
ghost use Rattle.std.specs.Prelude.{◌≡◌, ◌<◌, ◌≤◌, ◌+◌, ◌^◌, ◌==◌, length, set, nat_le, if◌then◌else◌, Some, None, IfOk, OnOk, OnErr};
ghost use Rattle.hc_engines.specs.large.Region.{region_at, region_len, filled_to, can_go, next_page, page_done, Sealed};
ghost use Rattle.hc_engines.specs.large.Steps.{emptied, cleared_by, buffered};
ghost use Rattle.hc_region.specs.Growing.{grown, undone};
ghost use Rattle.hc_region.specs.Stages.{mark_seen, stage_of, settled};
ghost use Rattle.hc_engines.specs.large.Choices.{marked};
ghost use Rattle.hc_region.specs.Pins.{is_last, released, released_by};

use crate::place::Place;
use crate::region::{Appended, Region};
use crate::status::{Mark, Stage};
use bytes::Bytes;
use hc_types::FlashConfig;
use std::alloc::{AllocError, Allocator};

/// How far a region is filled, in bytes.
#[must_use]
pub fn filled_at<A: Allocator + Clone + Copy>(
    regions: &[Region<A>],
    r: u32,
    flash: &FlashConfig,
) -> u64
    requires there { r < length regions.now }
    requires small { filled_to flash.now (region_at r regions.now) < 2 ^ 32 }
    ensures { result ≡ filled_to flash.now (region_at r regions.now) }
{
    regions[r as usize].filled(flash)
}

/// The region, where so many bytes fit it.
#[must_use]
pub fn if_fits<A: Allocator + Clone + Copy>(
    regions: &[Region<A>],
    r: u32,
    flash: &FlashConfig,
    len: u64,
) -> Option<u32>
    requires there { r < length regions.now }
    requires small { filled_to flash.now (region_at r regions.now) < 2 ^ 32 }
    requires region { region_len flash.now < 2 ^ 32 }
    requires len { len < 2 ^ 32 }
    ensures { result ≡ (if nat_le (filled_to flash.now (region_at r regions.now) + len) (region_len flash.now) then Some r else None) }
{
    let filled = filled_at(regions, r, flash);
    if filled + len <= flash.region_pages * flash.page {
        Some(r)
    } else {
        None
    }
}

/// These bytes go behind what a region has, under this kept hash. Refused only when out of memory.
pub fn append_at<A: Allocator + Clone + Copy>(
    regions: &mut Vec<Region<A>, A>,
    r: u32,
    flash: &FlashConfig,
    hash: u64,
    bytes: &[u8],
) -> Result<(), AllocError>
    requires there { r < length regions.old.items }
    requires small { filled_to flash.now (region_at r regions.old.items) < 2 ^ 32 }
    ensures ok { OnOk result (regions.new.items ≡ set regions.old.items r (grown flash.now hash bytes.now (region_at r regions.old.items))) }
    ensures err { OnErr result (regions.new.items ≡ regions.old.items) }
{
    let region = &mut regions[r as usize];
    region.append(flash, hash, bytes)
}

/// What was appended last, so many bytes, leaves the region again.
pub fn undo_at<A: Allocator + Clone + Copy>(regions: &mut Vec<Region<A>, A>, r: u32, len: usize)
    requires there { r < length regions.old.items }
    requires long { len ≤ length (region_at r regions.old.items).buffer }
    ensures { regions.new.items ≡ set regions.old.items r (undone len (region_at r regions.old.items)) }
{
    let region = &mut regions[r as usize];
    region.undo(len);
}

/// What was appended to a region, in order of offset.
#[must_use]
pub fn appended_at<A: Allocator + Clone + Copy>(regions: &[Region<A>], r: u32) -> &[Appended]
    requires { r < length regions.now }
    ensures { result.now ≡ (region_at r regions.now).appended }
{
    regions[r as usize].appended()
}

/// A region is full.
pub fn seal_at<A: Allocator + Clone + Copy>(regions: &mut Vec<Region<A>, A>, r: u32)
    requires there { r < length regions.old.items }
    ensures { regions.new.items ≡ set regions.old.items r (record (region_at r regions.old.items) { status = Sealed }) }
{
    let region = &mut regions[r as usize];
    region.seal();
}

/// This is the region with that number from here on.
pub fn store_at<A: Allocator>(regions: &mut Vec<Region<A>, A>, r: u32, region: Region<A>)
    requires there { r < length regions.old.items }
    ensures { regions.new.items ≡ set regions.old.items r region }
{
    regions[r as usize] = region;
}

/// Nothing leads to a region any more. Its number where it is clean, and doesn't drain.
pub fn empty_at<A: Allocator + Clone + Copy>(
    alloc: A,
    regions: &mut Vec<Region<A>, A>,
    r: u32,
) -> Option<u32>
    requires { r < length regions.old.items }
    ensures regions { regions.new.items ≡ set regions.old.items r (emptied (region_at r regions.old.items)) }
    ensures cleared { result ≡ cleared_by (region_at r regions.old.items).pins r }
{
    let region = &mut regions[r as usize];
    if region.empty(alloc) { Some(r) } else { None }
}

// ---- pages

/// How many pages of a region, from the first on, were written.
#[must_use]
pub fn written_at<A: Allocator + Clone + Copy>(regions: &[Region<A>], r: u32) -> u64
    requires { r < length regions.now }
    ensures { result ≡ (region_at r regions.now).written }
{
    regions[r as usize].written()
}

/// Whether a region's next page can go before it is sealed.
#[must_use]
pub fn can_go_at<A: Allocator + Clone + Copy>(
    regions: &[Region<A>],
    r: u32,
    flash: &FlashConfig,
) -> bool
    requires there { r < length regions.now }
    requires written { (region_at r regions.now).written < 2 ^ 32 }
    ensures { result ≡ can_go flash.now (region_at r regions.now) }
{
    regions[r as usize].can_go(flash)
}

/// A region's first page that isn't written, filled up with zeros.
pub fn next_page_at<A: Allocator + Clone + Copy>(
    alloc: A,
    regions: &[Region<A>],
    r: u32,
    flash: &FlashConfig,
) -> Result<Bytes<A>, AllocError>
    requires there { r < length regions.now }
    requires page { flash.now.page ≤ 4096 }
    ensures { IfOk result (λ bytes. bytes ≡ next_page flash.now (region_at r regions.now)) }
{
    regions[r as usize].next_page(alloc, flash)
}

/// The page of a region behind the first that isn't written, filled up with zeros.
pub fn page_after_at<A: Allocator + Clone + Copy>(
    alloc: A,
    regions: &[Region<A>],
    r: u32,
    flash: &FlashConfig,
) -> Result<Bytes<A>, AllocError>
    requires there { r < length regions.now }
    requires page { flash.now.page ≤ 4096 }
    ensures { IfOk result (λ bytes. bytes ≡ next_page flash.now (page_done flash.now (region_at r regions.now))) }
{
    regions[r as usize].page_after(alloc, flash)
}

/// A page of a region is out.
pub fn mark_at<A: Allocator + Clone + Copy>(regions: &mut Vec<Region<A>, A>, r: u32, mark: Mark)
    requires { r < length regions.old.items }
    ensures { regions.new.items ≡ set regions.old.items r (marked (mark_seen mark) (region_at r regions.old.items)) }
{
    let region = &mut regions[r as usize];
    region.mark(mark);
}

/// What follows the page of a region that was written.
#[must_use]
pub fn stage_at<A: Allocator + Clone + Copy>(
    regions: &[Region<A>],
    r: u32,
    flash: &FlashConfig,
) -> Stage
    requires there { r < length regions.now }
    requires written { (region_at r regions.now).written < 2 ^ 32 }
    ensures { result ≡ stage_of flash.now (region_at r regions.now) }
{
    regions[r as usize].stage(flash)
}

/// The page of a region was written, and this follows.
pub fn settle_at<A: Allocator + Clone + Copy>(
    alloc: A,
    regions: &mut Vec<Region<A>, A>,
    r: u32,
    flash: &FlashConfig,
    stage: Stage,
)
    requires there { r < length regions.old.items }
    requires page { flash.now.page ≤ 4096 }
    requires written { (region_at r regions.old.items).written < 2 ^ 32 }
    ensures { regions.new.items ≡ set regions.old.items r (settled flash.now stage (region_at r regions.old.items)) }
{
    let region = &mut regions[r as usize];
    region.settle(alloc, flash, stage);
}

// ---- reads

/// The part of an entry that is in its region's buffer.
pub fn buffered_at<A: Allocator + Clone + Copy>(
    alloc: A,
    regions: &[Region<A>],
    flash: &FlashConfig,
    place: Place,
) -> Result<Vec<u8, A>, AllocError>
    requires there { place.region < length regions.now }
    requires page { flash.now.page ≤ 4096 }
    requires written { (region_at place.region regions.now).written < 2 ^ 32 }
    ensures { IfOk result (λ bytes. bytes.items ≡ buffered flash.now (region_at place.region regions.now) place) }
{
    regions[place.region() as usize].buffered(alloc, flash, place)
}

/// Whether no read holds a region.
#[must_use]
pub(crate) fn is_free_at<A: Allocator + Clone + Copy>(regions: &[Region<A>], r: u32) -> bool
    requires { r < length regions.now }
    ensures { result ≡ ((region_at r regions.now).pins == 0) }
{
    regions[r as usize].is_free()
}

/// Whether a region drains, and one read holds it.
#[must_use]
pub(crate) fn is_last_read_at<A: Allocator + Clone + Copy>(regions: &[Region<A>], r: u32) -> bool
    requires { r < length regions.now }
    ensures { result ≡ is_last (region_at r regions.now) }
{
    regions[r as usize].is_last_read()
}

/// One more read holds a region.
pub fn pin_at<A: Allocator + Clone + Copy>(regions: &mut Vec<Region<A>, A>, r: u32)
    requires there { r < length regions.old.items }
    requires small { (region_at r regions.old.items).pins + 1 < 2 ^ 64 }
    ensures { regions.new.items ≡ set regions.old.items r (record (region_at r regions.old.items) { pins = (region_at r regions.old.items).pins + 1 }) }
{
    let region = &mut regions[r as usize];
    region.pin();
}

/// A read lets a region go. Its number where it drained and is clean now.
pub fn release_at<A: Allocator + Clone + Copy>(
    alloc: A,
    regions: &mut Vec<Region<A>, A>,
    r: u32,
) -> Option<u32>
    requires { r < length regions.old.items }
    ensures regions { regions.new.items ≡ set regions.old.items r (released (region_at r regions.old.items)) }
    ensures cleared { result ≡ released_by (region_at r regions.old.items) r }
{
    let region = &mut regions[r as usize];
    if region.release(alloc) { Some(r) } else { None }
}

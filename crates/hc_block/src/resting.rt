// An engine at rest: what of it is kept where the cache is closed, and an engine of such parts.
ghost use Rattle.std.specs.Prelude.{◌≡◌, ℕ, ◌+◌, ◌^◌, ◌<◌, ◌≤◌, ◌==◌, ◌&&◌, nat_lt, nat_le, true, false, None, Some, length, get_or, set, replicate, IfOk, IfErr};
ghost use Rattle.hc_types.specs.Limits.{flash_wrong};
ghost use Rattle.hc_engines.specs.large.Region.{Appended as AppendedSeen, region_at, filled_to};
ghost use Rattle.hc_engines.specs.large.Sound.{is_listed, IsRising};
ghost use Rattle.hc_region.specs.CleanNumbers.{clean_from};
ghost use Rattle.hc_block.specs.Resting.{block_at, stands_at, is_of as is_of_seen, is_open as is_open_seen, can_come, once_from, all_once as all_once_seen, leads_well as leads_well_seen, misfit as misfit_seen, IsWhy, LeadsWell};

use crate::block_cache::BlockCache;
use crate::index::Index;
use crate::jobs::Jobs;
use crate::reason::Reason;
use hc_region::{
    Appended, AtRest, CleanRegions, Place, Region, all_rest, appended_at, clean_of, filled_at,
};
use hc_types::FlashConfig;
use std::alloc::{AllocError, Allocator, Global};
use std::collections::VecDeque;
use std::fmt;

/// All that is kept of an engine at rest.
#[derive(Drop)]
pub struct Parts<A: Allocator = Global> {
    /// The regions, in order of their numbers.
    pub regions: Vec<Region<A>, A>,
    /// The number of the open region.
    pub current: Option<u32>,
    /// The regions that wait for their flush, the one sealed first in front.
    pub sealed: VecDeque<u32, A>,
    /// The regions on flash, in the order of their flushes.
    pub flushed: VecDeque<u32, A>,
    /// Where the kept hashes lead.
    pub index: Index<A>,
}

impl<A: Allocator> fmt::Debug for Parts<A> {
    fn fmt<W: fmt::Write>(&self, f: &mut fmt::Formatter<W>) -> fmt::Result {
        write!(
            f,
            "Parts {{ regions: {}, open: {:?}, sealed: {}, flushed: {} }}",
            self.regions.len(),
            self.current,
            self.sealed.len(),
            self.flushed.len(),
        )
    }
}

/// Parts that were refused, as they were handed in, and why.
#[derive(Drop)]
pub struct Refused<A: Allocator = Global> {
    pub parts: Parts<A>,
    pub why: Reason,
}

impl<A: Allocator> fmt::Debug for Refused<A> {
    fn fmt<W: fmt::Write>(&self, f: &mut fmt::Formatter<W>) -> fmt::Result {
        write!(
            f,
            "Refused {{ parts: {:?}, why: {:?} }}",
            self.parts, self.why
        )
    }
}

// ---- where a hash leads

/// The first of these entries, in order of offset, that isn't in front of this offset.
fn first_from(appended: &[Appended], offset: u32) -> usize
    requires { (to : ℕ) × IsRising 0 appended.now to }
    ensures before { (k : ℕ) (d : AppendedSeen) → k < result → (get_or appended.now k d).offset < offset }
    ensures behind { (k : ℕ) (d : AppendedSeen) → result ≤ k → k < length appended.now → offset ≤ (get_or appended.now k d).offset }
    ensures within { result ≤ length appended.now }
{
    appended.partition_point(|x| x.offset() < offset)
}

fn is_entry(x: Appended, hash: u64, offset: u32) -> bool
    ensures { result ≡ ((x.hash == hash) && (x.offset == offset)) }
{
    x.hash() == hash && x.offset() == offset
}

/// Whether an entry of this hash was appended at this offset. The entries are in order of offset.
fn is_listed_in(appended: &[Appended], hash: u64, offset: u32) -> bool
    requires { (to : ℕ) × IsRising 0 appended.now to }
    ensures { result ≡ is_listed hash offset appended.now }
{
    let at = first_from(appended, offset);
    if at >= appended.len() {
        return false;
    }
    is_entry(appended[at], hash, offset)
}

/// Whether an entry of this hash was appended at this offset of the region.
fn is_listed_at<A: Allocator + Clone + Copy>(
    regions: &[Region<A>],
    r: u32,
    hash: u64,
    offset: u32,
) -> bool
    requires { (to : ℕ) × IsRising 0 (region_at r regions.now).appended to }
    ensures { result ≡ is_listed hash offset (region_at r regions.now).appended }
{
    if r as usize >= regions.len() {
        return false;
    }
    is_listed_in(appended_at(regions, r), hash, offset)
}

/// Whether the place is longer than a small entry.
fn is_long(flash: &FlashConfig, place: Place) -> bool
    requires { flash.now.small_max ≤ 4096 }
    ensures { result ≡ nat_lt (14 + flash.now.small_max) place.length }
{
    14 + flash.small_max < u64::from(place.len())
}

/// Whether the place is within what its region is filled to.
fn is_within<A: Allocator + Clone + Copy>(
    regions: &[Region<A>],
    flash: &FlashConfig,
    place: Place,
) -> bool
    requires there { place.region < length regions.now }
    requires filled { filled_to flash.now (region_at place.region regions.now) < 2 ^ 32 }
    ensures { result ≡ nat_le (place.offset + place.length) (filled_to flash.now (region_at place.region regions.now)) }
{
    u64::from(place.offset()) + u64::from(place.len()) <= filled_at(regions, place.region(), flash)
}

/// Whether the hash leads to a large entry, as a hash can.
pub(crate) fn leads_well<A: Allocator + Clone + Copy>(
    regions: &[Region<A>],
    flash: &FlashConfig,
    hash: u64,
    place: Place,
) -> bool
    requires small { flash.now.small_max ≤ 4096 }
    requires filled { (r : ℕ) → filled_to flash.now (region_at r regions.now) < 2 ^ 32 }
    requires rising { (r : ℕ) → IsRising 0 (region_at r regions.now).appended (filled_to flash.now (region_at r regions.now)) }
    ensures { result ≡ leads_well_seen flash.now regions.now (record { hash = hash; place = place }) }
{
    if !is_listed_at(regions, place.region(), hash, place.offset()) {
        return false;
    }
    if !is_long(flash, place) {
        return false;
    }
    is_within(regions, flash, place)
}

// ---- lists of regions

/// Whether the region with this number stands so.
fn stands<A: Allocator + Clone + Copy>(regions: &[Region<A>], r: u32, rest: AtRest) -> bool
    requires { r < length regions.now }
    ensures { result ≡ stands_at rest (region_at r regions.now).status }
{
    match (rest, regions[r as usize].rest()) {
        (AtRest::Clean, Some(AtRest::Clean)) => true,
        (AtRest::Open, Some(AtRest::Open)) => true,
        (AtRest::Sealed, Some(AtRest::Sealed)) => true,
        (AtRest::OnFlash, Some(AtRest::OnFlash)) => true,
        _ => false,
    }
}

/// Whether the number is of a region that stands so.
fn is_of<A: Allocator + Clone + Copy>(regions: &[Region<A>], r: u32, rest: AtRest) -> bool
    ensures { result ≡ is_of_seen rest regions.now r }
{
    (r as usize) < regions.len() && stands(regions, r, rest)
}

/// Whether the open region, where there is one, is open.
fn is_open<A: Allocator + Clone + Copy>(regions: &[Region<A>], current: Option<u32>) -> bool
    ensures { result ≡ is_open_seen regions.now current }
{
    match current {
        Some(r) => is_of(regions, r, AtRest::Open),
        None => true,
    }
}

fn is_marked(seen: &[bool], r: u32) -> bool
    requires { r < length seen.now }
    ensures { result ≡ get_or seen.now r false }
{
    seen[r as usize]
}

fn mark<A: Allocator>(seen: &mut Vec<bool, A>, r: u32)
    requires { r < length seen.old.items }
    ensures { seen.new.items ≡ set seen.old.items r true }
{
    seen[r as usize] = true;
}

/// Marks the number, where it is of a region that stands so and isn't marked. Whether it is.
fn come<A: Allocator + Clone + Copy>(
    regions: &[Region<A>],
    seen: &mut Vec<bool, A>,
    r: u32,
    rest: AtRest,
) -> bool
    requires { length seen.old.items ≡ length regions.now }
    ensures value { result ≡ can_come rest regions.now seen.old.items r }
    ensures marked { result ≡ true → seen.new.items ≡ set seen.old.items r true }
    ensures long { length seen.new.items ≡ length seen.old.items }
{
    if r as usize >= regions.len() {
        return false;
    }
    if !stands(regions, r, rest) {
        return false;
    }
    if is_marked(seen, r) {
        return false;
    }
    mark(seen, r);
    true
}

/// So many marks, of which none is set.
fn unmarked<A: Allocator + Clone>(alloc: A, n: usize) -> Result<Vec<bool, A>, AllocError>
    ensures { IfOk result (λ seen. seen.items ≡ replicate n false) }
{
    vec![in alloc; false; n]
}

/// Marks these numbers, as long as each can come. Whether all of them could.
fn all_come<A: Allocator + Clone + Copy>(
    regions: &[Region<A>],
    seen: &mut Vec<bool, A>,
    numbers: &VecDeque<u32, A>,
    rest: AtRest,
) -> bool
    requires { length seen.old.items ≡ length regions.now }
    ensures { result ≡ once_from rest regions.now seen.old.items numbers.now.items }
{
    for r in numbers {
        if !come(regions, seen, *r, rest) {
            return false;
        }
    }
    true
}

/// Whether each of these is the number of a region that stands so, and none is there twice. It takes a mark for each region
/// meanwhile.
fn all_once<A: Allocator + Clone + Copy>(
    alloc: A,
    regions: &[Region<A>],
    numbers: &VecDeque<u32, A>,
    rest: AtRest,
) -> Result<bool, AllocError>
    ensures { IfOk result (λ once. once ≡ all_once_seen rest regions.now numbers.now.items) }
{
    let mut seen = unmarked(alloc, regions.len())?;
    Ok(all_come(regions, &mut seen, numbers, rest))
}

// ---- the parts

/// The first test that the parts don't pass. Refused only when out of memory.
fn misfit<A: Allocator + Clone + Copy>(
    alloc: A,
    flash: &FlashConfig,
    parts: &Parts<A>,
) -> Result<Option<Reason>, AllocError>
    requires { flash_wrong flash.now ≡ None }
    ensures { IfOk result (λ why. why ≡ misfit_seen flash.now (block_at parts.now.regions.items parts.now.current parts.now.sealed.items parts.now.flushed.items parts.now.index)) }
{
    let regions = parts.regions.as_slice();
    if regions.len() as u64 != flash.regions {
        return Ok(Some(Reason::Count));
    }
    if !all_rest(regions, flash) {
        return Ok(Some(Reason::Region));
    }
    if !is_open(regions, parts.current) {
        return Ok(Some(Reason::Current));
    }
    if !all_once(alloc, regions, &parts.sealed, AtRest::Sealed)? {
        return Ok(Some(Reason::Sealed));
    }
    if !all_once(alloc, regions, &parts.flushed, AtRest::OnFlash)? {
        return Ok(Some(Reason::Flushed));
    }
    if !parts.index.all_lead(regions, flash) {
        return Ok(Some(Reason::Index));
    }
    Ok(None)
}

/// The numbers of the clean ones of these regions.
fn clean_numbers<A: Allocator + Clone + Copy>(
    alloc: A,
    regions: &[Region<A>],
) -> Result<CleanRegions<A>, Reason>
    requires { length regions.now ≤ 65536 }
    ensures clean { IfOk result (λ clean. clean ≡ clean_from 0 regions.now) }
    ensures err { IfErr result (λ why. why ≡ Reason.NoMemory) }
{
    match clean_of(alloc, regions) {
        Ok(clean) => Ok(clean),
        Err(_) => Err(Reason::NoMemory),
    }
}

/// The numbers of the clean regions, where the parts pass each test; else why they are refused.
fn check<A: Allocator + Clone + Copy>(
    alloc: A,
    flash: &FlashConfig,
    parts: &Parts<A>,
) -> Result<CleanRegions<A>, Reason>
    requires { flash_wrong flash.now ≡ None }
    ensures clean { IfOk result (λ clean. clean ≡ clean_from 0 parts.now.regions.items) }
    ensures fit { IfOk result (λ clean. misfit_seen flash.now (block_at parts.now.regions.items parts.now.current parts.now.sealed.items parts.now.flushed.items parts.now.index) ≡ None) }
    ensures why { IfErr result (λ why. IsWhy flash.now (block_at parts.now.regions.items parts.now.current parts.now.sealed.items parts.now.flushed.items parts.now.index) why) }
{
    match misfit(alloc, flash, parts) {
        Ok(None) => clean_numbers(alloc, parts.regions.as_slice()),
        Ok(Some(why)) => Err(why),
        Err(_) => Err(Reason::NoMemory),
    }
}

/// The engine that these parts are of, with the numbers of its clean regions.
fn assembled<A: Allocator + Clone + Copy>(
    alloc: A,
    flash: FlashConfig,
    parts: Parts<A>,
    clean: CleanRegions<A>,
) -> BlockCache<A>
    requires right { flash_wrong flash ≡ None }
    requires fit { misfit_seen flash (block_at parts.regions.items parts.current parts.sealed.items parts.flushed.items parts.index) ≡ None }
    requires clean { clean ≡ clean_from 0 parts.regions.items }
    ensures { result ≡ record { flash = flash; block = block_at parts.regions.items parts.current parts.sealed.items parts.flushed.items parts.index } }
{
    let Parts {
        regions,
        current,
        sealed,
        flushed,
        index,
    } = parts;
    BlockCache {
        alloc,
        flash,
        regions,
        clean,
        current,
        sealed,
        flushed,
        index,
        jobs: Jobs::new(alloc),
    }
}

impl<A: Allocator + Clone + Copy> BlockCache<A> {
    /// Whether no operation is under way: then the engine is at rest.
    #[must_use]
    pub fn is_idle(&self) -> bool
        ensures { result ≡ (length self.now.block.jobs == 0) }
    {
        self.jobs.len() == 0
    }

    /// The parts of an engine at rest. Nothing is copied, and no memory is taken. An engine that leads to large entries alone,
    /// as each does that was given no small ones, has parts that pass every test: by the same configuration `from_parts`
    /// refuses them for want of memory alone, and gives the same engine.
    #[must_use]
    pub fn into_parts(self) -> Parts<A>
        requires { length self.block.jobs ≡ 0 }
        ensures parts { block_at result.regions.items result.current result.sealed.items result.flushed.items result.index ≡ self.block }
        ensures fit { LeadsWell self.flash self.block → misfit_seen self.flash self.block ≡ None }
    {
        self.index.in_order();
        let BlockCache {
            alloc: _,
            flash: _,
            regions,
            clean: _,
            current,
            sealed,
            flushed,
            index,
            jobs: _,
        } = self;
        Parts {
            regions,
            current,
            sealed,
            flushed,
            index,
        }
    }

    /// The engine at rest that these parts are of, by a configuration whose numbers are within their limits. Each part is
    /// tested: where one can't be an engine's, or out of memory, all are given back as they were, with the reason. It takes
    /// memory for the numbers of the clean regions, and a mark for each region meanwhile.
    pub fn from_parts(
        alloc: A,
        flash: FlashConfig,
        parts: Parts<A>,
    ) -> Result<BlockCache<A>, Refused<A>>
        requires { flash_wrong flash ≡ None }
        ensures block { IfOk result (λ b. b ≡ record { flash = flash; block = block_at parts.regions.items parts.current parts.sealed.items parts.flushed.items parts.index }) }
        ensures fit { IfOk result (λ b. misfit_seen flash b.block ≡ None) }
        ensures large { IfOk result (λ b. LeadsWell flash b.block) }
        ensures given_back { IfErr result (λ refused. refused.parts ≡ parts) }
        ensures why { IfErr result (λ refused. IsWhy flash (block_at parts.regions.items parts.current parts.sealed.items parts.flushed.items parts.index) refused.why) }
    {
        match check(alloc, &flash, &parts) {
            Ok(clean) => Ok(assembled(alloc, flash, parts, clean)),
            Err(why) => Err(Refused { parts, why }),
        }
    }
}

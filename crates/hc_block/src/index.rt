// The index: where each kept hash leads. It is cut into 256 segments by the highest bits of the hash.
ghost use Rattle.std.specs.Prelude.{◌≡◌, ℕ, ◌<◌, ◌≤◌, ◌^◌, [], length, get_or, set, replicate, OnOk, OnErr, IfOk};
ghost use Rattle.std.specs.List.{list_all};
ghost use Rattle.hc_engines.specs.large.Index.{place_at, leading, without, is_place};
ghost use Rattle.hc_engines.specs.large.Region.{region_at, filled_to};
ghost use Rattle.hc_engines.specs.large.Sound.{IsRising};
ghost use Rattle.hc_block.specs.Indexes.{segment_of, joined, Rises};
ghost use Rattle.hc_block.specs.Resting.{leads_well};

use crate::leads::Leads;
use crate::segment::Segment;
use hc_region::{Place, Region};
use hc_types::FlashConfig;
use std::alloc::{AllocError, Allocator, Global};
use std::marker::Model;

/// How many segments the index has.
const SEGMENTS: u64 = 256;

/// Where kept hashes lead, in order of the hash: 256 ordered maps, one after the other. Contracts see the list of its pairs.
#[derive(Drop)]
pub struct Index<A: Allocator = Global> {
    /// A hash without so many of its lowest bits is the number of its segment.
    shift: u64,
    segments: Vec<Segment<A>, A>,
}

impl<A: Allocator> Model for Index<A> {
    ghost use Rattle.std.specs.Prelude.{List};
    ghost use Rattle.hc_engines.specs.large.Index.{Indexed};
    ghost use Rattle.hc_block.specs.Indexes.{joined, IsCut};

    ghost Value = { List Indexed };

    ghost view = { λ index. joined index.segments.items };

    ghost invariant = { λ index. IsCut index.shift index.segments.items };
}

/// The segment of a hash.
fn segment_of(shift: u64, hash: u64) -> usize
    requires { shift ≤ 56 }
    ensures value { result ≡ segment_of shift hash }
    ensures within { result < 256 }
{
    let top = hash >> shift;
    if top < SEGMENTS { top as usize } else { 255 }
}

/// Where the hash leads by the segment with this number.
fn get_at<A: Allocator>(segments: &[Segment<A>], at: usize, hash: u64) -> Option<Place>
    requires { at < length segments.now }
    ensures { result ≡ place_at hash (get_or segments.now at []) }
{
    segments[at].get(hash)
}

/// The hash leads nowhere by the segment with this number.
fn remove_at<A: Allocator>(segments: &mut Vec<Segment<A>, A>, at: usize, hash: u64)
    requires { at < length segments.old.items }
    ensures { segments.new.items ≡ set segments.old.items at (without hash (get_or segments.old.items at [])) }
{
    let segment = &mut segments[at];
    segment.remove(hash);
}

/// The hash leads to this place by the segment with this number. Refused only when out of memory.
fn insert_at<A: Allocator + Clone>(
    segments: &mut Vec<Segment<A>, A>,
    at: usize,
    hash: u64,
    place: Place,
) -> Result<(), AllocError>
    requires { at < length segments.old.items }
    ensures ok { OnOk result (segments.new.items ≡ set segments.old.items at (leading hash place (get_or segments.old.items at []))) }
    ensures err { OnErr result (segments.new.items ≡ segments.old.items) }
{
    let segment = &mut segments[at];
    segment.insert(hash, place)
}

/// So many segments that lead nowhere.
fn empty_segments<A: Allocator + Clone + Copy>(
    alloc: A,
    n: u64,
) -> Result<Vec<Segment<A>, A>, AllocError>
    requires { n ≤ 256 }
    ensures { IfOk result (λ segments. segments.items ≡ replicate n []) }
{
    let mut segments = Vec::with_capacity(alloc, n as usize)?;
    for _ in 0..n {
        segments.push(Segment::new(alloc))?;
    }
    Ok(segments)
}

/// The hashes of each of these segments rise: a law to call where a proof asks for it. It does nothing.
fn in_order<A: Allocator>(segments: &[Segment<A>])
    ensures { (i : ℕ) → i < length segments.now → Rises (get_or segments.now i []) }
{
    for segment in segments {
        segment.in_order();
    }
}

/// Whether each hash of these segments leads to a large entry of these regions.
fn all_lead<A: Allocator + Clone + Copy>(
    segments: &[Segment<A>],
    regions: &[Region<A>],
    flash: &FlashConfig,
) -> bool
    requires small { flash.now.small_max ≤ 4096 }
    requires filled { (r : ℕ) → filled_to flash.now (region_at r regions.now) < 2 ^ 32 }
    requires rising { (r : ℕ) → IsRising 0 (region_at r regions.now).appended (filled_to flash.now (region_at r regions.now)) }
    ensures { result ≡ list_all (leads_well flash.now regions.now) (joined segments.now) }
{
    for segment in segments {
        if !segment.all_lead(regions, flash) {
            return false;
        }
    }
    true
}

impl<A: Allocator> Index<A> {
    /// Where the hash leads.
    pub(crate) fn get(&self, hash: u64) -> Option<Place>
        ensures { result ≡ place_at hash self.now }
    {
        get_at(&self.segments, segment_of(self.shift, hash), hash)
    }

    /// Whether the hash leads to this place.
    pub(crate) fn leads_to(&self, hash: u64, place: Place) -> bool
        ensures { result ≡ is_place (place_at hash self.now) place }
    {
        match self.get(hash) {
            Some(found) => found.is_same(place),
            None => false,
        }
    }

    /// The hash leads nowhere from here on.
    pub(crate) fn remove(&mut self, hash: u64)
        ensures { self.new ≡ without hash self.old }
    {
        remove_at(&mut self.segments, segment_of(self.shift, hash), hash);
    }

    /// Its hashes rise: a law to call where a proof asks for it. It looks at 256 segments, and changes nothing.
    pub(crate) fn in_order(&self)
        ensures { Rises self.now }
    {
        in_order(&self.segments);
    }

    /// What it leads to, to be handed out one after another. It takes no memory.
    #[must_use]
    pub fn into_leads(self) -> Leads<A>
        ensures { result ≡ self }
    {
        let Index { shift: _, segments } = self;
        Leads::of(segments)
    }
}

impl<A: Allocator + Clone> Index<A> {
    /// The hash leads to this place from here on, and to no other. Refused only when out of memory.
    pub fn insert(&mut self, hash: u64, place: Place) -> Result<(), AllocError>
        ensures ok { OnOk result (self.new ≡ leading hash place self.old) }
        ensures err { OnErr result (self.new ≡ self.old) }
    {
        insert_at(
            &mut self.segments,
            segment_of(self.shift, hash),
            hash,
            place,
        )?;
        Ok(())
    }
}

impl<A: Allocator + Clone + Copy> Index<A> {
    /// Whether each hash leads to a large entry of these regions.
    pub(crate) fn all_lead(&self, regions: &[Region<A>], flash: &FlashConfig) -> bool
        requires small { flash.now.small_max ≤ 4096 }
        requires filled { (r : ℕ) → filled_to flash.now (region_at r regions.now) < 2 ^ 32 }
        requires rising { (r : ℕ) → IsRising 0 (region_at r regions.now).appended (filled_to flash.now (region_at r regions.now)) }
        ensures { result ≡ list_all (leads_well flash.now regions.now) self.now }
    {
        all_lead(&self.segments, regions, flash)
    }

    /// It leads nowhere, by hashes of so many bits, as the configuration has them. Refused only when out of memory.
    pub fn new(alloc: A, bits: u64) -> Result<Index<A>, AllocError>
        requires { bits ≤ 64 }
        ensures { IfOk result (λ index. index ≡ []) }
    {
        let segments = empty_segments(alloc, SEGMENTS)?;
        Ok(Index {
            shift: bits.saturating_sub(8),
            segments,
        })
    }
}

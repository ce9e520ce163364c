// The clean regions, by their numbers: an ordered set, so that the lowest is taken, one comes in, and all are counted, with no
// scan.
ghost use Rattle.std.specs.Prelude.{◌≡◌, ◌<◌, ◌≤◌, ◌^◌, false, [], length, replicate, set, if◌then◌else◌, Some, is_some, OnOk, OnErr, IfOk};
ghost use Rattle.hc_engines.specs.large.Region.{clean_region, is_clean, region_at, lowest_clean as lowest};
ghost use Rattle.hc_engines.specs.large.Steps.{clean_count as count_of_clean, emptied};
ghost use Rattle.hc_region.specs.CleanNumbers.{clean_from, first_of, now_clean, rest_of, with_number};
ghost use Rattle.hc_region.specs.Pins.{is_last, released};

use crate::numbered::{is_free_at, is_last_read_at, store_at};
use crate::region::Region;
use std::alloc::{AllocError, Allocator, Global};
use std::collections::BTreeSet;
use std::marker::Model;

/// The numbers of the clean regions. Contracts see the list of them, rising.
#[derive(Drop)]
pub struct CleanRegions<A: Allocator = Global> {
    numbers: BTreeSet<u32, A>,
}

impl<A: Allocator> Model for CleanRegions<A> {
    ghost use Rattle.std.specs.Prelude.{List, ℕ};

    ghost Value = { List ℕ };

    ghost view = { λ clean. clean.numbers.keys };
}

impl<A: Allocator> CleanRegions<A> {
    /// None is clean.
    fn new(alloc: A) -> CleanRegions<A>
        ensures { result ≡ [] }
    {
        CleanRegions {
            numbers: BTreeSet::new(alloc),
        }
    }

    /// How many there are.
    #[must_use]
    pub fn len(&self) -> usize
        ensures { result ≡ length self.now }
    {
        self.numbers.len()
    }

    /// The lowest number.
    fn lowest(&self) -> Option<u32>
        ensures { result ≡ first_of self.now }
    {
        match self.numbers.first() {
            Some(r) => Some(*r),
            None => None,
        }
    }

    /// These are the clean regions from here on, where others are clean than before.
    pub fn change(&mut self, more: Option<CleanRegions<A>>)
        ensures { self.new ≡ now_clean more self.old }
    {
        if let Some(more) = more {
            *self = more;
        }
    }

    /// The lowest number goes.
    fn take_lowest(&mut self)
        ensures { self.new ≡ rest_of self.old }
    {
        let _ = self.numbers.pop_first();
    }
}

impl<A: Allocator + Clone> CleanRegions<A> {
    /// This number comes in. Refused only when out of memory.
    fn insert(&mut self, r: u32) -> Result<(), AllocError>
        ensures ok { OnOk result (self.new ≡ with_number r self.old) }
        ensures err { OnErr result (self.new ≡ self.old) }
    {
        match self.numbers.insert(r) {
            Ok(_) => Ok(()),
            Err(_) => Err(AllocError),
        }
    }

    /// The same numbers once more. Refused only when out of memory.
    fn copy(&self) -> Result<CleanRegions<A>, AllocError>
        ensures { IfOk result (λ copy. copy ≡ self.now) }
    {
        let numbers = self.numbers.clone()?;
        Ok(CleanRegions { numbers })
    }
}

/// The clean region with the lowest number.
#[must_use]
#[tactic(auto, using(crate::proofs::Cleans::first_lowest))]
pub fn lowest_clean<A: Allocator + Clone + Copy>(
    regions: &[Region<A>],
    clean: &CleanRegions<A>,
) -> Option<u32>
    requires { clean.now ≡ clean_from 0 regions.now }
    ensures { result ≡ lowest 0 regions.now }
{
    let _regions = regions.len();
    clean.lowest()
}

/// How many regions are clean.
#[must_use]
#[tactic(auto, using(crate::proofs::Cleans::as_many))]
pub fn clean_count<A: Allocator + Clone + Copy>(
    regions: &[Region<A>],
    clean: &CleanRegions<A>,
) -> usize
    requires { clean.now ≡ clean_from 0 regions.now }
    ensures { result ≡ count_of_clean regions.now }
{
    let _regions = regions.len();
    clean.len()
}

/// The clean region with the lowest number is opened, with what it has from the first on.
pub fn open_lowest<A: Allocator + Clone + Copy>(
    regions: &mut Vec<Region<A>, A>,
    clean: &mut CleanRegions<A>,
    r: u32,
    region: Region<A>,
)
    requires there { r < length regions.old.items }
    requires lowest { lowest 0 regions.old.items ≡ Some r }
    requires clean { clean.old ≡ clean_from 0 regions.old.items }
    requires in_use { is_clean region.status ≡ false }
    ensures regions { regions.new.items ≡ set regions.old.items r region }
    ensures clean { clean.new ≡ clean_from 0 regions.new.items }
{
    clean.take_lowest();
    store_at(regions, r, region);
}

/// The number of a region comes in that is about to be emptied, where no read holds it: then it is clean. Refused only when
/// out of memory.
pub fn add_emptied<A: Allocator + Clone + Copy>(
    regions: &[Region<A>],
    clean: &mut CleanRegions<A>,
    r: u32,
) -> Result<(), AllocError>
    requires there { r < length regions.now }
    requires in_use { is_clean (region_at r regions.now).status ≡ false }
    requires clean { clean.old ≡ clean_from 0 regions.now }
    ensures ok { OnOk result (clean.new ≡ clean_from 0 (set regions.now r (emptied (region_at r regions.now)))) }
    ensures err { OnErr result (clean.new ≡ clean.old) }
{
    if is_free_at(regions, r) {
        clean.insert(r)?;
    }
    Ok(())
}

/// The numbers of the clean regions once a read let a region go, where that drains and no other read holds it: then it is
/// clean too. Nothing where no region becomes clean. All memory is taken here, so that the read's end can't be refused: the
/// numbers are copied, which happens once for a region that drains. Refused only when out of memory.
pub fn with_released<A: Allocator + Clone + Copy>(
    regions: &[Region<A>],
    clean: &CleanRegions<A>,
    r: u32,
) -> Result<Option<CleanRegions<A>>, AllocError>
    requires there { r < length regions.now }
    requires clean { clean.now ≡ clean_from 0 regions.now }
    ensures clean { IfOk result (λ more. now_clean more (clean_from 0 regions.now) ≡ clean_from 0 (set regions.now r (released (region_at r regions.now)))) }
    ensures last { IfOk result (λ more. is_some more ≡ is_last (region_at r regions.now)) }
{
    if !is_last_read_at(regions, r) {
        return Ok(None);
    }
    let mut more = clean.copy()?;
    more.insert(r)?;
    Ok(Some(more))
}

/// The numbers of so many clean regions. Refused only when out of memory.
pub fn all_clean<A: Allocator + Clone>(alloc: A, n: u64) -> Result<CleanRegions<A>, AllocError>
    requires { n ≤ 2 ^ 32 }
    ensures { IfOk result (λ clean. clean ≡ clean_from 0 (replicate n clean_region)) }
{
    let mut clean = CleanRegions::new(alloc);
    for r in 0..n {
        clean.insert(r as u32)?;
    }
    Ok(clean)
}

/// Whether the region is clean.
fn is_clean_at<A: Allocator + Clone + Copy>(regions: &[Region<A>], r: u32) -> bool
    requires { r < length regions.now }
    ensures { result ≡ is_clean (region_at r regions.now).status }
{
    regions[r as usize].is_clean()
}

/// The numbers of the clean ones of these regions. Refused only when out of memory.
pub fn clean_of<A: Allocator + Clone + Copy>(
    alloc: A,
    regions: &[Region<A>],
) -> Result<CleanRegions<A>, AllocError>
    requires { length regions.now ≤ 65536 }
    ensures { IfOk result (λ clean. clean ≡ clean_from 0 regions.now) }
{
    let mut clean = CleanRegions::new(alloc);
    for r in 0..regions.len() as u32 {
        add_if_clean(regions, &mut clean, r)?;
    }
    Ok(clean)
}

/// The number of this region comes in, where it is clean. Refused only when out of memory.
fn add_if_clean<A: Allocator + Clone + Copy>(
    regions: &[Region<A>],
    clean: &mut CleanRegions<A>,
    r: u32,
) -> Result<(), AllocError>
    requires { r < length regions.now }
    ensures { OnOk result (clean.new ≡ (if is_clean (region_at r regions.now).status then with_number r clean.old else clean.old)) }
{
    if is_clean_at(regions, r) {
        clean.insert(r)?;
    }
    Ok(())
}

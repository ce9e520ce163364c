// Puts: an entry goes behind what the region in use has, or into the next clean region.
ghost use Rattle.std.specs.Prelude.{◌≡◌, ◌<◌, ◌≤◌, ◌^◌, Some, None, false, length, set, IfSome, IfOk, OnOk, OnErr};
ghost use Rattle.std.specs.VecDeque.{deque_len, deque_capacity};
ghost use Rattle.hc_types.specs.Places.{kept_of};
ghost use Rattle.hc_types.specs.FlashEntry.{entry_of};
ghost use Rattle.hc_engines.specs.large.Entries.{entry_bytes as bytes_of};
ghost use Rattle.hc_engines.specs.large.Region.{opened_region, is_clean, region_at, region_len, filled_to, lowest_clean as lowest};
ghost use Rattle.hc_engines.specs.large.Index.{leading};
ghost use Rattle.hc_engines.specs.large.Block.{finished};
ghost use Rattle.hc_engines.specs.large.Steps.{fitting as fitting_seen, stored as stored_seen, append, open_next, seal, sealed_too, put as put_seen, put_fresh as put_fresh_seen};
ghost use Rattle.hc_region.specs.Growing.{grown};
ghost use Rattle.hc_region.specs.CleanNumbers.{clean_from};
ghost use Rattle.hc_block.specs.Large.{HasRoom, CanOpen};

use crate::block_cache::BlockCache;
use crate::index::Index;
use crate::outcomes::{collided, no_clean_region, stored};
use hc_engines::Outcome;
use hc_region::{
    CleanRegions, Place, Region, append_at, entry_bytes, filled_at, if_fits, lowest_clean,
    open_lowest, seal_at, undo_at,
};
use hc_types::{Entry, FlashConfig, kept};
use std::alloc::{AllocError, Allocator};
use std::collections::VecDeque;

/// These bytes go behind what a region has, and the hash leads there. The index is asked last, and where it is refused the
/// bytes leave the region again.
fn append_in<A: Allocator + Clone + Copy>(
    regions: &mut Vec<Region<A>, A>,
    index: &mut Index<A>,
    flash: &FlashConfig,
    r: u32,
    hash: u64,
    bytes: &[u8],
) -> Result<(), AllocError>
    requires { HasRoom flash.now regions.old.items r (length bytes.now) }
    ensures regions { OnOk result (regions.new.items ≡ set regions.old.items r (grown flash.now hash bytes.now (region_at r regions.old.items))) }
    ensures index { OnOk result (index.new ≡ leading hash (record { region = r; offset = filled_to flash.now (region_at r regions.old.items); length = length bytes.now }) index.old) }
    ensures err_regions { OnErr result (regions.new.items ≡ regions.old.items) }
    ensures err_index { OnErr result (index.new ≡ index.old) }
{
    let offset = filled_at(regions, r, flash);
    append_at(regions, r, flash, hash, bytes)?;
    match index.insert(hash, Place::new(r, offset as u32, bytes.len() as u32)) {
        Ok(_) => Ok(()),
        Err(error) => {
            undo_at(regions, r, bytes.len());
            Err(error)
        }
    }
}

/// The region in use is sealed, where there is one.
fn seal_in<A: Allocator + Clone + Copy>(
    regions: &mut Vec<Region<A>, A>,
    sealed: &mut VecDeque<u32, A>,
    current: Option<u32>,
)
    requires there { IfSome current (λ r. r < length regions.old.items) }
    requires in_use { IfSome current (λ r. is_clean (region_at r regions.old.items).status ≡ false) }
    requires room { deque_len sealed.old < deque_capacity sealed.old }
    ensures regions { regions.new.items ≡ seal current regions.old.items }
    ensures sealed { sealed.new.items ≡ sealed_too current sealed.old.items }
    ensures clean { clean_from 0 regions.new.items ≡ clean_from 0 regions.old.items }
{
    if let Some(r) = current {
        seal_at(regions, r);
        let _ = sealed.push_back(r);
    }
}

/// The region in use is sealed, this one takes its place with these bytes, and the hash leads there.
fn open_in<A: Allocator + Clone + Copy>(
    alloc: A,
    regions: &mut Vec<Region<A>, A>,
    clean: &mut CleanRegions<A>,
    sealed: &mut VecDeque<u32, A>,
    index: &mut Index<A>,
    flash: &FlashConfig,
    current: Option<u32>,
    r: u32,
    hash: u64,
    bytes: &[u8],
) -> Result<(), AllocError>
    requires can { CanOpen flash.now regions.old.items current r (length bytes.now) }
    requires clean { clean.old ≡ clean_from 0 regions.old.items }
    ensures regions { OnOk result (regions.new.items ≡ set (seal current regions.old.items) r (grown flash.now hash bytes.now opened_region)) }
    ensures clean { OnOk result (clean.new ≡ clean_from 0 regions.new.items) }
    ensures sealed { OnOk result (sealed.new.items ≡ sealed_too current sealed.old.items) }
    ensures index { OnOk result (index.new ≡ leading hash (record { region = r; offset = 0; length = length bytes.now }) index.old) }
    ensures err_regions { OnErr result (regions.new.items ≡ regions.old.items) }
    ensures err_clean { OnErr result (clean.new ≡ clean.old) }
    ensures err_sealed { OnErr result (sealed.new.items ≡ sealed.old.items) }
    ensures err_index { OnErr result (index.new ≡ index.old) }
{
    let region = Region::opened_with(alloc, flash, hash, bytes)?;
    sealed.reserve(1)?;
    index.insert(hash, Place::new(r, 0, bytes.len() as u32))?;
    seal_in(regions, sealed, current);
    open_lowest(regions, clean, r, region);
    Ok(())
}

impl<A: Allocator + Clone + Copy> BlockCache<A> {
    /// The region in use, where so many bytes fit it.
    fn fitting(&self, len: u64) -> Option<u32>
        requires { len < 2 ^ 32 }
        ensures { result ≡ fitting_seen self.now.flash self.now.block len self.now.block.current }
    {
        match self.current {
            Some(r) => if_fits(&self.regions, r, &self.flash, len),
            None => None,
        }
    }

    /// The entry goes into the region in use.
    fn put_in(&mut self, r: u32, entry: &Entry<A>, bytes: &[u8]) -> Result<Outcome<A>, AllocError>
        requires bytes { bytes.now ≡ bytes_of (entry_of entry.now) }
        requires fits { fitting_seen self.old.flash self.old.block (length bytes.now) self.old.block.current ≡ Some r }
        ensures ok { IfOk result (λ outcome. stored_seen self.old.flash (entry_of entry.now) self.old.block None (append self.old.flash r (entry_of entry.now) self.old.block) ≡ finished self.new.block outcome) }
        ensures flash { self.new.flash ≡ self.old.flash }
        ensures err { OnErr result (self.new ≡ self.old) }
    {
        let hash = kept(&entry.key, self.flash.bits);
        let losses = collided(&self.alloc, hash, &entry.key, self.index.get(hash))?;
        append_in(
            &mut self.regions,
            &mut self.index,
            &self.flash,
            r,
            hash,
            bytes,
        )?;
        Ok(stored(losses, None))
    }

    /// The region in use is sealed, and the entry goes into this one, which is opened.
    fn put_fresh(
        &mut self,
        r: u32,
        entry: &Entry<A>,
        bytes: &[u8],
    ) -> Result<Outcome<A>, AllocError>
        requires bytes { bytes.now ≡ bytes_of (entry_of entry.now) }
        requires fits { length bytes.now ≤ region_len self.old.flash }
        requires clean { lowest 0 self.old.block.regions ≡ Some r }
        ensures ok { IfOk result (λ outcome. stored_seen self.old.flash (entry_of entry.now) self.old.block (Some r) (append self.old.flash r (entry_of entry.now) (open_next r self.old.block)) ≡ finished self.new.block outcome) }
        ensures flash { self.new.flash ≡ self.old.flash }
        ensures err { OnErr result (self.new ≡ self.old) }
    {
        let hash = kept(&entry.key, self.flash.bits);
        let losses = collided(&self.alloc, hash, &entry.key, self.index.get(hash))?;
        open_in(
            self.alloc,
            &mut self.regions,
            &mut self.clean,
            &mut self.sealed,
            &mut self.index,
            &self.flash,
            self.current,
            r,
            hash,
            bytes,
        )?;
        self.current = Some(r);
        Ok(stored(losses, Some(r)))
    }

    /// The entry goes into the clean region with the lowest number, or is lost where none is clean.
    fn put_elsewhere(&mut self, entry: &Entry<A>, bytes: &[u8]) -> Result<Outcome<A>, AllocError>
        requires bytes { bytes.now ≡ bytes_of (entry_of entry.now) }
        requires fits { length bytes.now ≤ region_len self.old.flash }
        ensures ok { IfOk result (λ outcome. put_fresh_seen self.old.flash (entry_of entry.now) self.old.block (lowest 0 self.old.block.regions) ≡ finished self.new.block outcome) }
        ensures flash { self.new.flash ≡ self.old.flash }
        ensures err { OnErr result (self.new ≡ self.old) }
    {
        match self.lowest_clean() {
            Some(r) => self.put_fresh(r, entry, bytes),
            None => no_clean_region(&self.alloc, &entry.key),
        }
    }

    /// The clean region with the lowest number.
    fn lowest_clean(&self) -> Option<u32>
        ensures { result ≡ lowest 0 self.now.block.regions }
    {
        lowest_clean(&self.regions, &self.clean)
    }

    /// Puts an entry of at most a region's bytes. Refused only when out of memory.
    pub(crate) fn put(&mut self, entry: &Entry<A>) -> Result<Outcome<A>, AllocError>
        requires value { length entry.now.value ≤ 1048576 }
        requires fits { length (bytes_of (entry_of entry.now)) ≤ region_len self.old.flash }
        ensures ok { IfOk result (λ outcome. put_seen self.old.flash (entry_of entry.now) self.old.block ≡ finished self.new.block outcome) }
        ensures flash { self.new.flash ≡ self.old.flash }
        ensures err { OnErr result (self.new ≡ self.old) }
    {
        let bytes = entry_bytes(self.alloc, entry)?;
        match self.fitting(bytes.len() as u64) {
            Some(r) => self.put_in(r, entry, &bytes),
            None => self.put_elsewhere(entry, &bytes),
        }
    }
}

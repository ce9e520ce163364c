// A get begins: it is answered from the buffer, or its first page is read.
ghost use Rattle.std.specs.Prelude.{◌≡◌, ◌<◌, ◌≤◌, ◌+◌, ◌^◌, ℕ, length, set, min, option_map, Some, IfOk, OnOk, OnErr};
ghost use Rattle.hc_types.specs.Places.{kept_of};
ghost use Rattle.hc_engines.specs.Engine.{Read, nothing};
ghost use Rattle.hc_engines.specs.large.Region.{region_at};
ghost use Rattle.hc_engines.specs.large.Index.{place_at};
ghost use Rattle.hc_engines.specs.large.Block.{Block, Getting, finished, job_added};
ghost use Rattle.hc_engines.specs.large.Laws.{IsFree};
ghost use Rattle.hc_engines.specs.large.Steps.{reading_of, read_next, pinned, start_read as start_read_seen, get as get_seen};
ghost use Rattle.hc_engines.specs.Seen.{answer_of};
ghost use Rattle.hc_block.specs.Moves.{moved_with};
ghost use Rattle.hc_block.specs.Works.{IsFreeIn};
ghost use Rattle.hc_block.specs.Reads.{came_by, came_to, CanRead};

use crate::block_cache::BlockCache;
use crate::endings::Ending;
use crate::jobs::{Jobs, Work};
use crate::outcomes::read;
use crate::reading::Reading;
use crate::steps::Step;
use hc_engines::{Answer, Outcome, SharedOrder};
use hc_region::{Place, Region, buffered_at, pin_at, written_at};
use hc_types::{FlashConfig, Key};
use std::alloc::{AllocError, Allocator};

/// The read's region is pinned, and its first page is read.
fn start_in<A: Allocator + Clone + Copy>(
    regions: &mut Vec<Region<A>, A>,
    jobs: &mut Jobs<A>,
    number: u64,
    reading: Reading<A>,
) -> Result<(), AllocError>
    requires there { reading.place.region < length regions.old.items }
    requires pins { (region_at reading.place.region regions.old.items).pins ≤ length jobs.old }
    requires free { IsFreeIn number jobs.old }
    ensures regions { OnOk result (regions.new.items ≡ set regions.old.items reading.place.region (record (region_at reading.place.region regions.old.items) { pins = (region_at reading.place.region regions.old.items).pins + 1 })) }
    ensures jobs { OnOk result (jobs.new ≡ job_added number (Getting reading) jobs.old) }
    ensures err_regions { OnErr result (regions.new.items ≡ regions.old.items) }
    ensures err_jobs { OnErr result (jobs.new ≡ jobs.old) }
{
    let _len = jobs.len();
    let r = reading.region();
    jobs.insert(number, Work::Getting(reading))?;
    pin_at(regions, r);
    Ok(())
}

/// The smaller number.
fn least(a: u64, b: u64) -> u64
    ensures { result ≡ min a b }
{
    if a < b { a } else { b }
}

/// A read of the entry of this key at this place begins.
fn reading_from<A: Allocator + Clone + Copy>(
    alloc: A,
    regions: &[Region<A>],
    flash: &FlashConfig,
    key: &Key<A>,
    place: Place,
) -> Result<Reading<A>, AllocError>
    requires there { place.region < length regions.now }
    requires least { 512 ≤ flash.now.page }
    requires most { flash.now.page ≤ 4096 }
    requires written { (region_at place.region regions.now).written < 2 ^ 32 }
    ensures { IfOk result (λ reading. (s : Block) → s.regions ≡ regions.now → reading ≡ reading_of flash.now key.now place s) }
{
    let rest = buffered_at(alloc, regions, flash, place)?;
    let key = key.clone()?;
    let end = u64::from(place.offset()) + u64::from(place.len()) + (flash.page - 1);
    Ok(Reading {
        key,
        place,
        got: Vec::new(alloc),
        next: u64::from(place.offset()) / flash.page,
        until: least(written_at(regions, place.region()), end / flash.page),
        rest,
    })
}

impl<A: Allocator + Clone + Copy> BlockCache<A> {
    /// A read of this key begins, at this place.
    pub(crate) fn begun(&self, key: &Key<A>, place: Place) -> Result<Reading<A>, AllocError>
        requires { place_at (kept_of self.now.flash.bits key.now) self.now.block.index ≡ Some place }
        ensures value { IfOk result (λ reading. reading ≡ reading_of self.now.flash key.now place self.now.block) }
        ensures can { IfOk result (λ reading. reading.next < reading.until → (number : ℕ) → IsFree number self.now.block → CanRead self.now.flash number reading self.now.block) }
    {
        let reading = reading_from(self.alloc, &self.regions, &self.flash, key, place)?;
        Ok(reading)
    }

    /// The first page of a read is read.
    fn start_read(&mut self, number: u64, reading: Reading<A>) -> Result<u32, AllocError>
        requires { CanRead self.old.flash number reading self.old.block }
        ensures ok { IfOk result (λ page. read_next self.old.flash number reading (pinned reading.place.region self.old.block) ≡ record { state = self.new.block; outcome = nothing; order = Some (Read page) }) }
        ensures flash { self.new.flash ≡ self.old.flash }
        ensures err { OnErr result (self.new ≡ self.old) }
    {
        let page = reading.page(&self.flash);
        start_in(&mut self.regions, &mut self.jobs, number, reading)?;
        Ok(page)
    }

    /// What a read that needs no page came to.
    pub(crate) fn came_now(&self, reading: Reading<A>) -> Result<Option<Answer<A>>, AllocError>
        ensures { IfOk result (λ came. option_map answer_of came ≡ came_by self.now.flash reading.key reading.place reading.got reading.rest self.now.block.index) }
    {
        reading.came(self.alloc, &self.index, &self.flash)
    }

    /// A read that needs no page is over.
    fn end_now(&mut self, hash: u64, came: Option<Answer<A>>) -> Result<Outcome<A>, AllocError>
        ensures ok { IfOk result (λ outcome. came_to hash self.old.block (option_map answer_of came) ≡ finished self.new.block outcome) }
        ensures flash { self.new.flash ≡ self.old.flash }
        ensures err { OnErr result (self.new ≡ self.old) }
    {
        let Ending { outcome, rest } = self.ending_now(hash, came)?;
        self.end_at_once(rest);
        Ok(outcome)
    }

    /// Reads the entry of this key at this place.
    fn get_at(&mut self, number: u64, key: &Key<A>, place: Place) -> Result<Step<A>, AllocError>
        requires free { IsFree number self.old.block }
        requires place { place_at (kept_of self.old.flash.bits key.now) self.old.block.index ≡ Some place }
        ensures ok { IfOk result (λ step. start_read_seen self.old.flash number (reading_of self.old.flash key.now place self.old.block) self.old.block ≡ moved_with self.new.block step) }
        ensures flash { self.new.flash ≡ self.old.flash }
        ensures err { OnErr result (self.new ≡ self.old) }
    {
        let reading = self.begun(key, place)?;
        if reading.is_waiting() {
            let page = self.start_read(number, reading)?;
            return Ok(Step::Io(SharedOrder::Read(page)));
        }
        let came = self.came_now(reading)?;
        let hash = self.hash_of(key);
        let outcome = self.end_now(hash, came)?;
        Ok(Step::Done(outcome))
    }

    /// Gets the entry of this key under a number that no operation has. Refused only when out of memory.
    pub(crate) fn get(&mut self, number: u64, key: &Key<A>) -> Result<Step<A>, AllocError>
        requires { IsFree number self.old.block }
        ensures ok { IfOk result (λ step. get_seen self.old.flash number key.now self.old.block ≡ moved_with self.new.block step) }
        ensures flash { self.new.flash ≡ self.old.flash }
        ensures err { OnErr result (self.new ≡ self.old) }
    {
        match self.place_of_key(key) {
            Some(place) => self.get_at(number, key, place),
            None => Ok(Step::Done(read(Answer::Absent, Vec::new(self.allocator()), None))),
        }
    }
}

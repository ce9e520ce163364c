// Pages go out: of sealed regions, or early, of the one in use.
ghost use Rattle.std.specs.Prelude.{◌≡◌, ◌<◌, ◌≤◌, ◌^◌, ℕ, option_map, length, set, nat_eq, Some, None, IfOk, IfSome, OnOk, OnErr};
ghost use Rattle.std.specs.List.{IsDistinct};
ghost use Rattle.hc_engines.specs.Engine.{Write, nothing};
ghost use Rattle.hc_engines.specs.large.Region.{region_at, next_page, page_no};
ghost use Rattle.hc_engines.specs.large.Block.{Block, Writing, job_added};
ghost use Rattle.hc_engines.specs.large.Steps.{flush as flush_seen};
ghost use Rattle.hc_engines.specs.large.Laws.{IsFree};
ghost use Rattle.hc_engines.specs.Seen.{order_of};
ghost use Rattle.hc_region.specs.Stages.{mark_seen};
ghost use Rattle.hc_region.specs.Numbers.{AllThere};
ghost use Rattle.hc_engines.specs.large.Choices.{marked, left_sealed, early_next, flush_next as flush_next_seen, gone_out};
ghost use Rattle.hc_block.specs.Works.{IsFreeIn};
ghost use Rattle.hc_block.specs.Going.{choice_seen, CanGoOut};

use crate::block_cache::BlockCache;
use crate::jobs::{Jobs, Work};
use crate::reading::page_number;
use hc_engines::{SharedOrder, SharedPage};
use hc_region::{
    Mark, Region, can_go_at, first_ready, mark_at, next_page_at, take_out, written_at,
};
use hc_types::FlashConfig;
use std::alloc::{AllocError, Allocator};
use std::collections::VecDeque;

/// A region's number leaves those that wait for their flush, where it is flushed.
fn leave_sealed<A: Allocator>(sealed: &mut VecDeque<u32, A>, r: u32, mark: Mark)
    requires { IsDistinct nat_eq sealed.old.items }
    ensures { sealed.new.items ≡ left_sealed (mark_seen mark) r sealed.old.items }
{
    match mark {
        Mark::Early => (),
        Mark::Flush => take_out(sealed, r),
    }
}

/// The region's next page goes out, and the region is marked.
fn write_out<A: Allocator + Clone + Copy>(
    alloc: A,
    regions: &mut Vec<Region<A>, A>,
    jobs: &mut Jobs<A>,
    flash: &FlashConfig,
    number: u64,
    r: u32,
    mark: Mark,
) -> Result<SharedOrder<A>, AllocError>
    requires there { r < length regions.old.items }
    requires few { length regions.old.items ≤ 65536 }
    requires page { flash.now.page ≤ 4096 }
    requires region_pages { flash.now.region_pages ≤ 4096 }
    requires buckets { flash.now.buckets ≤ 1048576 }
    requires written { (region_at r regions.old.items).written < 65536 }
    requires free { IsFreeIn number jobs.old }
    ensures order { IfOk result (λ order. order_of order ≡ Write (page_no flash.now r (region_at r regions.old.items).written) (next_page flash.now (region_at r regions.old.items))) }
    ensures regions { OnOk result (regions.new.items ≡ set regions.old.items r (marked (mark_seen mark) (region_at r regions.old.items))) }
    ensures jobs { OnOk result (jobs.new ≡ job_added number (Writing r (next_page flash.now (region_at r regions.old.items))) jobs.old) }
    ensures err_regions { OnErr result (regions.new.items ≡ regions.old.items) }
    ensures err_jobs { OnErr result (jobs.new ≡ jobs.old) }
{
    let page = page_number(flash, r, written_at(regions, r));
    let bytes = next_page_at(alloc, regions, r, flash)?;
    let copy = bytes.clone()?;
    let shared = SharedPage::new(bytes)?;
    let work = Work::Writing {
        region: r,
        bytes: copy,
    };
    jobs.insert(number, work)?;
    mark_at(regions, r, mark);
    Ok(SharedOrder::Write(page, shared))
}

/// A full page of the region in use, where it can go.
fn early_of<A: Allocator + Clone + Copy>(
    regions: &[Region<A>],
    current: Option<u32>,
    flash: &FlashConfig,
) -> Option<(u32, Mark)>
    requires there { IfSome current (λ r. r < length regions.now) }
    requires written { (r : ℕ) → (region_at r regions.now).written < 2 ^ 32 }
    ensures { (s : Block) → s.regions ≡ regions.now → choice_seen result ≡ early_next flash.now s current }
{
    let Some(r) = current else {
        return None;
    };
    if can_go_at(regions, r, flash) {
        Some((r, Mark::Early))
    } else {
        None
    }
}

/// The region sealed first of those of which no page is out, or else the one in use.
fn next_of<A: Allocator + Clone + Copy>(
    regions: &[Region<A>],
    sealed: &VecDeque<u32, A>,
    current: Option<u32>,
    flash: &FlashConfig,
) -> Option<(u32, Mark)>
    requires sealed { AllThere (length regions.now) sealed.now.items }
    requires there { IfSome current (λ r. r < length regions.now) }
    requires written { (r : ℕ) → (region_at r regions.now).written < 2 ^ 32 }
    ensures { (s : Block) → s.regions ≡ regions.now → s.sealed ≡ sealed.now.items → s.current ≡ current → choice_seen result ≡ flush_next_seen flash.now s }
{
    match first_ready(regions, sealed) {
        Some(r) => Some((r, Mark::Flush)),
        None => early_of(regions, current, flash),
    }
}

impl<A: Allocator + Clone + Copy> BlockCache<A> {
    /// A region's next page goes out.
    fn go_out(&mut self, number: u64, r: u32, mark: Mark) -> Result<SharedOrder<A>, AllocError>
        requires { CanGoOut self.old.flash number r (mark_seen mark) self.old.block }
        ensures ok { IfOk result (λ order. gone_out self.old.flash number r (mark_seen mark) self.old.block ≡ record { state = self.new.block; outcome = nothing; order = Some (order_of order) }) }
        ensures flash { self.new.flash ≡ self.old.flash }
        ensures err { OnErr result (self.new ≡ self.old) }
    {
        let order = write_out(
            self.alloc,
            &mut self.regions,
            &mut self.jobs,
            &self.flash,
            number,
            r,
            mark,
        )?;
        leave_sealed(&mut self.sealed, r, mark);
        Ok(order)
    }

    /// Which region's page goes out next, and how.
    pub(crate) fn flush_next(&self) -> Option<(u32, Mark)>
        ensures value { choice_seen result ≡ flush_next_seen self.now.flash self.now.block }
        ensures can { (number : ℕ) → IsFree number self.now.block → IfSome result (λ turn. CanGoOut self.now.flash number turn.0 (mark_seen turn.1) self.now.block) }
    {
        next_of(&self.regions, &self.sealed, self.current, &self.flash)
    }

    /// The next page of the region sealed first goes out, or else a full page of the region in use. Refused only when
    /// out of memory.
    pub(crate) fn flush(&mut self, number: u64) -> Result<Option<SharedOrder<A>>, AllocError>
        requires { IsFree number self.old.block }
        ensures ok { IfOk result (λ order. flush_seen self.old.flash number self.old.block ≡ record { state = self.new.block; outcome = nothing; order = option_map order_of order }) }
        ensures flash { self.new.flash ≡ self.old.flash }
        ensures err { OnErr result (self.new ≡ self.old) }
    {
        match self.flush_next() {
            Some((r, mark)) => {
                let order = self.go_out(number, r, mark)?;
                Ok(Some(order))
            }
            None => Ok(None),
        }
    }
}

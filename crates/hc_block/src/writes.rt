// A page of a region was written.
ghost use Rattle.std.specs.Prelude.{◌≡◌, ◌<◌, ◌≤◌, ◌+◌, ℕ, List, length, set, is_some, true, Some, IfOk, OnOk, OnErr};
ghost use Rattle.std.specs.VecDeque.{deque_len, deque_capacity};
ghost use Rattle.hc_engines.specs.Engine.{Write, Written, nothing};
ghost use Rattle.hc_engines.specs.large.Region.{region_at, next_page, page_no, page_done};
ghost use Rattle.hc_engines.specs.large.Block.{Writing, work_of, without_job, job_added, end_job};
ghost use Rattle.hc_engines.specs.large.Steps.{resume};
ghost use Rattle.hc_engines.specs.Seen.{order_of};
ghost use Rattle.hc_region.specs.Stages.{stage_of, settled};
ghost use Rattle.hc_region.specs.declared.status.Stage.TheVariants.{More};
ghost use Rattle.hc_block.specs.Large.{Kept};
ghost use Rattle.hc_block.specs.Settling.{flushed_at, settled_in, settled_by, CanSettle, IsWriting};
ghost use Rattle.hc_block.specs.Moves.{moved_with};

use crate::block_cache::BlockCache;
use crate::jobs::{Jobs, Work};
use crate::outcomes::settled;
use crate::reading::page_number;
use crate::steps::Step;
use hc_engines::{SharedOrder, SharedPage};
use hc_region::{Region, Stage, page_after_at, settle_at, stage_at, written_at};
use hc_types::FlashConfig;
use std::alloc::{AllocError, Allocator};
use std::collections::VecDeque;

/// The region is on flash, where that was its last page.
fn add_flushed<A: Allocator>(flushed: &mut VecDeque<u32, A>, r: u32, stage: Stage)
    requires { deque_len flushed.old < deque_capacity flushed.old }
    ensures { flushed.new.items ≡ flushed_at stage r flushed.old.items }
{
    if let Stage::Last = stage {
        let _ = flushed.push_back(r);
    }
}

/// The region's next page goes out in place of the one that was written.
fn write_more<A: Allocator + Clone + Copy>(
    alloc: A,
    regions: &mut Vec<Region<A>, A>,
    jobs: &mut Jobs<A>,
    flash: &FlashConfig,
    number: u64,
    r: u32,
) -> Result<SharedOrder<A>, AllocError>
    requires job { is_some (work_of number jobs.old) ≡ true }
    requires there { r < length regions.old.items }
    requires small { r < 65536 }
    requires page { flash.now.page ≤ 4096 }
    requires region_pages { flash.now.region_pages ≤ 4096 }
    requires buckets { flash.now.buckets ≤ 1048576 }
    requires written { (region_at r regions.old.items).written < 65536 }
    ensures order { IfOk result (λ order. order_of order ≡ Write (page_no flash.now r ((region_at r regions.old.items).written + 1)) (next_page flash.now (page_done flash.now (region_at r regions.old.items)))) }
    ensures regions { OnOk result (regions.new.items ≡ set regions.old.items r (settled flash.now More (region_at r regions.old.items))) }
    ensures jobs { OnOk result (jobs.new ≡ job_added number (Writing r (next_page flash.now (page_done flash.now (region_at r regions.old.items)))) (without_job number jobs.old)) }
    ensures err_regions { OnErr result (regions.new.items ≡ regions.old.items) }
    ensures err_jobs { OnErr result (jobs.new ≡ jobs.old) }
{
    let page = page_number(flash, r, written_at(regions, r) + 1);
    let bytes = page_after_at(alloc, regions, r, flash)?;
    let copy = bytes.clone()?;
    let shared = SharedPage::new(bytes)?;
    settle_at(alloc, regions, r, flash, Stage::More);
    let work = Work::Writing {
        region: r,
        bytes: copy,
    };
    jobs.replace(number, work);
    Ok(SharedOrder::Write(page, shared))
}

impl<A: Allocator + Clone + Copy> BlockCache<A> {
    /// What follows the page that this operation wrote.
    fn stage(&self, number: u64, r: u32) -> Stage
        requires { IsWriting number r self.now.block }
        ensures value { result ≡ stage_of self.now.flash (region_at r self.now.block.regions) }
        ensures can { CanSettle self.now.flash number r result self.now.block }
    {
        stage_at(&self.regions, r, &self.flash)
    }

    /// The flush goes on with the region's next page.
    fn go_on(&mut self, number: u64, r: u32) -> Result<SharedOrder<A>, AllocError>
        requires { CanSettle self.old.flash number r More self.old.block }
        ensures ok { IfOk result (λ order. settled_by self.old.flash number r More (end_job number self.old.block) ≡ record { state = self.new.block; outcome = nothing; order = Some (order_of order) }) }
        ensures flash { self.new.flash ≡ self.old.flash }
        ensures err { OnErr result (self.new ≡ self.old) }
    {
        let order = write_more(
            self.alloc,
            &mut self.regions,
            &mut self.jobs,
            &self.flash,
            number,
            r,
        )?;
        Ok(order)
    }

    /// The operation is over: the region is on flash, or an early write ends.
    fn settle(&mut self, number: u64, r: u32, stage: Stage) -> Result<(), AllocError>
        requires can { CanSettle self.old.flash number r stage self.old.block }
        requires kept { Kept self.old.flash (settled_in self.old.flash r stage (end_job number self.old.block)) }
        ensures ok { OnOk result (settled_in self.old.flash r stage (end_job number self.old.block) ≡ self.new.block) }
        ensures flash { self.new.flash ≡ self.old.flash }
        ensures err { OnErr result (self.new ≡ self.old) }
    {
        self.flushed.reserve(1)?;
        settle_at(self.alloc, &mut self.regions, r, &self.flash, stage);
        add_flushed(&mut self.flushed, r, stage);
        self.jobs.remove(number);
        Ok(())
    }

    /// The page of this region that the operation wrote is written. Refused only when out of memory.
    pub(crate) fn page_written(&mut self, number: u64, r: u32) -> Result<Step<A>, AllocError>
        requires { IsWriting number r self.old.block }
        ensures ok { IfOk result (λ step. (bytes : List ℕ) → resume self.old.flash number (Writing r bytes) Written self.old.block ≡ moved_with self.new.block step) }
        ensures flash { self.new.flash ≡ self.old.flash }
        ensures err { OnErr result (self.new ≡ self.old) }
    {
        match self.stage(number, r) {
            Stage::More => {
                let order = self.go_on(number, r)?;
                Ok(Step::Io(order))
            }
            Stage::Last => {
                self.settle(number, r, Stage::Last)?;
                Ok(Step::Done(settled(self.alloc, Some(r))))
            }
            Stage::Early => {
                self.settle(number, r, Stage::Early)?;
                Ok(Step::Done(settled(self.alloc, None)))
            }
        }
    }
}

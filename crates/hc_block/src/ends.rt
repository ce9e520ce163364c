// A region ends: what leads into it is lost, and it is clean, or drains while reads hold it.
ghost use Rattle.std.specs.Prelude.{◌≡◌, ◌<◌, ◌≤◌, ◌+◌, ◌++◌, nat_eq, nat_lt, ℕ, List, [], ◌∷◌, length, if◌then◌else◌, None, Some, vec_len, vec_capacity, IfSome, IfOk, OnErr};
ghost use Rattle.std.specs.List.{IsDistinct};
ghost use Rattle.hc_types.specs.Loss.{cause_of, Reclaimed};
ghost use Rattle.hc_engines.specs.Engine.{Failed};
ghost use Rattle.hc_engines.specs.large.Index.{is_at as is_place_at, leading_into, without_all};
ghost use Rattle.hc_engines.specs.large.Block.{finished, Writing};
ghost use Rattle.hc_engines.specs.large.Steps.{lost, not_current as not_current_seen, end_region, reclaim as reclaim_seen, clean_count as count_of_clean, oldest as oldest_of, resume};
ghost use Rattle.hc_region.specs.CleanNumbers.{clean_from};
ghost use Rattle.hc_region.specs.Numbers.{AllThere};
ghost use Rattle.hc_block.specs.Ends.{jobs_left, left_by, cause_seen, flushed_left, CanEnd};
ghost use Rattle.hc_engines.specs.large.Choices.{reclaim_next};
ghost use Rattle.hc_block.specs.Settling.{IsWriting};

use crate::block_cache::BlockCache;
use crate::index::Index;
use crate::jobs::Jobs;
use crate::outcomes::{ended, nothing, reclaimed};
use hc_engines::{Loss, Outcome};
use hc_region::{
    Appended, CleanRegions, Place, Region, add_emptied, appended_at, clean_count, empty_at, oldest,
    take_out, take_sealed_out,
};
use hc_types::{Cause, FlashConfig, Scope};
use std::alloc::{AllocError, Allocator};
use std::collections::VecDeque;

/// Why a region ends.
#[derive(Clone, Copy)]
pub(crate) enum End {
    /// This region is reclaimed.
    Reclaimed(u32),
    /// A write of it failed.
    Fault,
}

fn cause_of_end<A: Allocator>(end: End) -> Cause<A>
    ensures { cause_of result ≡ cause_seen end }
{
    match end {
        End::Reclaimed(r) => Cause::Reclaimed(r),
        End::Fault => Cause::Fault,
    }
}

/// Whether the place that was looked up is that of the entry at this offset of the region.
fn is_at(place: Option<Place>, r: u32, offset: u32) -> bool
    ensures { result ≡ is_place_at place r offset }
{
    match place {
        Some(place) => place.is_at(r, offset),
        None => false,
    }
}

/// The hash of this entry leads nowhere where it still leads to it, and is lost.
fn drain_one<A: Allocator + Clone + Copy>(
    index: &mut Index<A>,
    losses: &mut Vec<Loss<A>, A>,
    r: u32,
    entry: &Appended,
    end: End,
)
    requires { vec_len losses.old < vec_capacity losses.old }
    ensures index { index.new ≡ without_all (leading_into r (entry.now ∷ []) index.old) index.old }
    ensures losses { losses.new.items ≡ losses.old.items ++ lost (cause_seen end) (leading_into r (entry.now ∷ []) index.old) }
    ensures len { vec_len losses.new ≤ vec_len losses.old + 1 }
    ensures capacity { vec_capacity losses.old ≤ vec_capacity losses.new }
{
    let hash = entry.hash();
    if is_at(index.get(hash), r, entry.offset()) {
        index.remove(hash);
        let scope = Scope::Hash {
            kept: hash,
            but: None,
        };
        let _ = losses.push(Loss::new(scope, cause_of_end(end)));
    }
}

/// The hashes that still lead into the region lead nowhere, and are lost, in order of offset.
fn drain_index<A: Allocator + Clone + Copy>(
    index: &mut Index<A>,
    losses: &mut Vec<Loss<A>, A>,
    r: u32,
    appended: &[Appended],
    end: End,
)
    requires { vec_len losses.old + length appended.now ≤ vec_capacity losses.old }
    ensures index { index.new ≡ without_all (leading_into r appended.now index.old) index.old }
    ensures losses { losses.new.items ≡ losses.old.items ++ lost (cause_seen end) (leading_into r appended.now index.old) }
{
    for entry in appended {
        drain_one(index, losses, r, entry, end);
    }
}

fn not_current(r: u32, current: Option<u32>) -> Option<u32>
    ensures { result ≡ not_current_seen r current }
{
    match current {
        Some(x) => { if x == r { None } else { current } }
        None => None,
    }
}

/// The region flushed first of those that don't drain yet, where fewer regions are clean than are to be.
fn oldest_if<A: Allocator + Clone + Copy>(
    regions: &[Region<A>],
    clean: &CleanRegions<A>,
    flushed: &VecDeque<u32, A>,
    flash: &FlashConfig,
) -> Option<u32>
    requires there { AllThere (length regions.now) flushed.now.items }
    requires clean { clean.now ≡ clean_from 0 regions.now }
    ensures { result ≡ (if nat_lt (count_of_clean regions.now) flash.now.clean then oldest_of regions.now flushed.now.items else None) }
{
    if (clean_count(regions, clean) as u64) < flash.clean {
        oldest(regions, flushed)
    } else {
        None
    }
}

/// The regions flushed, where one was cleared.
pub(crate) fn leave_flushed<A: Allocator>(
    flushed: &mut VecDeque<u32, A>,
    r: u32,
    cleared: Option<u32>,
)
    requires { IsDistinct nat_eq flushed.old.items }
    ensures { flushed.new.items ≡ flushed_left cleared r flushed.old.items }
{
    if cleared.is_some() {
        take_out(flushed, r);
    }
}

/// An operation is over, where one is named.
fn leave_jobs<A: Allocator>(jobs: &mut Jobs<A>, job: Option<u64>)
    ensures { jobs.new ≡ jobs_left job jobs.old }
{
    match job {
        Some(number) => jobs.remove(number),
        None => (),
    }
}

impl<A: Allocator + Clone + Copy> BlockCache<A> {
    /// This operation is over, where one is named, and what leads into this region is lost.
    pub(crate) fn end_region(
        &mut self,
        r: u32,
        end: End,
        job: Option<u64>,
    ) -> Result<Outcome<A>, AllocError>
        requires { CanEnd self.old.flash (cause_seen end) r (left_by job self.old.block) }
        ensures ok { IfOk result (λ outcome. end_region (cause_seen end) r (left_by job self.old.block) ≡ finished self.new.block outcome) }
        ensures flash { self.new.flash ≡ self.old.flash }
        ensures err { OnErr result (self.new ≡ self.old) }
    {
        let most = appended_at(&self.regions, r).len();
        let mut losses = Vec::with_capacity(self.alloc, most)?;
        add_emptied(&self.regions, &mut self.clean, r)?;
        drain_index(
            &mut self.index,
            &mut losses,
            r,
            appended_at(&self.regions, r),
            end,
        );
        take_sealed_out(&self.regions, &mut self.sealed, r);
        let cleared = empty_at(self.alloc, &mut self.regions, r);
        self.current = not_current(r, self.current);
        leave_flushed(&mut self.flushed, r, cleared);
        leave_jobs(&mut self.jobs, job);
        Ok(ended(losses, cleared))
    }

    /// The region that is reclaimed next, where fewer regions are clean than are to be.
    pub(crate) fn reclaim_next(&self) -> Option<u32>
        ensures value { result ≡ reclaim_next self.now.flash self.now.block }
        ensures ends { IfSome result (λ r. CanEnd self.now.flash (Reclaimed r) r self.now.block) }
    {
        oldest_if(&self.regions, &self.clean, &self.flushed, &self.flash)
    }

    /// Reclaims the region flushed first, where fewer regions are clean than are to be. Refused only when out of memory.
    pub(crate) fn reclaim(&mut self) -> Result<Outcome<A>, AllocError>
        ensures ok { IfOk result (λ outcome. reclaim_seen self.old.flash self.old.block ≡ finished self.new.block outcome) }
        ensures flash { self.new.flash ≡ self.old.flash }
        ensures err { OnErr result (self.new ≡ self.old) }
    {
        match self.reclaim_next() {
            Some(r) => {
                let outcome = self.end_region(r, End::Reclaimed(r), None)?;
                Ok(reclaimed(outcome, r))
            }
            None => Ok(nothing(self.alloc)),
        }
    }

    /// The write of a page of this region failed, under this number: the region ends. Refused only when out of memory.
    pub(crate) fn write_failed(&mut self, number: u64, r: u32) -> Result<Outcome<A>, AllocError>
        requires { IsWriting number r self.old.block }
        ensures ok { IfOk result (λ outcome. (bytes : List ℕ) → resume self.old.flash number (Writing r bytes) Failed self.old.block ≡ finished self.new.block outcome) }
        ensures flash { self.new.flash ≡ self.old.flash }
        ensures err { OnErr result (self.new ≡ self.old) }
    {
        let _page = self.flash.page;
        self.end_region(r, End::Fault, Some(number))
    }
}

// The end of a get in two: a question that takes all memory and changes nothing, and a step that can't be refused.
ghost use Rattle.std.specs.Prelude.{◌≡◌, Some, None, is_some, option_map, IfOk, if◌then◌else◌};
ghost use Rattle.hc_types.specs.Places.{kept_of};
ghost use Rattle.hc_engines.specs.large.Index.{place_at};
ghost use Rattle.hc_engines.specs.large.Block.{finished};
ghost use Rattle.hc_engines.specs.Seen.{answer_of};
ghost use Rattle.hc_flash.specs.Seen.{result_of};
ghost use Rattle.hc_block.specs.Endings.{CanEndRead, IsReadEnding, IsEnding, IsEndingAtOnce, read_left, without_lost, lost_at, index_without};
ghost use Rattle.hc_block.specs.Moves.{resume_by};
ghost use Rattle.hc_block.specs.Reads.{came_to};
ghost use Rattle.hc_block.specs.Turns.{IsTurnOf};
ghost use Rattle.hc_block.specs.Works.{IsReading};
ghost use Rattle.hc_block.specs.declared.turns.Turn.TheVariants.{PageRead};

use crate::block_cache::BlockCache;
use crate::came::{answer_of_read, losses_of};
use crate::ends::leave_flushed;
use crate::index::Index;
use crate::outcomes::read;
use crate::turns::Turn;
use hc_engines::{Answer, Outcome};
use hc_flash::IoResult;
use hc_region::{CleanRegions, Place, release_at, with_released};
use hc_types::Key;
use std::alloc::{AllocError, Allocator, Global};
use std::marker::Model;

/// What is left to do of a get that is over. It has all the memory that this takes.
#[derive(Drop)]
#[must_use]
pub struct Rest<A: Allocator = Global> {
    /// The kept hash that leads nowhere then.
    lost: Option<u64>,
    /// The clean regions then, where one more is clean.
    clean: Option<CleanRegions<A>>,
}

impl<A: Allocator> Model for Rest<A> {
    ghost use Rattle.hc_block.specs.Endings.{Rest as Left};

    ghost Value = { Left };

    ghost view = { λ rest. record { lost = rest.lost; clean = rest.clean } };
}

impl<A: Allocator> Rest<A> {
    /// Nothing is left to do.
    pub fn nothing() -> Rest<A>
        ensures { result ≡ record { lost = None; clean = None } }
    {
        Rest {
            lost: None,
            clean: None,
        }
    }
}

/// What a get comes to that is over, and what is left to do then.
#[derive(Drop)]
#[must_use]
pub struct Ending<A: Allocator = Global> {
    pub outcome: Outcome<A>,
    pub rest: Rest<A>,
}

impl<A: Allocator> Model for Ending<A> {
    ghost use Rattle.hc_block.specs.Endings.{Ending as Over};

    ghost Value = { Over };

    ghost view = { λ ending. record { outcome = ending.outcome; rest = ending.rest } };
}

/// The kept hash that leads nowhere where a read came to no entry.
fn lost_of<A: Allocator>(hash: u64, came: &Option<Answer<A>>) -> Option<u64>
    ensures { result ≡ lost_at (option_map answer_of came.now) hash }
{
    if came.is_none() { Some(hash) } else { None }
}

/// The region that a read lets go, where others are clean then than before: it is clean.
fn cleared_of<A: Allocator>(r: u32, clean: &Option<CleanRegions<A>>) -> Option<u32>
    ensures { result ≡ (if is_some clean.now then Some r else None) }
{
    if clean.is_some() { Some(r) } else { None }
}

/// The hash leads nowhere, where one is lost.
fn leave_index<A: Allocator>(index: &mut Index<A>, lost: Option<u64>)
    ensures { index.new ≡ index_without lost index.old }
{
    if let Some(hash) = lost {
        index.remove(hash);
    }
}

impl<A: Allocator + Clone + Copy> BlockCache<A> {
    /// How a read is over that came to this. Refused only when out of memory.
    pub(crate) fn read_ending(
        &self,
        number: u64,
        came: Option<Answer<A>>,
    ) -> Result<Ending<A>, AllocError>
        requires { IsReading number self.now.block.jobs }
        ensures { IfOk result (λ ending. IsReadEnding self.now.flash number self.now.block (option_map answer_of came) ending) }
    {
        let reading = self.jobs.reading(number);
        let r = reading.region();
        let hash = reading.hash(&self.flash);
        let losses = losses_of(self.alloc, hash, &came)?;
        let lost = lost_of(hash, &came);
        let clean = with_released(&self.regions, &self.clean, r)?;
        let cleared = cleared_of(r, &clean);
        Ok(Ending {
            outcome: read(answer_of_read(came), losses, cleared),
            rest: Rest { lost, clean },
        })
    }

    /// How a read is over at once that needs no page and came to this. Refused only when out of memory.
    pub(crate) fn ending_now(
        &self,
        hash: u64,
        came: Option<Answer<A>>,
    ) -> Result<Ending<A>, AllocError>
        ensures { IfOk result (λ ending. came_to hash self.now.block (option_map answer_of came) ≡ finished (without_lost ending.rest.lost self.now.block) ending.outcome) }
    {
        let losses = losses_of(self.alloc, hash, &came)?;
        let lost = lost_of(hash, &came);
        Ok(Ending {
            outcome: read(answer_of_read(came), losses, None),
            rest: Rest { lost, clean: None },
        })
    }

    /// The get with this number is over: its region is let go, and its index entry taken where it came to no entry. Nothing
    /// is refused.
    pub fn end(&mut self, number: u64, rest: Rest<A>)
        requires { CanEndRead number rest self.old.block }
        ensures block { self.new.block ≡ read_left number rest self.old.block }
        ensures flash { self.new.flash ≡ self.old.flash }
    {
        let r = self.jobs.reading(number).region();
        let Rest { lost, clean } = rest;
        leave_index(&mut self.index, lost);
        let cleared = release_at(self.alloc, &mut self.regions, r);
        leave_flushed(&mut self.flushed, r, cleared);
        self.clean.change(clean);
        self.jobs.remove(number);
    }

    /// A get is over that needed no page: its index entry is taken where it came to no entry. Nothing is refused.
    pub fn end_at_once(&mut self, rest: Rest<A>)
        ensures block { self.new.block ≡ without_lost rest.lost self.old.block }
        ensures flash { self.new.flash ≡ self.old.flash }
    {
        let Rest { lost, .. } = rest;
        leave_index(&mut self.index, lost);
    }

    /// How the get with this number is over if this result is handed in: nothing for what isn't a get, a number that nothing
    /// under way has, a result that isn't waited for, and a get that goes on. Nothing changes: `end` ends the get. Refused
    /// only when out of memory.
    pub fn ending(&self, number: u64, came: &IoResult<A>) -> Result<Option<Ending<A>>, AllocError>
        ensures { IfOk result (λ ending. IsEnding number self.now.block (resume_by self.now.flash number (result_of came.now) self.now.block) ending) }
    {
        match self.turn(number, came) {
            Turn::PageRead => self.page_ending(number, came),
            Turn::ReadFailed => {
                let ending = self.read_ending(number, self.failed_came(number))?;
                Ok(Some(ending))
            }
            Turn::Unknown => Ok(None),
            Turn::Written(_) => Ok(None),
            Turn::WriteFailed(_) => Ok(None),
        }
    }

    /// The same of the page of a read.
    fn page_ending(&self, number: u64, came: &IoResult<A>) -> Result<Option<Ending<A>>, AllocError>
        requires { IsTurnOf self.now.flash number self.now.block (result_of came.now) PageRead }
        ensures { IfOk result (λ ending. IsEnding number self.now.block (resume_by self.now.flash number (result_of came.now) self.now.block) ending) }
    {
        let IoResult::Page(page) = came else {
            unreachable!()
        };
        if self.read_next(number).is_some() {
            return Ok(None);
        }
        let came = self.last_came(number, page)?;
        let ending = self.read_ending(number, came)?;
        Ok(Some(ending))
    }

    /// How a get of this key is over that is started now: nothing where a page is to be read. Nothing changes: `end_at_once`
    /// ends the get. Refused only when out of memory.
    pub fn ending_at_once(&self, key: &Key<A>) -> Result<Option<Ending<A>>, AllocError>
        ensures { IfOk result (λ ending. IsEndingAtOnce self.now.flash key.now self.now.block ending) }
    {
        match self.place_of_key(key) {
            Some(place) => self.place_ending(key, place),
            None => Ok(Some(Ending {
                outcome: read(Answer::Absent, Vec::new(self.alloc), None),
                rest: Rest::nothing(),
            })),
        }
    }

    /// The same of a key that leads to this place.
    fn place_ending(&self, key: &Key<A>, place: Place) -> Result<Option<Ending<A>>, AllocError>
        requires { place_at (kept_of self.now.flash.bits key.now) self.now.block.index ≡ Some place }
        ensures { IfOk result (λ ending. IsEndingAtOnce self.now.flash key.now self.now.block ending) }
    {
        let reading = self.begun(key, place)?;
        if reading.is_waiting() {
            return Ok(None);
        }
        let came = self.came_now(reading)?;
        let ending = self.ending_now(self.hash_of(key), came)?;
        Ok(Some(ending))
    }
}

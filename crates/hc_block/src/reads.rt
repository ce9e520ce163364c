// A read that is under way: its page was read, or wasn't.
ghost use Rattle.std.specs.Prelude.{◌≡◌, ◌++◌, option_map, IfSome, IfOk, OnOk, OnErr};
ghost use Rattle.hc_types.specs.Places.{kept_of};
ghost use Rattle.hc_engines.specs.large.Block.{finished, end_job};
ghost use Rattle.hc_engines.specs.large.Steps.{read_next, let_go, got_page, failed_read};
ghost use Rattle.hc_engines.specs.Seen.{answer_of};
ghost use Rattle.hc_block.specs.Moves.{moved_with};
ghost use Rattle.hc_engines.specs.large.Unread.{read_on};
ghost use Rattle.hc_block.specs.Works.{reading_at, IsReading};
ghost use Rattle.hc_block.specs.Reads.{came_by, came_failed as came_failed_seen, came_to, next_of, CanReadOn};

use crate::block_cache::BlockCache;
use crate::endings::Ending;
use crate::steps::Step;
use bytes::Bytes;
use hc_engines::{Answer, Outcome, SharedOrder};
use std::alloc::{AllocError, Allocator};

impl<A: Allocator + Clone + Copy> BlockCache<A> {
    /// The device's page that a read reads next, where there is one.
    pub(crate) fn read_next(&self, number: u64) -> Option<u32>
        requires { IsReading number self.now.block.jobs }
        ensures value { result ≡ next_of self.now.flash (reading_at number self.now.block.jobs) }
        ensures can { IfSome result (λ page. CanReadOn self.now.flash number self.now.block) }
    {
        self.jobs.reading(number).next_page(&self.flash)
    }

    /// A read goes on with its next page.
    fn read_on(&mut self, number: u64, page: &Bytes<A>) -> Result<(), AllocError>
        requires { CanReadOn self.old.flash number self.old.block }
        ensures ok { OnOk result ((read_next self.old.flash number (read_on (reading_at number self.old.block.jobs) page.now) (end_job number self.old.block)).state ≡ self.new.block) }
        ensures flash { self.new.flash ≡ self.old.flash }
        ensures err { OnErr result (self.new ≡ self.old) }
    {
        self.jobs.take_page(number, page)?;
        Ok(())
    }

    /// What a read came to with its last page.
    pub(crate) fn last_came(
        &self,
        number: u64,
        page: &Bytes<A>,
    ) -> Result<Option<Answer<A>>, AllocError>
        requires { IsReading number self.now.block.jobs }
        ensures { IfOk result (λ came. option_map answer_of came ≡ came_by self.now.flash (reading_at number self.now.block.jobs).key (reading_at number self.now.block.jobs).place ((reading_at number self.now.block.jobs).got ++ page.now) (reading_at number self.now.block.jobs).rest self.now.block.index) }
    {
        self.jobs
            .reading(number)
            .came_with(self.alloc, &self.index, &self.flash, page)
    }

    /// What a read came to where a page wasn't read.
    pub(crate) fn failed_came(&self, number: u64) -> Option<Answer<A>>
        requires { IsReading number self.now.block.jobs }
        ensures { option_map answer_of result ≡ came_failed_seen self.now.flash (reading_at number self.now.block.jobs).key (reading_at number self.now.block.jobs).place self.now.block.index }
    {
        self.jobs
            .reading(number)
            .came_failed(&self.index, &self.flash)
    }

    /// A read is over, and lets its region go.
    fn leave(&mut self, number: u64, came: Option<Answer<A>>) -> Result<Outcome<A>, AllocError>
        requires { IsReading number self.old.block.jobs }
        ensures ok { IfOk result (λ outcome. let_go (reading_at number self.old.block.jobs).place.region (came_to (kept_of self.old.flash.bits (reading_at number self.old.block.jobs).key) (end_job number self.old.block) (option_map answer_of came)) ≡ finished self.new.block outcome) }
        ensures flash { self.new.flash ≡ self.old.flash }
        ensures err { OnErr result (self.new ≡ self.old) }
    {
        let Ending { outcome, rest } = self.read_ending(number, came)?;
        self.end(number, rest);
        Ok(outcome)
    }

    /// A page of a read was read. Refused only when out of memory.
    pub(crate) fn page_read(&mut self, number: u64, page: &Bytes<A>) -> Result<Step<A>, AllocError>
        requires { IsReading number self.old.block.jobs }
        ensures ok { IfOk result (λ step. got_page self.old.flash number (reading_at number self.old.block.jobs) page.now (end_job number self.old.block) ≡ moved_with self.new.block step) }
        ensures flash { self.new.flash ≡ self.old.flash }
        ensures err { OnErr result (self.new ≡ self.old) }
    {
        match self.read_next(number) {
            Some(order) => {
                self.read_on(number, page)?;
                Ok(Step::Io(SharedOrder::Read(order)))
            }
            None => {
                let came = self.last_came(number, page)?;
                let outcome = self.leave(number, came)?;
                Ok(Step::Done(outcome))
            }
        }
    }

    /// A page of a read wasn't read. Refused only when out of memory.
    pub(crate) fn read_failed(&mut self, number: u64) -> Result<Outcome<A>, AllocError>
        requires { IsReading number self.old.block.jobs }
        ensures ok { IfOk result (λ outcome. let_go (reading_at number self.old.block.jobs).place.region (failed_read self.old.flash (reading_at number self.old.block.jobs) (end_job number self.old.block)) ≡ finished self.new.block outcome) }
        ensures flash { self.new.flash ≡ self.old.flash }
        ensures err { OnErr result (self.new ≡ self.old) }
    {
        let came = self.failed_came(number);
        self.leave(number, came)
    }
}

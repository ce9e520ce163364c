// The operations that are under way.
ghost use Rattle.std.specs.Prelude.{◌≡◌, ◌<◌, ◌^◌, [], length, option_map, is_some, true, Some, OnOk, OnErr};
ghost use Rattle.hc_engines.specs.large.Block.{Getting, work_of, without_job, job_added};
ghost use Rattle.hc_engines.specs.large.Unread.{read_on};
ghost use Rattle.hc_block.specs.Works.{work_seen, reading_in, reading_at, IsReading, IsFreeIn};

use crate::reading::Reading;
use bytes::Bytes;
use std::alloc::{AllocError, Allocator, Global};
use std::collections::BTreeMap;
use std::marker::Model;

/// What is under way.
#[derive(Drop)]
pub(crate) enum Work<A: Allocator = Global> {
    /// The region's next page is out, with these bytes.
    Writing { region: u32, bytes: Bytes<A> },
    /// A page is read for a get.
    Getting(Reading<A>),
}

impl<A: Allocator> Work<A> {
    /// A page of its read was read.
    fn take_page(&mut self, page: &Bytes<A>) -> Result<(), AllocError>
        requires reading { work_seen self.old ≡ Getting (reading_in (Some (work_seen self.old))) }
        requires small { (reading_in (Some (work_seen self.old))).next < 65536 }
        ensures ok { OnOk result (work_seen self.new ≡ Getting (read_on (reading_in (Some (work_seen self.old))) page.now)) }
        ensures err { OnErr result (self.new ≡ self.old) }
    {
        match self {
            Work::Getting(reading) => reading.take_page(page),
            Work::Writing { .. } => unreachable!(),
        }
    }
}

/// The operations under way by their numbers. Contracts see the list of them, in order of their numbers.
#[derive(Drop)]
pub(crate) struct Jobs<A: Allocator = Global> {
    works: BTreeMap<u64, Work<A>, A>,
}

impl<A: Allocator> Model for Jobs<A> {
    ghost use Rattle.std.specs.Prelude.{List};
    ghost use Rattle.hc_engines.specs.large.Block.{Job};
    ghost use Rattle.hc_block.specs.Works.{jobs_of};

    ghost Value = { List Job };

    ghost view = { λ jobs. jobs_of jobs.works.entries };
}

impl<A: Allocator> Jobs<A> {
    /// Nothing is under way.
    pub(crate) fn new(alloc: A) -> Jobs<A>
        ensures { result ≡ [] }
    {
        Jobs {
            works: BTreeMap::new(alloc),
        }
    }

    /// How many are under way.
    pub(crate) fn len(&self) -> usize
        ensures value { result ≡ length self.now }
        ensures small { result < 2 ^ 63 }
    {
        self.works.len()
    }

    /// What is under way with this number.
    pub(crate) fn get(&self, number: u64) -> Option<&Work<A>>
        ensures { option_map (λ w. work_seen w.now) result ≡ work_of number self.now }
    {
        self.works.get(&number)
    }

    /// The read with this number.
    pub(crate) fn reading(&self, number: u64) -> &Reading<A>
        requires { IsReading number self.now }
        ensures { result.now ≡ reading_at number self.now }
    {
        match self.get(number) {
            Some(Work::Getting(reading)) => reading,
            Some(Work::Writing { .. }) => unreachable!(),
            None => unreachable!(),
        }
    }

    /// A page of the read with this number was read. Refused only when out of memory.
    pub(crate) fn take_page(&mut self, number: u64, page: &Bytes<A>) -> Result<(), AllocError>
        requires reading { IsReading number self.old }
        requires small { (reading_at number self.old).next < 65536 }
        ensures ok { OnOk result (self.new ≡ job_added number (Getting (read_on (reading_at number self.old) page.now)) (without_job number self.old)) }
        ensures err { OnErr result (self.new ≡ self.old) }
    {
        match self.works.get_mut(&number) {
            Some(work) => work.take_page(page),
            None => unreachable!(),
        }
    }

    /// The operation with this number goes on with this.
    pub(crate) fn replace(&mut self, number: u64, work: Work<A>)
        requires { is_some (work_of number self.old) ≡ true }
        ensures { self.new ≡ job_added number (work_seen work) (without_job number self.old) }
    {
        match self.works.get_mut(&number) {
            Some(place) => *place = work,
            None => unreachable!(),
        }
    }

    /// The operation with this number is over.
    pub(crate) fn remove(&mut self, number: u64)
        ensures { self.new ≡ without_job number self.old }
    {
        let _len = self.works.len();
        let _ = self.works.remove(&number);
    }
}

impl<A: Allocator + Clone> Jobs<A> {
    /// An operation begins under a number that no other has. Refused only when out of memory.
    pub(crate) fn insert(&mut self, number: u64, work: Work<A>) -> Result<(), AllocError>
        requires { IsFreeIn number self.old }
        ensures ok { OnOk result (self.new ≡ job_added number (work_seen work) self.old) }
        ensures err { OnErr result (self.new ≡ self.old) }
    {
        match self.works.insert(number, work) {
            Ok(_) => Ok(()),
            Err(_) => Err(AllocError),
        }
    }
}

// The worker of a cache: it takes jobs, does their operations on the device, and hands in what came of them.
use crate::metered::Metered;
use hc_core::{Core, Counting, IoResult, Order, Refusal, Take, Unfinished};
use hc_file::{FileDevice, OpenError, open};
use hc_paged::{Checked, Device, SipHash, operate};
use std::alloc::Global;
use std::fs::File;
use std::io::{self, ErrorKind};
use std::rt::Files;

// As many pages as the cache's flash has, and their bytes.
const PAGES: u32 = 16;

const PAGE: u32 = 512;

// A file, and the digest of each of its pages: what the disk lost or tore isn't served. Over it a meter of the service's own.
type Disk = Metered<Checked<FileDevice<File>, SipHash>>;

// The device does one operation. One that it can't do for lack of memory has failed: the cache does without it.
fn make(device: &mut Disk, order: &Order) -> IoResult {
    match operate(device, order) {
        Ok(came) => came,
        Err(_) => IoResult::Failed,
    }
}

/// The device, and the result, with its job, that couldn't be handed in yet for lack of memory.
#[derive(Drop)]
pub struct Worker {
    device: Disk,
    owed: Option<(u64, IoResult)>,
}

impl Worker {
    /// The worker of such a cache, whose pages are in the file of this name. What an earlier run left there is written over.
    pub fn new<R: Files<File = File>>(
        rt: &R,
        alloc: Global,
        path: &str,
    ) -> Result<Worker, OpenError> {
        let file = open(rt, alloc, path, PAGES, PAGE)?;
        match Checked::new(alloc, file, SipHash, PAGES) {
            Ok(device) => Ok(Worker {
                device: Metered::new(device),
                owed: None,
            }),
            Err(_) => Err(OpenError::System(io::Error::from(ErrorKind::OutOfMemory))),
        }
    }

    /// How often the device failed so far: not at all, unless the disk is full or broken.
    pub fn failures(&self) -> u64 {
        self.device.failures()
    }

    /// How many pages were read so far, and how many written.
    pub fn meter(&self) -> (u64, u64) {
        (self.device.reads(), self.device.writes())
    }

    // Hands in what came of a job's operation: what is next of the job.
    fn hand_in(
        &mut self,
        cache: &mut Core<Counting>,
        job: u64,
        came: IoResult,
    ) -> Result<Take, Refusal> {
        match cache.finish(job, came) {
            Ok(take) => Ok(take),
            Err(Unfinished { refusal, came }) => {
                self.owed = Some((job, came));
                Err(refusal)
            }
        }
    }

    // Does a job to its end. Answers whether there was one.
    fn complete(&mut self, cache: &mut Core<Counting>, first: Take) -> Result<bool, Refusal> {
        let mut take = first;
        for _ in 0..u64::MAX {
            let (job, came) = match &take {
                Take::Idle => return Ok(false),
                Take::Finished => return Ok(true),
                Take::Work(job, order) => (*job, make(&mut self.device, order)),
            };
            take = self.hand_in(cache, job, came)?;
        }
        Ok(true)
    }

    // Hands in what couldn't be handed in before, and does that job to its end.
    fn settle(&mut self, cache: &mut Core<Counting>) -> Result<(), Refusal> {
        if let Some((job, came)) = self.owed.take() {
            let take = self.hand_in(cache, job, came)?;
            self.complete(cache, take)?;
        }
        Ok(())
    }

    /// Does all that there is to do: regions are made clean, what left memory is written, and what calls wait for is read.
    pub fn work(&mut self, cache: &mut Core<Counting>) -> Result<(), Refusal> {
        self.settle(cache)?;
        for _ in 0..u64::MAX {
            cache.reclaim()?;
            let write = cache.writer_take()?;
            let wrote = self.complete(cache, write)?;
            let fill = cache.filler_take()?;
            let filled = self.complete(cache, fill)?;
            if !wrote && !filled {
                break;
            }
        }
        Ok(())
    }
}

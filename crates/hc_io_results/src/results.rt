// Results of device operations, until they are handed in.
ghost use Rattle.std.specs.Prelude.{◌≡◌, ◌==◌, ◌≤◌, ℕ, [], None, Some, option_map, is_some, if◌then◌else◌, IfOk, OnOk, OnErr};
ghost use Rattle.hc_flash.specs.Seen.{result_of};
ghost use Rattle.hc_machine.specs.World.{result_at};
ghost use Rattle.hc_io_results.specs.Waiting.{IsPage};

use bytes::Bytes;
use hc_flash::IoResult;
use std::alloc::{AllocError, Allocator, Global};
use std::collections::HashMap;
use std::hash::{BuildHasherDefault, FoldHasher};
use std::marker::Model;

/// The results that wait, each by the number of its job. Contracts see them, in any order, and for how many more there is room.
#[derive(Drop)]
pub struct Results<A: Allocator = Global> {
    waiting: HashMap<u64, IoResult<A>, BuildHasherDefault<FoldHasher>, A>,
}

impl<A: Allocator> Model for Results<A> {
    ghost use Rattle.std.specs.HashMap.{spare};
    ghost use Rattle.hc_io_results.specs.Waiting.{Waiting, results_of};

    ghost Value = { Waiting };

    ghost view = { λ r. record { results = results_of r.waiting.entries; room = spare r.waiting } };
}

impl<A: Allocator> Results<A> {
    /// None waits.
    #[must_use]
    pub fn new(alloc: A) -> Results<A>
        ensures { result.results ≡ [] }
    {
        Results {
            waiting: HashMap::new(alloc),
        }
    }

    /// Whether the job's result waits.
    #[must_use]
    pub fn has(&self, job: u64) -> bool
        ensures { result ≡ is_some (result_at job self.now.results) }
    {
        self.waiting.contains_key(&job)
    }

    /// The result of the job, if it waits.
    #[must_use]
    pub fn get(&self, job: u64) -> Option<&IoResult<A>>
        ensures { option_map (λ r. result_of r.now) result ≡ result_at job self.now.results }
    {
        self.waiting.get(&job)
    }

    /// The job's result, which doesn't wait any longer.
    pub fn take(&mut self, job: u64) -> Option<IoResult<A>>
        ensures taken { option_map result_of result ≡ result_at job self.old.results }
        ensures others { (every : ℕ) → result_at every self.new.results ≡ (if job == every then None else result_at every self.old.results) }
    {
        self.waiting.remove(&job)
    }

    /// The job's result doesn't wait any longer.
    pub fn forget(&mut self, job: u64)
        ensures { (every : ℕ) → result_at every self.new.results ≡ (if job == every then None else result_at every self.old.results) }
    {
        let _ = self.waiting.remove(&job);
    }
}

impl<A: Allocator + Clone> Results<A> {
    /// Makes room for one more.
    pub fn reserve(&mut self) -> Result<(), AllocError>
        ensures ok { OnOk result (1 ≤ self.new.room) }
        ensures same { (every : ℕ) → result_at every self.new.results ≡ result_at every self.old.results }
    {
        self.waiting.reserve(1)
    }

    /// The job's result waits.
    pub fn put(&mut self, job: u64, came: IoResult<A>)
        requires room { 1 ≤ self.old.room }
        ensures { (every : ℕ) → result_at every self.new.results ≡ (if job == every then Some (result_of came) else result_at every self.old.results) }
    {
        match self.waiting.insert(job, came) {
            Ok(_) => {}
            Err(_) => unreachable!(),
        }
    }
}

/// The same result, for another owner. Only that of a page that was read may be refused, for lack of memory.
pub fn copy<A: Allocator>(came: &IoResult<A>) -> Result<IoResult<A>, AllocError>
    ensures ok { IfOk result (λ copy. result_of copy ≡ result_of came.now) }
    ensures err { OnErr result (IsPage (result_of came.now)) }
{
    match came {
        IoResult::Page(bytes) => {
            let bytes: Bytes<A> = bytes.clone()?;
            Ok(IoResult::Page(bytes))
        }
        IoResult::Written => Ok(IoResult::Written),
        IoResult::Failed => Ok(IoResult::Failed),
    }
}

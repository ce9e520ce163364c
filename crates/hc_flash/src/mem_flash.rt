// A device in memory.
ghost use Rattle.std.specs.Prelude.{◌≡◌, ◌+◌, ◌<◌, ◌≤◌, ◌⊎◌, ℕ, Some, None, IfOk, OnOk, IsErrOf, length};
ghost use Rattle.hc_flash.specs.Answers.{failures_in};
ghost use Rattle.hc_flash.specs.Devices.{held_by};

use crate::flash::{Flash, FlashError};
use bytes::Bytes;
use std::alloc::{AllocError, Allocator, Global};
use std::collections::HashMap;
use std::hash::{BuildHasherDefault, FoldHasher};
use std::marker::Model;

/// A device in memory. A page is kept as it is first written, and reads share it: none copies a byte.
///
/// A page outside the device, and bytes of another length than a page's, are failures that are counted. So is a read
/// of a page of which nothing is known.
#[derive(Drop)]
pub struct MemFlash<A: Allocator = Global> {
    alloc: A,
    written: HashMap<u32, Bytes<A>, BuildHasherDefault<FoldHasher>, A>,
    pages: u32,
    page_size: usize,
    failures: u64,
}

impl<A: Allocator> Model for MemFlash<A> {
    ghost use Rattle.hc_flash.specs.Devices.{Memory};

    ghost Value = { Memory };

    ghost view = { λ flash. record { written = flash.written.entries; pages = flash.pages; page_size = flash.page_size; failed = flash.failures } };
}

impl<A: Allocator + Clone> MemFlash<A> {
    /// A device of so many pages, of `page_size` bytes each. Nothing is known of any of them yet.
    pub fn new(alloc: A, pages: u32, page_size: usize) -> Result<MemFlash<A>, AllocError>
        ensures unknown { IfOk result (λ flash. (page : ℕ) → held_by flash page ≡ None) }
        ensures none_failed { IfOk result (λ flash. flash.failed ≡ 0) }
        ensures size { IfOk result (λ flash. (flash.pages ≡ pages) × (flash.page_size ≡ page_size)) }
    {
        let written = HashMap::new(alloc.clone()?);
        Ok(MemFlash {
            alloc,
            written,
            pages,
            page_size,
            failures: 0,
        })
    }
}

impl<A: Allocator> MemFlash<A> {
    /// Nothing is known of the page any more, as after a write of it that failed. No failure is counted: who fails an
    /// operation before it comes to the device says so here, where that was a write.
    pub fn forget(&mut self, page: u32)
        ensures lost { held_by self.new page ≡ None }
        ensures others { (other : ℕ) → ¬ (other ≡ page) → held_by self.new other ≡ held_by self.old other }
        ensures size { (self.new.pages ≡ self.old.pages) × (self.new.page_size ≡ self.old.page_size) }
        ensures not_counted { self.new.failed ≡ self.old.failed }
    {
        self.written.remove(&page);
    }
}

impl<A: Allocator + Clone> Flash<A> for MemFlash<A> {
    ghost held = { held_by };

    ghost failed = { λ flash. flash.failed };

    fn read(&mut self, page: u32) -> Result<Bytes<A>, FlashError>
        ensures as_written { IfOk result (λ bytes. held_by self.old page ≡ Some bytes) }
        ensures device { IsErrOf result FlashError.Device → held_by self.old page ≡ None }
        ensures same { (every : ℕ) → held_by self.new every ≡ held_by self.old every }
        ensures size { (self.new.pages ≡ self.old.pages) × (self.new.page_size ≡ self.old.page_size) }
        ensures counted { self.new.failed ≡ self.old.failed + failures_in result }
        ensures count_is_full { self.old.failed ≡ u64.MAX → IsErrOf result FlashError.NoMemory }
    {
        if self.failures == u64::MAX {
            return Err(FlashError::NoMemory);
        }
        match self.written.get(&page) {
            Some(bytes) => Ok(bytes.clone()?),
            None => {
                self.failures += 1;
                Err(FlashError::Device)
            }
        }
    }

    fn write(&mut self, page: u32, bytes: &[u8]) -> Result<(), FlashError>
        ensures written { OnOk result (held_by self.new page ≡ Some bytes.now) }
        ensures fits { OnOk result ((page < self.old.pages) × (length bytes.now ≡ self.old.page_size)) }
        ensures device { IsErrOf result FlashError.Device → (self.old.pages ≤ page) ⊎ ¬ (length bytes.now ≡ self.old.page_size) }
        ensures lost { IsErrOf result FlashError.Device → held_by self.new page ≡ None }
        ensures kept { IsErrOf result FlashError.NoMemory → held_by self.new page ≡ held_by self.old page }
        ensures others { (other : ℕ) → ¬ (other ≡ page) → held_by self.new other ≡ held_by self.old other }
        ensures size { (self.new.pages ≡ self.old.pages) × (self.new.page_size ≡ self.old.page_size) }
        ensures counted { self.new.failed ≡ self.old.failed + failures_in result }
        ensures count_is_full { self.old.failed ≡ u64.MAX → IsErrOf result FlashError.NoMemory }
    {
        if self.failures == u64::MAX {
            return Err(FlashError::NoMemory);
        }
        if page >= self.pages || bytes.len() != self.page_size {
            self.written.remove(&page);
            self.failures += 1;
            return Err(FlashError::Device);
        }
        let bytes = Bytes::copy_from_slice(self.alloc.clone()?, bytes)?;
        self.written.insert(page, bytes)?;
        Ok(())
    }

    fn failures(&self) -> u64 {
        self.failures
    }
}

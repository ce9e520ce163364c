// A device in a file.
ghost use Rattle.std.specs.Prelude.{◌≡◌, ◌+◌, ◌*◌, ◌<◌, ◌≤◌, ◌⊎◌, ℕ, IfOk, OnOk, IsErrOf, length};
ghost use Rattle.hc_flash.specs.Answers.{failures_in};

use bytes::Bytes;
use hc_flash::FlashError;
use hc_paged::Device;
use std::alloc::{Allocator, Global};
use std::fs::File;
use std::marker::Model;
use std::os::unix::fs::FileExt;
use std::{fmt, io};

/// A device whose pages lie one behind the other in a file or on a block device, which is read and written at their places.
/// Nothing is promised of the bytes that it answers: others may write to the file, and a disk may lose what was written to
/// it. No page is synced: what was written is the system's to bring to the disk, and nothing is to survive the cache.
///
/// A page outside the device, bytes of another length than a page's, and a page that the file didn't give or take whole
/// are failures that are counted. A read allocates the page and its count of owners, and copies nothing after the system
/// did.
#[derive(Drop)]
pub struct FileDevice<T: FileExt + Drop, A: Allocator = Global> {
    alloc: A,
    file: T,
    pages: u32,
    page_size: u32,
    // the bytes before the first page
    before: u32,
    failures: u64,
}

impl<T: FileExt + Drop, A: Allocator> Model for FileDevice<T, A> {
    ghost use Rattle.hc_file.specs.Devices.{OnFile};

    ghost Value = { OnFile };

    ghost view = { λ device. record { pages = device.pages; page_size = device.page_size; before = device.before; failed = device.failures } };
}

impl<T: FileExt + Drop, A: Allocator + Clone> FileDevice<T, A> {
    /// The first pages of this file, so many, of `page_size` bytes each. Nothing of the file is looked at, and no head stands
    /// before them: `open` sees whose a file is.
    pub fn new(alloc: A, file: T, pages: u32, page_size: u32) -> FileDevice<T, A>
        ensures { result ≡ record { pages = pages; page_size = page_size; before = 0; failed = 0 } }
    {
        FileDevice::behind(0, alloc, file, pages, page_size)
    }

    /// The pages behind so many bytes of this file.
    pub(crate) fn behind(
        before: u32,
        alloc: A,
        file: T,
        pages: u32,
        page_size: u32,
    ) -> FileDevice<T, A>
        ensures { result ≡ record { pages = pages; page_size = page_size; before = before; failed = 0 } }
    {
        FileDevice {
            alloc,
            file,
            pages,
            page_size,
            before,
            failures: 0,
        }
    }
}

impl<T: FileExt + Drop, A: Allocator> FileDevice<T, A> {
    /// Where a page begins in the file, in bytes.
    fn offset(&self, page: u32) -> u64
        ensures { result ≡ self.now.before + page * self.now.page_size }
    {
        u64::from(self.before) + u64::from(page) * u64::from(self.page_size)
    }

    /// The file.
    #[must_use]
    pub fn into_file(self) -> T {
        let FileDevice {
            alloc: _,
            file,
            pages: _,
            page_size: _,
            before: _,
            failures: _,
        } = self;
        file
    }
}

impl<A: Allocator + Clone> FileDevice<File, A> {
    /// Another handle of the same file, with a count of its own, so that several operations can be under way at once. The
    /// file stays locked as long as one of its handles is there.
    pub fn try_clone(&self) -> io::Result<FileDevice<File, A>>
        ensures { IfOk result (λ device. device ≡ record self.now { failed = 0 }) }
    {
        let alloc = self.alloc.clone()?;
        let file = self.file.try_clone()?;
        Ok(FileDevice {
            alloc,
            file,
            pages: self.pages,
            page_size: self.page_size,
            before: self.before,
            failures: 0,
        })
    }
}

impl<T: FileExt + Drop, A: Allocator + Clone> Device<A> for FileDevice<T, A> {
    ghost use Rattle.hc_file.specs.Operations.{GivesPages};

    ghost failed = { λ device. device.failed };

    ghost gives = { λ before order came _. GivesPages before order came };

    fn read(&mut self, page: u32) -> Result<Bytes<A>, FlashError>
        ensures whole { IfOk result (λ bytes. length bytes ≡ self.old.page_size) }
        ensures inside { OnOk result (page < self.old.pages) }
        ensures size { (self.new.pages ≡ self.old.pages) × (self.new.page_size ≡ self.old.page_size) }
        ensures place { self.new.before ≡ self.old.before }
        ensures counted { self.new.failed ≡ self.old.failed + failures_in result }
        ensures count_is_full { self.old.failed ≡ u64.MAX → IsErrOf result FlashError.NoMemory }
    {
        if self.failures == u64::MAX {
            return Err(FlashError::NoMemory);
        }
        if page >= self.pages {
            self.failures += 1;
            return Err(FlashError::Device);
        }
        let mut buffer = vec![in self.alloc.clone()?; 0u8; self.page_size as usize]?;
        if self
            .file
            .read_exact_at(&mut buffer, self.offset(page))
            .is_err()
        {
            self.failures += 1;
            return Err(FlashError::Device);
        }
        Ok(Bytes::from_vec(buffer)?)
    }

    fn write(&mut self, page: u32, bytes: &[u8]) -> Result<(), FlashError>
        ensures fits { OnOk result ((page < self.old.pages) × (length bytes.now ≡ self.old.page_size)) }
        ensures size { (self.new.pages ≡ self.old.pages) × (self.new.page_size ≡ self.old.page_size) }
        ensures place { self.new.before ≡ self.old.before }
        ensures counted { self.new.failed ≡ self.old.failed + failures_in result }
        ensures count_is_full { self.old.failed ≡ u64.MAX → IsErrOf result FlashError.NoMemory }
    {
        if self.failures == u64::MAX {
            return Err(FlashError::NoMemory);
        }
        let fits = page < self.pages && bytes.len() == self.page_size as usize;
        if !fits || self.file.write_all_at(bytes, self.offset(page)).is_err() {
            self.failures += 1;
            return Err(FlashError::Device);
        }
        Ok(())
    }

    fn failures(&self) -> u64 {
        self.failures
    }
}

/// A device shows as its size.
impl<T: FileExt + Drop, A: Allocator> fmt::Debug for FileDevice<T, A> {
    fn fmt<W: fmt::Write>(&self, f: &mut fmt::Formatter<W>) -> fmt::Result {
        write!(
            f,
            "FileDevice({} pages of {} bytes)",
            self.pages, self.page_size
        )
    }
}

// How a device in a file is opened.
ghost use Rattle.std.specs.Prelude.{◌≡◌, ◌*◌, ◌⊎◌, IfOk, IsErrOf};

use crate::file::FileDevice;
use crate::head::{self, HEAD, Owner};
use crate::in_use::is_in_use;
use std::alloc::Allocator;
use std::fs::{File, Files, Metadata, OpenOptions, TryLockError};
use std::io;
use std::io::{Seek, SeekFrom};
use std::os::unix::fs::{FileTypeExt, MetadataExt, OpenOptionsExt};
use thiserror::Error;

/// Why a device wasn't opened.
#[derive(Debug, Drop, Error)]
pub enum OpenError {
    /// No page was asked for, or pages of no byte.
    #[error("a device has at least one page, and a page at least one byte")]
    NoPage,
    /// What has this name is neither a file nor a block device.
    #[error("it is neither a file nor a block device")]
    OtherKind,
    /// It is locked: another has it open as a device, in this process or in another one. Or it is a block device that is
    /// mounted, swapped to, or a part of another one (a volume, a RAID).
    #[error("it is in use")]
    InUse,
    /// It has something, and nothing in it says that a cache wrote it: it is left as it was. `overwrite` takes it all the same.
    #[error("it has something that isn't a cache's")]
    NotOurs,
    /// The block device has fewer bytes than the device.
    #[error("the block device is too small")]
    TooSmall,
    /// The system refused a call.
    #[error("{0}")]
    System(io::Error),
}

impl From<io::Error> for OpenError {
    fn from(error: io::Error) -> OpenError {
        OpenError::System(error)
    }
}

/// How many bytes so many pages have.
fn length_of(pages: u32, page_size: u32) -> Result<u64, OpenError>
    ensures length { IfOk result (λ length. length ≡ pages * page_size) }
    ensures no_page { (pages ≡ 0) ⊎ (page_size ≡ 0) → IsErrOf result OpenError.NoPage }
{
    if pages == 0 || page_size == 0 {
        return Err(OpenError::NoPage);
    }
    Ok(u64::from(pages) * u64::from(page_size))
}

/// Locks the file, for as long as it is open.
fn lock(file: &File) -> Result<(), OpenError> {
    match file.try_lock() {
        Ok(()) => Ok(()),
        Err(TryLockError::WouldBlock) => Err(OpenError::InUse),
        Err(TryLockError::Error(error)) => Err(OpenError::System(error)),
    }
}

/// Whether there is anything in what isn't ours. A file that has room on the disk is taken to have something, since a hole in
/// it can't be told from zeros.
fn has_anything(file: &File, found: &Metadata, length: u64) -> io::Result<bool> {
    if found.is_file() {
        return Ok(length > 0 && (found.blocks() > 0 || head::has_data(file, 0, length.min(HEAD))?));
    }
    head::has_anything(file, length)
}

/// Sees that it is ours to write, or taken whatever it has, and has so many bytes and no seal. A file gets that length, unless it
/// is one of ours and has it: it takes room on the disk only as it is written.
fn take<R: Files<File = File>, A: Allocator + Clone>(
    rt: &R,
    alloc: A,
    file: &mut File,
    wanted: u64,
    overwrites: bool,
) -> Result<(), OpenError> {
    let found = file.metadata()?;
    let is_device = found.file_type().is_block_device();
    if !is_device && !found.is_file() {
        return Err(OpenError::OtherKind);
    }
    if is_device && is_in_use(rt, alloc, found.rdev())? {
        return Err(OpenError::InUse);
    }
    let length = file.seek(SeekFrom::End(0))?;
    if is_device && length < wanted {
        return Err(OpenError::TooSmall);
    }
    let owner = head::owner_of(file, length)?;
    let is_ours = owner != Owner::Other;
    if !is_ours && !overwrites && has_anything(file, &found, length)? {
        return Err(OpenError::NotOurs);
    }
    if owner == Owner::Sealed {
        head::take_seal(file)?;
    }
    if !is_device && (!is_ours || length != wanted) {
        file.set_len(0)?;
        file.set_len(wanted)?;
    }
    Ok(())
}

/// Opens it so, and writes its head.
fn open_as<R: Files<File = File>, A: Allocator + Clone>(
    rt: &R,
    alloc: A,
    path: &str,
    pages: u32,
    page_size: u32,
    overwrites: bool,
) -> Result<FileDevice<File, A>, OpenError>
    ensures device { IfOk result (λ device. device ≡ record { pages = pages; page_size = page_size; before = 4096; failed = 0 }) }
    ensures no_page { (pages ≡ 0) ⊎ (page_size ≡ 0) → IsErrOf result OpenError.NoPage }
{
    let length = length_of(pages, page_size)?;
    let mut options = OpenOptions::new();
    options.read(true).write(true).create(true).mode(0o600);
    let mut file = options.open(rt, path)?;
    lock(&file)?;
    let own = alloc
        .clone()
        .map_err(|_| io::Error::from(io::ErrorKind::OutOfMemory))?;
    take(rt, own, &mut file, HEAD + length, overwrites)?;
    head::write(&file, pages, page_size)?;
    Ok(FileDevice::behind(HEAD as u32, alloc, file, pages, page_size))
}

/// Opens the file or block device of this name as a device of so many pages, of `page_size` bytes each, and locks it for as
/// long as it is open. The lock is the system's advisory one: it keeps out whoever opens a device so, and nobody else.
///
/// A file that isn't there is made, for its owner alone (mode 0600). One that is there, and a block device, is taken where it
/// has nothing yet, or a head before its pages says that a cache wrote it (docs/FORMATS.md); such a file of another length is
/// made anew. Any other is refused with `NotOurs` and left as it was. Of a block device the first and the last MiB are looked
/// at; one that is mounted, swapped to, or a part of another one is refused with `InUse`.
///
/// Nothing of an earlier run is served: a cache reads no page that it didn't write, and a `Checked` answers none. A seal in the
/// head, which says that a cache of the Cargo crate kept what it had, is taken away first, and that is synced: so nothing that it
/// kept is found behind changed pages, also where the machine fails. Where the system refuses to write or to sync that, the device
/// isn't opened (`System`), and the next open does it again. Nothing else is synced.
pub fn open<R: Files<File = File>, A: Allocator + Clone>(
    rt: &R,
    alloc: A,
    path: &str,
    pages: u32,
    page_size: u32,
) -> Result<FileDevice<File, A>, OpenError>
    ensures device { IfOk result (λ device. device ≡ record { pages = pages; page_size = page_size; before = 4096; failed = 0 }) }
    ensures no_page { (pages ≡ 0) ⊎ (page_size ≡ 0) → IsErrOf result OpenError.NoPage }
{
    open_as(rt, alloc, path, pages, page_size, false)
}

/// As `open`, whatever the file or block device has: that is lost. One that is in use is refused all the same. (A disk of whose
/// partitions one is in use isn't told: name the partition.)
pub fn overwrite<R: Files<File = File>, A: Allocator + Clone>(
    rt: &R,
    alloc: A,
    path: &str,
    pages: u32,
    page_size: u32,
) -> Result<FileDevice<File, A>, OpenError>
    ensures device { IfOk result (λ device. device ≡ record { pages = pages; page_size = page_size; before = 4096; failed = 0 }) }
    ensures no_page { (pages ≡ 0) ⊎ (page_size ≡ 0) → IsErrOf result OpenError.NoPage }
{
    open_as(rt, alloc, path, pages, page_size, true)
}

// Whether a block device is in use: mounted, swapped to, or a part of another device.
use std::alloc::Allocator;
use std::fs::{self, File, Files};
use std::io::{self, ErrorKind, Read};
use std::os::unix::fs::{FileTypeExt, MetadataExt};

/// The kernel's list of what is mounted for this process: of each its device's two numbers, with a colon between.
const MOUNTS: &str = "/proc/self/mountinfo";

/// Its list of what memory is swapped to: a line each, first a name.
const SWAPS: &str = "/proc/swaps";

/// A device's two numbers, of the one that the system gives.
fn numbers_of(device: u64) -> (u64, u64) {
    let major = (device >> 8 & 0xfff) | (device >> 32 & 0xffff_f000);
    let minor = (device & 0xff) | (device >> 12 & 0xffff_ff00);
    (major, minor)
}

/// What one of the kernel's files or folders says: nothing, where it has none (a kernel without swap, a container without
/// /sys).
fn said<T: Read + Drop, A: Allocator>(alloc: A, opened: io::Result<T>) -> io::Result<String<A>> {
    match opened {
        Ok(reader) => io::read_to_string(alloc, reader),
        Err(error) if error.kind() == ErrorKind::NotFound => Ok(String::new(alloc)),
        Err(error) => Err(error),
    }
}

/// Whether a file system of it is mounted.
fn is_mounted<R: Files<File = File>, A: Allocator>(
    rt: &R,
    alloc: A,
    numbers: &str,
) -> io::Result<bool> {
    let mounts = io::read_to_string(alloc, File::open(rt, MOUNTS)?)?;
    Ok(mounts.split_whitespace().any(|word| word == numbers))
}

/// Whether another device is made of it: a volume, a RAID, a cache's. A folder is read as its names, each ended by a zero.
fn is_held<R: Files<File = File>, A: Allocator + Clone>(
    rt: &R,
    alloc: A,
    numbers: &str,
) -> io::Result<bool> {
    let folder = format!(in alloc.clone()?; "/sys/dev/block/{numbers}/holders")?;
    let holders = said(alloc, rt.open_dir(folder.as_str()))?;
    Ok(
        holders
            .split('\0')
            .any(|name| !name.is_empty() && name != "." && name != ".."),
    )
}

/// Whether this line begins with a name of the device.
fn is_named<R: Files<File = File>>(rt: &R, line: &str, device: u64) -> bool {
    let Some(name) = line.split_whitespace().next() else {
        return false;
    };
    match fs::metadata(rt, name) {
        Ok(found) => found.file_type().is_block_device() && found.rdev() == device,
        Err(_) => false,
    }
}

/// Whether memory is swapped to it.
fn is_swapped_to<R: Files<File = File>, A: Allocator>(
    rt: &R,
    alloc: A,
    device: u64,
) -> io::Result<bool> {
    let swaps = said(alloc, File::open(rt, SWAPS))?;
    for line in swaps.lines() {
        if is_named(rt, line, device) {
            return Ok(true);
        }
    }
    Ok(false)
}

/// Whether the kernel says that the device of this number is in use.
pub(crate) fn is_in_use<R: Files<File = File>, A: Allocator + Clone>(
    rt: &R,
    alloc: A,
    device: u64,
) -> io::Result<bool> {
    let (major, minor) = numbers_of(device);
    let numbers = format!(in alloc.clone()?; "{major}:{minor}")?;
    let numbers = numbers.as_str();
    Ok(
        is_mounted(rt, alloc.clone()?, numbers)?
            || is_held(rt, alloc.clone()?, numbers)?
            || is_swapped_to(rt, alloc, device)?,
    )
}

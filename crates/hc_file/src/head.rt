// The head of a file or block device, which says that it is one of ours, and whether one that has none has anything.
ghost use Rattle.std.specs.Prelude.{◌≡◌};

use hc_paged::{Digest, SipHash};
use std::fs::File;
use std::io;
use std::os::unix::fs::FileExt;

/// The bytes in front of the first page (docs/FORMATS.md).
pub(crate) const HEAD: u64 = 4096;

const BYTES: usize = 4096;

const NAME: [u8; 16] = *b"Kilambosetry\r\n\x1a\n";

const VERSION: u32 = 1;

/// What the digest is of.
const DIGESTED: usize = 64;

/// So much at each end of a block device that isn't ours is looked at: file systems, partitions, volumes and the like have
/// their marks there.
const LOOKED_AT: u64 = 256 * HEAD;

/// Where the seal stands, by which a cache of the Cargo crate knows that nothing was changed since it was closed.
const SEAL: usize = 48;

/// What stands there where a seal is being taken away: the head's digest is another's, so it is no cache's.
const TAKEN: [u8; 16] = [0xff; 16];

/// Whose it is, by its head.
#[derive(Clone, Copy, PartialEq, Eq)]
pub(crate) enum Owner {
    /// It doesn't begin with our name.
    Other,
    /// It does, and has no seal.
    Ours,
    /// It does, and has a seal, or one that is being taken away.
    Sealed,
}

/// Whose it is, where it has so many bytes.
pub(crate) fn owner_of(file: &File, length: u64) -> io::Result<Owner> {
    if length < HEAD {
        return Ok(Owner::Other);
    }
    let mut head = [0u8; DIGESTED];
    file.read_exact_at(&mut head, 0)?;
    if !head.starts_with(&NAME) {
        return Ok(Owner::Other);
    }
    let has_seal = head[SEAL..].iter().any(|byte| *byte != 0);
    Ok(if has_seal { Owner::Sealed } else { Owner::Ours })
}

/// Takes the seal away, and answers once the disk has none. What is written for that isn't zeros: so where the process ends before
/// it is synced, or the system refuses that, the next open doesn't take the seal for gone.
pub(crate) fn take_seal(file: &File) -> io::Result<()> {
    file.write_all_at(&TAKEN, SEAL as u64)?;
    file.sync_data()
}

/// Writes the head of so many pages. It has no number of its own, and no seal.
pub(crate) fn write(file: &File, pages: u32, page_size: u32) -> io::Result<()> {
    let mut head = [0u8; BYTES];
    head[..16].copy_from_slice(&NAME);
    head[16..20].copy_from_slice(&VERSION.to_le_bytes());
    head[20..24].copy_from_slice(&page_size.to_le_bytes());
    head[24..32].copy_from_slice(&u64::from(pages).to_le_bytes());
    let digest = SipHash.digest(&head[..DIGESTED]);
    head[DIGESTED..DIGESTED + 8].copy_from_slice(&digest.to_le_bytes());
    file.write_all_at(&head, 0)
}

/// Whether a block device of so many bytes has anything but zeros, of what is looked at.
pub(crate) fn has_anything(file: &File, length: u64) -> io::Result<bool> {
    let tail = length.saturating_sub(LOOKED_AT);
    Ok(has_data(file, 0, length)? || has_data(file, tail, length)?)
}

/// Whether anything but zeros stands behind this byte of so many, as far as is looked.
pub(crate) fn has_data(file: &File, from: u64, length: u64) -> io::Result<bool> {
    let mut buffer = [0u8; BYTES];
    for turn in 0..LOOKED_AT / HEAD {
        let place = from.saturating_add(turn * HEAD);
        if place >= length {
            return Ok(false);
        }
        let there = (length - place).min(HEAD) as usize;
        file.read_exact_at(&mut buffer[..there], place)?;
        if buffer[..there].iter().any(|byte| *byte != 0) {
            return Ok(true);
        }
    }
    Ok(false)
}

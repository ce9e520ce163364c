// What an item begins as.
ghost use Rattle.std.specs.Prelude.{◌≡◌, length, replicate, IfOk};
ghost use Rattle.hc_memory.specs.Seen.{filled};

use std::alloc::{AllocError, Allocator};

/// What an item begins as: a copy of these bytes, or so many times one byte.
#[derive(Clone, Copy)]
pub enum Fill<'a> {
    Copied(&'a [u8]),
    Repeated(u64, u8),
}

impl Fill<'_> {
    /// How many bytes these are.
    #[must_use]
    #[allow(clippy::len_without_is_empty)]
    pub fn len(self) -> u64
        ensures { result ≡ length (filled self.entry) }
    {
        match self {
            Fill::Copied(bytes) => bytes.len() as u64,
            Fill::Repeated(count, _) => count,
        }
    }

    // The bytes, in memory of their own.
    pub(crate) fn to_vec<A: Allocator + Clone>(self, alloc: &A) -> Result<Vec<u8, A>, AllocError>
        ensures { IfOk result (λ bytes. bytes.items ≡ filled self.entry) }
    {
        let alloc = alloc.clone()?;
        match self {
            Fill::Copied(bytes) => Vec::from_slice(alloc, bytes),
            Fill::Repeated(count, byte) => repeated(alloc, count, byte),
        }
    }
}

// So many times the byte.
fn repeated<A: Allocator>(alloc: A, count: u64, byte: u8) -> Result<Vec<u8, A>, AllocError>
    ensures { IfOk result (λ bytes. bytes.items ≡ replicate count byte) }
{
    let mut bytes = Vec::with_capacity(alloc, count as usize)?;
    bytes.resize(count as usize, byte)?;
    Ok(bytes)
}

// A page that is to be written, with two owners.
ghost use Rattle.std.specs.Prelude.{◌≡◌, IfOk, length};

use bytes::Bytes;
use std::alloc::{AllocError, Allocator, Global};
use std::marker::Model;

/// The bytes of a page, twice, which share their memory: one owner can go to the device, and the other stays with whoever
/// tells of it. That the second is there is known before anything is written. Contracts see the bytes.
#[derive(Drop)]
pub struct SharedPage<A: Allocator = Global> {
    ours: Bytes<A>,
    theirs: Bytes<A>,
}

impl<A: Allocator> Model for SharedPage<A> {
    ghost use Rattle.std.specs.Prelude.{◌≡◌, List, ℕ};

    ghost Value = { List ℕ };

    ghost view = { λ p. p.ours };

    ghost invariant = { λ p. p.theirs ≡ p.ours };
}

impl<A: Allocator> SharedPage<A> {
    /// The page of these bytes. Refused only when out of memory.
    pub fn new(bytes: Bytes<A>) -> Result<SharedPage<A>, AllocError>
        ensures { IfOk result (λ page. page ≡ bytes) }
    {
        let theirs = bytes.clone()?;
        Ok(SharedPage {
            ours: bytes,
            theirs,
        })
    }

    /// How many bytes it has.
    #[must_use]
    #[allow(clippy::len_without_is_empty)]
    pub fn len(&self) -> usize
        ensures { result ≡ length self.now }
    {
        self.ours.len()
    }

    /// Its bytes.
    #[must_use]
    pub fn as_slice(&self) -> &[u8]
        ensures { result.now ≡ self.now }
    {
        self.ours.as_slice()
    }

    /// Both owners.
    #[must_use]
    pub fn split(self) -> (Bytes<A>, Bytes<A>)
        ensures first { result.0 ≡ self }
        ensures second { result.1 ≡ self }
    {
        let SharedPage { ours, theirs } = self;
        (ours, theirs)
    }
}

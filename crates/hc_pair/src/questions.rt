// What a caller asks of both engines before it calls them.
ghost use Rattle.std.specs.Prelude.{◌≡◌, ℕ, length, is_some, false};
ghost use Rattle.hc_types.specs.Places.{is_small_by};
ghost use Rattle.hc_engines.specs.Engine.{Flush, Done, nothing};
ghost use Rattle.hc_engines.specs.small.BigHash.{is_busy as is_busy_seen};
ghost use Rattle.hc_engines.specs.pair.Pair.{bucket_in, hash_in, is_indexed as is_indexed_seen, start as start_step, resume as resume_step};
ghost use Rattle.hc_flash.specs.Seen.{result_of};
ghost use Rattle.hc_pair.specs.Found.{is_io};

use crate::pair::Pair;
use hc_flash::IoResult;
use hc_types::{Entry, FlashConfig, Key, is_small};
use std::alloc::Allocator;

impl<A: Allocator + Clone + Copy> Pair<A> {
    /// The configuration that both engines go by.
    #[must_use]
    pub fn flash(&self) -> &FlashConfig
        ensures { result.now ≡ self.now.small.flash }
    {
        self.small.flash()
    }

    /// Whether a job is on this bucket.
    #[must_use]
    pub fn is_busy(&self, bucket: u32) -> bool
        ensures { result ≡ is_busy_seen bucket self.now.small.jobs }
    {
        self.small.is_busy(bucket)
    }

    /// The bucket of a key.
    #[must_use]
    pub fn bucket_of(&self, key: &Key<A>) -> u32
        ensures { result ≡ bucket_in self.now key.now }
    {
        self.small.bucket_of(key)
    }

    /// The kept hash of a key.
    #[must_use]
    pub fn hash_of(&self, key: &Key<A>) -> u64
        ensures { result ≡ hash_in self.now key.now }
    {
        self.large.hash_of(key)
    }

    /// Whether the large engine could have the key: its kept hash leads into a region.
    #[must_use]
    pub fn is_indexed(&self, key: &Key<A>) -> bool
        ensures { result ≡ is_indexed_seen self.now key.now }
    {
        self.large.could_have(key)
    }

    /// Whether the small engine serves the entry.
    #[must_use]
    pub fn is_small(&self, entry: &Entry<A>) -> bool
        ensures { result ≡ is_small_by self.now.small.flash entry.now.key (length entry.now.value) }
    {
        is_small(&entry.key, entry.value.len() as u64, self.small.flash())
    }

    /// Whether a flush that is started now has a page to write. Where it has none, it is over at once, and nothing changes.
    #[must_use]
    pub fn has_flush(&self) -> bool
        ensures writes { (number : ℕ) → is_io (start_step number Flush self.now).next ≡ result }
        ensures idle { result ≡ false → (number : ℕ) → start_step number Flush self.now ≡ record { pair = self.now; next = Done nothing } }
    {
        self.large.has_flush()
    }

    /// Whether the operation with this number waits for such a result. Where it does, `resume` and `hand_in` are refused only
    /// when out of memory.
    #[must_use]
    pub fn awaits(&self, number: u64, came: &IoResult<A>) -> bool
        ensures { result ≡ is_some (resume_step number (result_of came.now) self.now) }
    {
        match self.small.op(number) {
            None => self.large.awaits(number, came),
            Some(_) => self.small.awaits(number, came),
        }
    }
}

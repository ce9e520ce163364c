// What is forgotten, and why.
ghost use Rattle.std.specs.Prelude.{◌≡◌, ◌<◌, ◌≤◌, ◌^◌, IfSome};
ghost use Rattle.hc_types.specs.Loss.{scope_of, is_but, covers as is_covered};

use crate::config::FlashConfig;
use crate::entry::is_small;
use crate::key::{Key, bucket_of, kept};
use std::alloc::{Allocator, Global};

/// The keys that a loss covers. It shows as `key K`, `bucket B`, `hash H` or `hash H but K`.
#[derive(Debug, Drop)]
pub enum Scope<A: Allocator = Global> {
    /// This key.
    Key(Key<A>),
    /// Every key of this bucket with a small item.
    Bucket(u32),
    /// Every key of this kept hash with a large item, but the one that is named.
    Hash { kept: u64, but: Option<Key<A>> },
}

/// Why an evicted item isn't kept elsewhere.
#[derive(Clone, Copy, Debug, PartialEq, Eq)]
pub enum Why {
    /// There is no flash.
    NoFlash,
    /// A tombstone of its key waits for its delete.
    Tombstone,
    /// Its key and value are shorter or longer than what is admitted.
    NotAdmitted,
    /// It is longer than a region.
    TooLarge,
    /// As many items as may be wait for flash.
    QueueFull,
}

/// Why something is forgotten. It shows in the words of a trace's answers, as `evicted noflash`.
#[derive(Debug, Drop)]
pub enum Cause<A: Allocator = Global> {
    /// Its item was evicted from this pool, to make room for so many bytes.
    Evicted { pool: u8, want: u64, why: Why },
    /// Its bucket's page was full.
    BucketFull,
    /// This region was reclaimed.
    Reclaimed(u32),
    /// No region was clean for it.
    NoCleanRegion,
    /// This key, of the same kept hash, was written or removed.
    Collision(Key<A>),
    /// Its item was evicted when it was expired.
    Expired,
    /// The device failed.
    Fault,
}

impl<A: Allocator> Scope<A> {
    /// Whether it covers a key whose value has `len` bytes. Without flash only a scope that names the key does.
    #[must_use]
    pub fn covers(&self, flash: &Option<FlashConfig>, key: &Key<A>, len: u64) -> bool
        requires len { len < 2 ^ 63 }
        requires bits { IfSome flash.now (λ f. f.bits ≤ 64) }
        requires buckets { IfSome flash.now (λ f. 1 ≤ f.buckets) }
        ensures { result ≡ is_covered flash.now (scope_of self.now) key.now len }
    {
        match (self, flash) {
            (Scope::Key(named), _) => named == key,
            (Scope::Bucket(bucket), Some(flash)) => {
                is_small(key, len, flash) && bucket_of(key, flash) == u64::from(*bucket)
            }
            (Scope::Hash { kept: hash, but }, Some(flash)) => {
                !is_small(key, len, flash) && kept(key, flash.bits) == *hash && !is_named(but, key)
            }
            (_, None) => false,
        }
    }
}

/// Whether this is the key that is named.
fn is_named<A: Allocator>(but: &Option<Key<A>>, key: &Key<A>) -> bool
    ensures { result ≡ is_but but.now key.now }
{
    match but {
        Some(named) => named == key,
        None => false,
    }
}

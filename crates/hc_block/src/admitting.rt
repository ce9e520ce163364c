// Whether an entry can be put.
ghost use Rattle.std.specs.Prelude.{◌≡◌, ◌↔◌, ◌&&◌, nat_le, length, IsOk, IfErr};
ghost use Rattle.hc_types.specs.FlashEntry.{entry_of};
ghost use Rattle.hc_types.specs.declared.refusal.Refusal.TheVariants.{TooLarge};
ghost use Rattle.hc_engines.specs.Engine.{Put};
ghost use Rattle.hc_engines.specs.large.Entries.{entry_bytes as bytes_of};
ghost use Rattle.hc_block.specs.Moves.{CanStart};

use crate::block_cache::BlockCache;
use hc_region::HEAD;
use hc_types::{Entry, Refusal, VALUE_MAX};
use std::alloc::Allocator;

/// Whether the entry's value has at most 1,048,576 bytes, and the entry at most so many.
fn is_within<A: Allocator>(entry: &Entry<A>, most: u64) -> bool
    ensures { result ≡ (nat_le (length entry.now.value) 1048576 && nat_le (length (bytes_of (entry_of entry.now))) most) }
{
    let key = entry.key.len();
    let value = entry.value.len();
    value as u64 <= VALUE_MAX && (HEAD + key + value) as u64 <= most
}

impl<A: Allocator + Clone + Copy> BlockCache<A> {
    /// Whether the entry can be put: its value has at most 1,048,576 bytes, and 14 bytes, its key and its value fit a
    /// region. Refused with `TooLarge` where they don't.
    pub fn admit(&self, entry: &Entry<A>) -> Result<(), Refusal>
        ensures ok { IsOk result ↔ CanStart self.now.flash (Put (entry_of entry.now)) }
        ensures err { IfErr result (λ refusal. refusal ≡ TooLarge) }
    {
        if is_within(entry, self.flash.region_pages * self.flash.page) {
            Ok(())
        } else {
            Err(Refusal::TooLarge)
        }
    }
}

// The Bloom word of a bucket: 64 bits, of which each key of its page sets up to four.
ghost use Rattle.std.specs.Prelude.{◌≡◌, ◌<◌};
ghost use Rattle.hc_engines.specs.small.Bloom.{bit_of, bits_of as bits_set, could_have as word_has};

use hc_types::{Key, hash_of};
use std::alloc::Allocator;

/// The bit that the byte number `i` of the hash sets, counted from the lowest.
fn bit(hash: u64, i: u32) -> u64
    requires { i < 4 }
    ensures { result ≡ bit_of hash i }
{
    1 << ((hash >> (8 * i)) % 64)
}

/// The bits that a key of these bytes sets. The word of a bucket is all that its keys set.
#[must_use]
#[tactic(auto, unfolding(crate::specs::small::Bloom::bits_of))]
pub fn bits_of(key: &[u8]) -> u64
    ensures { result ≡ bits_set key.now }
{
    let hash = hash_of(key);
    bit(hash, 0) | bit(hash, 1) | bit(hash, 2) | bit(hash, 3)
}

/// Whether the word has all bits of the key.
pub fn could_have<A: Allocator>(word: u64, key: &Key<A>) -> bool
    ensures { result ≡ word_has word key.now }
{
    let bits = bits_of(key.as_slice());
    word & bits == bits
}

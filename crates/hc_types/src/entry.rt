// What is stored under a key, and what it costs.
ghost use Rattle.std.specs.Prelude.{◌≡◌, ◌<◌, ◌≤◌, ◌^◌};
ghost use Rattle.hc_types.specs.Charge.{charge_of};
ghost use Rattle.hc_types.specs.Places.{is_small_by};

use crate::config::FlashConfig;
use crate::key::Key;
use bytes::Bytes;
use std::alloc::{Allocator, Global};

/// The most bytes of a value.
pub const VALUE_MAX: u64 = 1_048_576;

/// What is stored under a key: the value, the number of its pool, and the second at which it expires (0: never).
#[derive(Drop)]
pub struct Entry<A: Allocator = Global> {
    pub key: Key<A>,
    pub value: Bytes<A>,
    pub pool: u8,
    pub expiry: u64,
}

/// What an item of this key and a value of `len` bytes is charged to its pool, in bytes.
#[must_use]
pub fn charge<A: Allocator>(key: &Key<A>, len: u64) -> u64
    requires { len ≤ VALUE_MAX }
    ensures { result ≡ charge_of key.now len }
{
    32 + key.len() as u64 + len
}

/// Whether an item of this key and a value of `len` bytes is small: BigHash holds the small ones, BlockCache the large.
#[must_use]
pub fn is_small<A: Allocator>(key: &Key<A>, len: u64, flash: &FlashConfig) -> bool
    requires { len < 2 ^ 63 }
    ensures { result ≡ is_small_by flash.now key.now len }
{
    key.len() as u64 + len <= flash.small_max
}

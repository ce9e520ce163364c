// The room that live charges leave in a pool.
ghost use Rattle.std.specs.Prelude.{◌≡◌, ◌==◌, ◌+◌, ◌||◌, nat_lt, if◌then◌else◌};
ghost use Rattle.hc_history.specs.Lawful.{live_bytes, live_count, is_full as full, is_full_of as full_of};

use crate::live::Charge;
use hc_types::{Config, PoolSize};
use std::alloc::Allocator;

/// Whether the pool, with these charges, has no room for so many bytes more, or for one charge more. A pool that isn't
/// there is never full.
#[must_use]
pub fn is_full<A: Allocator>(config: &Config<A>, pool: u8, live: &[Charge<A>], want: u64) -> bool
    ensures { result ≡ full config.now pool live.now want }
{
    match config.pools.get(usize::from(pool)) {
        Some(size) => is_full_of(*size, pool, live, want),
        None => false,
    }
}

fn is_full_of<A: Allocator>(size: PoolSize, pool: u8, live: &[Charge<A>], want: u64) -> bool
    ensures { result ≡ (nat_lt size.bytes (live_bytes pool live.now + want) || (live_count pool live.now == size.items)) }
{
    passes(size.bytes, pool, live, want) || count_in(pool, live) == size.items
}

/// Whether the bytes of the pool's charges, and so many more, are more than the limit.
fn passes<A: Allocator>(limit: u64, pool: u8, live: &[Charge<A>], want: u64) -> bool
    ensures { result ≡ nat_lt limit (live_bytes pool live.now + want) }
{
    let Some(mut left) = limit.checked_sub(want) else {
        return true;
    };
    for charge in live {
        let bytes = charge.bytes_in(pool);
        if bytes > left {
            return true;
        }
        left -= bytes;
    }
    false
}

/// How many of these charges are the pool's.
fn count_in<A: Allocator>(pool: u8, live: &[Charge<A>]) -> u64
    ensures { result ≡ live_count pool live.now }
{
    let mut count = 0;
    for charge in live {
        if charge.is_in(pool) {
            count += 1;
        }
    }
    count
}

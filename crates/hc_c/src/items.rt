// The calls of an ordinary day.
ghost use Rattle.hc_c.specs.Calls.{Sets, Adds, Gets, Deletes};
ghost use Rattle.hc_c.specs.Statuses.{OnCache};

use crate::cache_handle::CacheHandle;
use crate::calls;
use crate::status::Status;
use std::alloc::Global;

/// Stores a copy of `value` under the key in the pool, in place of what the key has in whichever pool, for `ttl` seconds
/// from now (0: for good).
#[unsafe(no_mangle)]
pub extern "C" fn kilambosetry_set(
    alloc: Global,
    handle: &mut CacheHandle,
    pool: u8,
    key: &[u8],
    value: &[u8],
    ttl: u32,
) -> u8
    ensures { OnCache handle.old.seat.cache handle.new.seat.cache result (Sets pool key.now value.now ttl) }
{
    let Some(mut cache) = handle.take(alloc) else {
        return Status::Empty.number();
    };
    let status = calls::set(&mut cache.leased, pool, key, value, ttl);
    handle.put(cache);
    status.number()
}

/// Stores a copy of `value` as `kilambosetry_set` does, where the key has no unexpired value.
#[unsafe(no_mangle)]
pub extern "C" fn kilambosetry_add(
    alloc: Global,
    handle: &mut CacheHandle,
    pool: u8,
    key: &[u8],
    value: &[u8],
    ttl: u32,
) -> u8
    ensures { OnCache handle.old.seat.cache handle.new.seat.cache result (Adds pool key.now value.now ttl) }
{
    let Some(mut cache) = handle.take(alloc) else {
        return Status::Empty.number();
    };
    let status = calls::add(&mut cache.leased, pool, key, value, ttl);
    handle.put(cache);
    status.number()
}

/// Copies the value under the key to the head of `out`, and tells its length. Where `out` is shorter, the length alone is
/// told.
#[unsafe(no_mangle)]
pub extern "C" fn kilambosetry_get(
    alloc: Global,
    handle: &mut CacheHandle,
    key: &[u8],
    out: &mut [u8],
    len: &mut usize,
) -> u8
    ensures { OnCache handle.old.seat.cache handle.new.seat.cache result (Gets key.now (record { bytes = out.old; len = len.old }) (record { bytes = out.new; len = len.new })) }
{
    let Some(mut cache) = handle.take(alloc) else {
        return Status::Empty.number();
    };
    let status = calls::get(&mut cache.leased, key, out, len);
    handle.put(cache);
    status.number()
}

/// Takes the key's item out of the cache, expired or not. Where there was none, it is a miss.
#[unsafe(no_mangle)]
pub extern "C" fn kilambosetry_delete(alloc: Global, handle: &mut CacheHandle, key: &[u8]) -> u8
    ensures { OnCache handle.old.seat.cache handle.new.seat.cache result (Deletes key.now) }
{
    let Some(mut cache) = handle.take(alloc) else {
        return Status::Empty.number();
    };
    let status = calls::delete(&mut cache.leased, key);
    handle.put(cache);
    status.number()
}

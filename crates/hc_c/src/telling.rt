// What a cache tells of itself, and its clock.
ghost use Rattle.std.specs.Prelude.{◌≡◌};
ghost use Rattle.hc_c.specs.Calls.{MovesTo};
ghost use Rattle.hc_c.specs.Telling.{Counted, CountedLosses, Called, Queued, TellsExpired, Used, counts_of, losses_of, IsUsage};
ghost use Rattle.hc_c.specs.Statuses.{OnCache};

use crate::cache_handle::CacheHandle;
use crate::calls;
use crate::leases::key_of;
use crate::status::Status;
use hc_core::{Core, Losses, PoolUsage, Stats, Totals};
use hc_leased::Leased;
use hc_types::Refusal;
use std::alloc::Global;

/// What was done so far: values that were stored, finds that hit and that missed, removes, losses, and pages that were read
/// and written.
#[repr(C)]
#[derive(Clone, Copy)]
pub struct Counts {
    pub stored: u64,
    pub hits: u64,
    pub misses: u64,
    pub removes: u64,
    pub losses: u64,
    pub reads: u64,
    pub writes: u64,
}

impl Counts {
    fn of(stats: Stats) -> Counts
        ensures { counts_of result ≡ stats }
    {
        Counts {
            stored: stats.stored,
            hits: stats.hits,
            misses: stats.misses,
            removes: stats.removes,
            losses: stats.losses,
            reads: stats.reads,
            writes: stats.writes,
        }
    }
}

/// How many losses came of each reason: items that were evicted and have no copy on flash (`no_flash` to `expired`), and
/// forgettings on flash. They add up to the losses of the counts.
#[repr(C)]
#[derive(Clone, Copy)]
pub struct LossCounts {
    pub no_flash: u64,
    pub tombstone: u64,
    pub not_admitted: u64,
    pub too_large: u64,
    pub queue_full: u64,
    pub expired: u64,
    pub bucket_full: u64,
    pub reclaimed: u64,
    pub no_clean_region: u64,
    pub collision: u64,
    pub fault: u64,
}

impl LossCounts {
    fn of(losses: Losses) -> LossCounts
        ensures { losses_of result ≡ losses }
    {
        LossCounts {
            no_flash: losses.no_flash,
            tombstone: losses.tombstone,
            not_admitted: losses.not_admitted,
            too_large: losses.too_large,
            queue_full: losses.queue_full,
            expired: losses.expired,
            bucket_full: losses.bucket_full,
            reclaimed: losses.reclaimed,
            no_clean_region: losses.no_clean_region,
            collision: losses.collision,
            fault: losses.fault,
        }
    }
}

/// The limits of a pool, what its items are charged, and what is charged for items that aren't in it yet.
#[repr(C)]
#[derive(Clone, Copy)]
pub struct Usage {
    pub limit_bytes: u64,
    pub limit_items: u64,
    pub bytes: u64,
    pub items: u64,
    pub open_bytes: u64,
    pub open_items: u64,
}

impl Usage {
    fn of(usage: PoolUsage) -> Usage
        ensures { IsUsage usage result }
    {
        Usage {
            limit_bytes: usage.limits.bytes,
            limit_items: usage.limits.items,
            bytes: usage.linked.bytes,
            items: usage.linked.number,
            open_bytes: usage.open_charges.bytes,
            open_items: usage.open_charges.number,
        }
    }
}

fn tell_calls(cache: &Leased<Core<Totals>>, calls: &mut u64) -> Status
    ensures { Called calls.new result cache.now cache.now }
{
    *calls = cache.cache().calls();
    Status::Done
}

fn tell_queue(cache: &Leased<Core<Totals>>, length: &mut u64) -> Status
    ensures { Queued length.new result cache.now cache.now }
{
    *length = cache.cache().queue_len() as u64;
    Status::Done
}

fn tell_expired(cache: &Leased<Core<Totals>>, alloc: Global, key: &[u8]) -> Status
    ensures { TellsExpired key.now result cache.now cache.now }
{
    let key = match key_of(alloc, key) {
        Ok(key) => key,
        Err(refusal) => return Status::Refused(refusal),
    };
    let now = cache.cache().now();
    match cache.cache().pools().peek(&key) {
        Some(glance) => {
            if glance.is_expired(now) {
                Status::Done
            } else {
                Status::Miss
            }
        }
        None => Status::Miss,
    }
}

fn tell_counts(cache: &Leased<Core<Totals>>, counts: &mut Counts) -> Status
    ensures { Counted counts.new result cache.now cache.now }
{
    *counts = Counts::of(cache.cache().notes().counts());
    Status::Done
}

fn tell_losses(cache: &Leased<Core<Totals>>, losses: &mut LossCounts) -> Status
    ensures { CountedLosses losses.new result cache.now cache.now }
{
    *losses = LossCounts::of(cache.cache().notes().losses());
    Status::Done
}

fn tell_usage(cache: &Leased<Core<Totals>>, pool: u8, usage: &mut Usage) -> Status
    ensures { Used pool usage.old usage.new result cache.now cache.now }
{
    let pools = cache.cache().pools();
    if usize::from(pool) >= pools.len() {
        return Status::Refused(Refusal::NoPool);
    }
    *usage = Usage::of(pools.usage(pool));
    Status::Done
}

/// Moves the clock on to `moment`, in seconds; an earlier one is ignored.
#[unsafe(no_mangle)]
pub extern "C" fn kilambosetry_tick(alloc: Global, handle: &mut CacheHandle, moment: u64) -> u8
    ensures { OnCache handle.old.seat.cache handle.new.seat.cache result (MovesTo moment) }
{
    let Some(mut cache) = handle.take(alloc) else {
        return Status::Empty.number();
    };
    let status = calls::tick(&mut cache.leased, moment);
    handle.put(cache);
    status.number()
}

/// Tells how many calls were begun: sets, adds, finds and deletes that weren't refused.
#[unsafe(no_mangle)]
pub extern "C" fn kilambosetry_calls(alloc: Global, handle: &mut CacheHandle, calls: &mut u64) -> u8
    ensures { OnCache handle.old.seat.cache handle.new.seat.cache result (Called calls.new) }
{
    let Some(cache) = handle.take(alloc) else {
        return Status::Empty.number();
    };
    let status = tell_calls(&cache.leased, calls);
    handle.put(cache);
    status.number()
}

/// Tells how many values wait to be written to flash; 0 without flash.
#[unsafe(no_mangle)]
pub extern "C" fn kilambosetry_queue_length(
    alloc: Global,
    handle: &mut CacheHandle,
    length: &mut u64,
) -> u8
    ensures { OnCache handle.old.seat.cache handle.new.seat.cache result (Queued length.new) }
{
    let Some(cache) = handle.take(alloc) else {
        return Status::Empty.number();
    };
    let status = tell_queue(&cache.leased, length);
    handle.put(cache);
    status.number()
}

/// Whether memory holds an item under the key whose time is over: then a get of the key misses, and this is why. It is a miss
/// where there is no such item. Nothing changes: the item stays where it is, and isn't used.
#[unsafe(no_mangle)]
pub extern "C" fn kilambosetry_is_expired(alloc: Global, handle: &mut CacheHandle, key: &[u8]) -> u8
    ensures { OnCache handle.old.seat.cache handle.new.seat.cache result (TellsExpired key.now) }
{
    let Some(cache) = handle.take(alloc) else {
        return Status::Empty.number();
    };
    let status = tell_expired(&cache.leased, alloc, key);
    handle.put(cache);
    status.number()
}

/// Tells the seven counts.
#[unsafe(no_mangle)]
pub extern "C" fn kilambosetry_counts(
    alloc: Global,
    handle: &mut CacheHandle,
    counts: &mut Counts,
) -> u8
    ensures { OnCache handle.old.seat.cache handle.new.seat.cache result (Counted counts.new) }
{
    let Some(cache) = handle.take(alloc) else {
        return Status::Empty.number();
    };
    let status = tell_counts(&cache.leased, counts);
    handle.put(cache);
    status.number()
}

/// Tells how many losses came of each reason.
#[unsafe(no_mangle)]
pub extern "C" fn kilambosetry_losses(
    alloc: Global,
    handle: &mut CacheHandle,
    losses: &mut LossCounts,
) -> u8
    ensures { OnCache handle.old.seat.cache handle.new.seat.cache result (CountedLosses losses.new) }
{
    let Some(cache) = handle.take(alloc) else {
        return Status::Empty.number();
    };
    let status = tell_losses(&cache.leased, losses);
    handle.put(cache);
    status.number()
}

/// Tells the usage of the pool with this number. Refused with `NoPool`.
#[unsafe(no_mangle)]
pub extern "C" fn kilambosetry_usage(
    alloc: Global,
    handle: &mut CacheHandle,
    pool: u8,
    used: &mut Usage,
) -> u8
    ensures { OnCache handle.old.seat.cache handle.new.seat.cache result (Used pool used.old used.new) }
{
    let Some(cache) = handle.take(alloc) else {
        return Status::Empty.number();
    };
    let status = tell_usage(&cache.leased, pool, used);
    handle.put(cache);
    status.number()
}

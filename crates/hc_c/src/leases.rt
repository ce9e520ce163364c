// What was loaded before a change of its key isn't stored after it: tickets, and whose turn it is to load.
ghost use Rattle.std.specs.Prelude.{◌≡◌, ◌⊎◌, None, Some, IfOk, IfErr};
ghost use Rattle.hc_types.specs.Limits.{key_refusal};
ghost use Rattle.hc_c.specs.Calls.{WhyKey};
ghost use Rattle.hc_c.specs.Leases.{HandsTicket, SetsLeased, AsksTurn, EndsTurn};
ghost use Rattle.hc_c.specs.Statuses.{OnCache};

use crate::cache_handle::CacheHandle;
use crate::status::Status;
use hc_core::{Core, Refusal, Totals};
use hc_leased::{Kept, Leased, Ticket};
use hc_types::Key;
use std::alloc::Global;

fn ticket(cache: &Leased<Core<Totals>>, ticket: &mut u64) -> Status
    ensures { HandsTicket ticket.old ticket.new result cache.now cache.now }
{
    match cache.ticket() {
        Some(now) => {
            *ticket = now.number();
            Status::Done
        }
        None => Status::Idle,
    }
}

fn set_leased(
    cache: &mut Leased<Core<Totals>>,
    ticket: u64,
    pool: u8,
    key: &[u8],
    value: &[u8],
    ttl: u32,
) -> Status
    ensures { SetsLeased ticket pool key.now value.now ttl result cache.old cache.new }
{
    let done = cache.set_leased(Ticket::from_number(ticket), pool, key, value, ttl);
    match done {
        Ok(Kept::Stored) => Status::Done,
        Ok(Kept::Stale) => Status::Stale,
        Err(refusal) => Status::Refused(refusal),
    }
}

fn ask_turn(
    cache: &mut Leased<Core<Totals>>,
    alloc: Global,
    key: &[u8],
    patience: u64,
    since: &mut u64,
) -> Status
    ensures { AsksTurn key.now patience since.old since.new result cache.old cache.new }
{
    let key = match key_of(alloc, key) {
        Ok(key) => key,
        Err(refusal) => return Status::Refused(refusal),
    };
    match cache.ask_turn(&key, patience) {
        Some(moment) => {
            *since = moment;
            Status::Waits
        }
        None => Status::Done,
    }
}

fn end_turn(cache: &mut Leased<Core<Totals>>, alloc: Global, key: &[u8]) -> Status
    ensures { EndsTurn key.now result cache.old cache.new }
{
    match key_of(alloc, key) {
        Ok(key) => {
            cache.end_turn(&key);
            Status::Done
        }
        Err(refusal) => Status::Refused(refusal),
    }
}

/// The key of these bytes.
pub fn key_of(alloc: Global, bytes: &[u8]) -> Result<Key, Refusal>
    ensures ok { IfOk result (λ key. key ≡ bytes.now) }
    ensures why { IfErr result (λ refusal. WhyKey bytes.now refusal) }
{
    Key::new(alloc, bytes)
}

/// Tells the ticket of now, for who has missed a key and is about to load it. A ticket is good for every key of this cache, as
/// long as one likes. `Idle` once 2^64 - 1 changes of keys were made: then what is loaded isn't to be stored.
#[unsafe(no_mangle)]
pub extern "C" fn kilambosetry_ticket(alloc: Global, handle: &mut CacheHandle, told: &mut u64) -> u8
    ensures { OnCache handle.old.seat.cache handle.new.seat.cache result (HandsTicket told.old told.new) }
{
    let Some(cache) = handle.take(alloc) else {
        return Status::Empty.number();
    };
    let status = ticket(&cache.leased, told);
    handle.put(cache);
    status.number()
}

/// Stores a copy of `value`, which was loaded after the ticket was told, as `kilambosetry_set` does: exactly where no key of
/// its slot was changed since, and no add of one waits. Else it is `Stale`, and nothing is stored. With either the key's turn
/// is over. Refused as `kilambosetry_set` is, and then the ticket is as good as before.
#[unsafe(no_mangle)]
pub extern "C" fn kilambosetry_set_leased(
    alloc: Global,
    handle: &mut CacheHandle,
    ticket: u64,
    pool: u8,
    key: &[u8],
    value: &[u8],
    ttl: u32,
) -> u8
    ensures { OnCache handle.old.seat.cache handle.new.seat.cache result (SetsLeased ticket pool key.now value.now ttl) }
{
    let Some(mut cache) = handle.take(alloc) else {
        return Status::Empty.number();
    };
    let status = set_leased(&mut cache.leased, ticket, pool, key, value, ttl);
    handle.put(cache);
    status.number()
}

/// Asks whether the caller is to load the key: `Done`, where it is, and `Waits`, where another began fewer than `patience`
/// seconds ago by the cache's clock; then the moment is told at which it did. The turn is over as the key is stored or
/// removed, or by `kilambosetry_end_turn`, and another's once `patience` is up. No promise rests on it.
#[unsafe(no_mangle)]
pub extern "C" fn kilambosetry_ask_turn(
    alloc: Global,
    handle: &mut CacheHandle,
    key: &[u8],
    patience: u64,
    since: &mut u64,
) -> u8
    ensures { OnCache handle.old.seat.cache handle.new.seat.cache result (AsksTurn key.now patience since.old since.new) }
{
    let Some(mut cache) = handle.take(alloc) else {
        return Status::Empty.number();
    };
    let status = ask_turn(&mut cache.leased, alloc, key, patience, since);
    handle.put(cache);
    status.number()
}

/// The key's load is given up: the next who asks for its turn has it.
#[unsafe(no_mangle)]
pub extern "C" fn kilambosetry_end_turn(alloc: Global, handle: &mut CacheHandle, key: &[u8]) -> u8
    ensures { OnCache handle.old.seat.cache handle.new.seat.cache result (EndsTurn key.now) }
{
    let Some(mut cache) = handle.take(alloc) else {
        return Status::Empty.number();
    };
    let status = end_turn(&mut cache.leased, alloc, key);
    handle.put(cache);
    status.number()
}

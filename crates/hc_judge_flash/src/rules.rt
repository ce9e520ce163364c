// When a note of flash is lawful at its place.
ghost use Rattle.std.specs.Prelude.{◌≡◌, ◌==◌, ◌&&◌, not, is_some, length, [], ◌∷◌, Some, IfOk};
ghost use Rattle.hc_history.specs.Books as books;
ghost use Rattle.hc_history.specs.Books.{is_among};
ghost use Rattle.hc_history.specs.Regions as regions;
ghost use Rattle.hc_history.specs.Regions.{Filing, filed, is_one_of};
ghost use Rattle.hc_types.specs.Places.{is_small_by};
ghost use Rattle.hc_types.specs.Tally.{count};
ghost use Rattle.hc_history.specs.Lawful as lawful;
ghost use Rattle.hc_history.specs.Lawful.{past};
ghost use Rattle.hc_legal.specs.Judge as judge;
ghost use Rattle.hc_judge_device.specs.Limits.{IsLimited};

use crate::filed::region_books;
use crate::filings::is_empty;
use crate::keys::{is_due, is_writing};
use crate::opening::{is_placed, may_open};
use hc_history::{Note, Said};
use hc_judge_device::{in_use, is_in_bucket, is_known, last, last_page, wrote_page};
use hc_judge_memory::{
    entry_at, expired_at, forgotten_by, is_buried, is_changed, is_evicted, is_waiting, next_charged,
};
use hc_types::{Config, FlashConfig, Key, is_small};
use std::alloc::{AllocError, Allocator};

/// Whether the note, which is one of flash, is lawful after these notes and before the rest. Any other note isn't.
/// Refused only when out of memory.
pub fn is_allowed_on_flash<A: Allocator + Clone>(
    config: &Config<A>,
    flash: &FlashConfig,
    notes: &[Note<A>],
    note: &Note<A>,
    rest: &[Note<A>],
    alloc: &A,
) -> Result<bool, AllocError>
    requires { IsLimited flash.now }
    ensures { IfOk result (λ allowed. allowed ≡ judge.is_allowed_on_flash config.now flash.now (past [] notes.now) note.now rest.now) }
{
    match &note.said {
        Said::Queued { key } => may_wait(config, flash, notes, key, rest, alloc),
        Said::Unqueued { key } => may_leave(flash, notes, key, rest, alloc),
        Said::Writing { key } => is_small_put(flash, notes, key, alloc),
        Said::Written { key } => Ok(is_writing(notes, key)),
        Said::Buried { key } => may_bury(flash, notes, key, rest, alloc),
        Said::Raised { key } => may_raise(flash, notes, key, alloc),
        Said::Read { page, .. } => Ok(is_known(notes, *page)),
        Said::Wrote { .. } => Ok(true),
        Said::Opened { region } => may_open(flash, notes, *region, alloc),
        Said::Flushed { region } => Ok(wrote_page(notes, last_page(flash, *region))),
        Said::Cleared { region } => may_clear(flash, notes, *region, alloc),
        _ => Ok(false),
    }
}

/// Whether the key was just evicted, isn't on flash, and nothing keeps it from waiting.
fn may_wait<A: Allocator + Clone>(
    config: &Config<A>,
    flash: &FlashConfig,
    notes: &[Note<A>],
    key: &Key<A>,
    rest: &[Note<A>],
    alloc: &A,
) -> Result<bool, AllocError>
    requires { IsLimited flash.now }
    ensures { IfOk result (λ may. may ≡ judge.may_wait config.now flash.now (past [] notes.now) key.now rest.now) }
{
    let evicted = is_evicted_next(config, notes, key, rest, alloc)?;
    let expired = expired_at(&Some(*flash), notes, key, alloc)?;
    let refused = is_forgotten(flash, notes, key, alloc)?;
    let on_flash = is_in_bucket(flash, notes, key, alloc)?;
    Ok(evicted && !expired && !refused && !is_waiting(notes, key) && !on_flash)
}

/// Whether the key was just evicted for the next charge.
fn is_evicted_next<A: Allocator + Clone>(
    config: &Config<A>,
    notes: &[Note<A>],
    key: &Key<A>,
    rest: &[Note<A>],
    alloc: &A,
) -> Result<bool, AllocError>
    ensures { IfOk result (λ evicted. evicted ≡ judge.some_and (lawful.next_charged rest.now) (λ next. judge.is_evicted config.now (past [] notes.now) key.now next.0 next.1 rest.now)) }
{
    match next_charged(rest) {
        Some((pool, want)) => is_evicted(config, notes, key, pool, want, rest, alloc),
        None => Ok(false),
    }
}

/// Whether something keeps the key's evicted item from waiting.
fn is_forgotten<A: Allocator + Clone>(
    flash: &FlashConfig,
    notes: &[Note<A>],
    key: &Key<A>,
    alloc: &A,
) -> Result<bool, AllocError>
    requires { IsLimited flash.now }
    ensures { IfOk result (λ forgotten. forgotten ≡ is_some (lawful.forgotten_by (Some flash.now) (past [] notes.now) key.now)) }
{
    let why = forgotten_by(&Some(*flash), notes, key, alloc)?;
    Ok(why.is_some())
}

/// Whether the key waits, and is placed or lost.
fn may_leave<A: Allocator + Clone>(
    flash: &FlashConfig,
    notes: &[Note<A>],
    key: &Key<A>,
    rest: &[Note<A>],
    alloc: &A,
) -> Result<bool, AllocError>
    requires { IsLimited flash.now }
    ensures { IfOk result (λ may. may ≡ (is_among key.now (books.waiting (past [] notes.now)) && regions.is_placed flash.now (past [] notes.now) key.now rest.now)) }
{
    let placed = is_placed(flash, notes, key, rest, alloc)?;
    Ok(is_waiting(notes, key) && placed)
}

/// Whether the key just left the queue, its entry is small, and none of it is being written.
fn is_small_put<A: Allocator + Clone>(
    flash: &FlashConfig,
    notes: &[Note<A>],
    key: &Key<A>,
    alloc: &A,
) -> Result<bool, AllocError>
    requires { IsLimited flash.now }
    ensures { IfOk result (λ may. may ≡ judge.is_small_put flash.now (past [] notes.now) key.now) }
{
    match last(notes) {
        Some((note, before)) => tells_small_put(flash, before, note, key, alloc),
        None => Ok(false),
    }
}

fn tells_small_put<A: Allocator + Clone>(
    flash: &FlashConfig,
    before: &[Note<A>],
    note: &Note<A>,
    key: &Key<A>,
    alloc: &A,
) -> Result<bool, AllocError>
    requires { IsLimited flash.now }
    ensures { IfOk result (λ may. may ≡ judge.is_small_put flash.now (note.now ∷ past [] before.now) key.now) }
{
    match &note.said {
        Said::Unqueued { key: taken } => {
            let small = has_small(flash, before, key, alloc)?;
            Ok(taken == key && small && !is_writing(before, key))
        }
        _ => Ok(false),
    }
}

/// Whether the map has a small entry of the key.
fn has_small<A: Allocator + Clone>(
    flash: &FlashConfig,
    notes: &[Note<A>],
    key: &Key<A>,
    alloc: &A,
) -> Result<bool, AllocError>
    requires { IsLimited flash.now }
    ensures { IfOk result (λ small. small ≡ judge.some_and (books.entry_at (Some flash.now) (past [] notes.now) key.now) (λ entry. is_small_by flash.now key.now (length entry.value))) }
{
    match entry_at(&Some(*flash), notes, key, alloc)? {
        Some(entry) => Ok(is_small(key, entry.len(), flash)),
        None => Ok(false),
    }
}

/// Whether the call that is answered next changes the key, and it is due a tombstone, and has none yet.
fn may_bury<A: Allocator + Clone>(
    flash: &FlashConfig,
    notes: &[Note<A>],
    key: &Key<A>,
    rest: &[Note<A>],
    alloc: &A,
) -> Result<bool, AllocError>
    requires { IsLimited flash.now }
    ensures { IfOk result (λ may. may ≡ (judge.is_changed (past [] notes.now) key.now rest.now && (lawful.is_due flash.now (past [] notes.now) key.now && not (is_among key.now (books.buried (past [] notes.now)))))) }
{
    let due = is_due(flash, notes, key, alloc)?;
    Ok(is_changed(notes, key, rest) && due && !is_buried(notes, key))
}

/// Whether the key has a tombstone, and its bucket lacks it.
fn may_raise<A: Allocator + Clone>(
    flash: &FlashConfig,
    notes: &[Note<A>],
    key: &Key<A>,
    alloc: &A,
) -> Result<bool, AllocError>
    requires { IsLimited flash.now }
    ensures { IfOk result (λ may. may ≡ (is_among key.now (books.buried (past [] notes.now)) && not (lawful.is_in_bucket flash.now (past [] notes.now) key.now))) }
{
    let on_flash = is_in_bucket(flash, notes, key, alloc)?;
    Ok(is_buried(notes, key) && !on_flash)
}

/// Whether the region is in use, and nothing is filed under it.
fn may_clear<A: Allocator + Clone>(
    flash: &FlashConfig,
    notes: &[Note<A>],
    region: u32,
    alloc: &A,
) -> Result<bool, AllocError>
    requires { IsLimited flash.now }
    ensures { IfOk result (λ may. may ≡ (is_one_of region (regions.in_use (past [] notes.now)) && (count (λ (filing : Filing). filing.region == region) (filed flash.now (past [] notes.now)) == 0))) }
{
    let used = is_used(notes, region, alloc)?;
    let books = region_books(flash, notes, alloc)?;
    Ok(used && is_empty(&books.filings, region))
}

/// Whether the region isn't clean.
fn is_used<A: Allocator + Clone>(
    notes: &[Note<A>],
    region: u32,
    alloc: &A,
) -> Result<bool, AllocError>
    ensures { IfOk result (λ used. used ≡ is_one_of region (regions.in_use (past [] notes.now))) }
{
    let regions = in_use(notes, alloc)?;
    Ok(regions.contains(&region))
}

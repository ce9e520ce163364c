// Large puts that the open region has no room for, and the regions that are opened for them.
ghost use Rattle.std.specs.Prelude.{◌≡◌, ◌==◌, ◌&&◌, ℕ, List, [], ◌∷◌, IfOk};
ghost use Rattle.std.specs.Str.{bytes_eq};
ghost use Rattle.hc_history.specs.Note.{Note as Meaning};
ghost use Rattle.hc_history.specs.Lawful.{past};
ghost use Rattle.hc_history.specs.Regions as spec;
ghost use Rattle.hc_history.specs.Regions.{is_one_of};
ghost use Rattle.hc_legal.specs.Judge as judge;
ghost use Rattle.hc_judge_device.specs.Limits.{IsLimited};

use crate::filed::region_books;
use crate::puts::put_from;
use crate::rooms::{has_no_room, passes};
use hc_history::{Note, Said};
use hc_judge_device::{clean_count, in_use, last, open_region};
use hc_types::{Cause, FlashConfig, Key, Scope};
use std::alloc::{AllocError, Allocator};

/// Whether no region is open, or so many bytes pass what the open one has left. Refused only when out of memory.
fn is_passed<A: Allocator + Clone>(
    flash: &FlashConfig,
    notes: &[Note<A>],
    bytes: u64,
    alloc: &A,
) -> Result<bool, AllocError>
    requires { IsLimited flash.now }
    ensures { IfOk result (λ passed. passed ≡ spec.is_passed flash.now (past [] notes.now) bytes) }
{
    let books = region_books(flash, notes, alloc)?;
    Ok(has_no_room(flash, open_region(flash, notes), books.filled, bytes))
}

/// Whether a key that leaves the queue is no large put that the open region has no room for, or what comes right after
/// is its region's opening or its loss. Refused only when out of memory.
pub fn is_placed<A: Allocator + Clone>(
    flash: &FlashConfig,
    notes: &[Note<A>],
    key: &Key<A>,
    rest: &[Note<A>],
    alloc: &A,
) -> Result<bool, AllocError>
    requires { IsLimited flash.now }
    ensures { IfOk result (λ placed. placed ≡ spec.is_placed flash.now (past [] notes.now) key.now rest.now) }
{
    let books = region_books(flash, notes, alloc)?;
    let put = put_from(flash, notes, key, alloc)?;
    Ok(!passes(flash, open_region(flash, notes), books.filled, &put) || goes_on(key, rest))
}

/// Whether what comes next is the opening of a region, or the loss of the key for want of one.
#[must_use]
pub fn goes_on<A: Allocator>(key: &Key<A>, rest: &[Note<A>]) -> bool
    ensures { result ≡ spec.goes_on key.now rest.now }
{
    match rest {
        [note, ..] => is_next(key, note),
        [] => false,
    }
}

fn is_next<A: Allocator>(key: &Key<A>, note: &Note<A>) -> bool
    ensures { (rest : List Meaning) → result ≡ spec.goes_on key.now (note.now ∷ rest) }
{
    match &note.said {
        Said::Opened { .. } => true,
        Said::Lose {
            scope: Scope::Key(lost),
            cause: Cause::NoCleanRegion,
        } => lost == key,
        _ => false,
    }
}

/// Whether the region is the clean one with the lowest number. Refused only when out of memory.
pub fn is_lowest_clean<A: Allocator + Clone>(
    flash: &FlashConfig,
    notes: &[Note<A>],
    region: u32,
    alloc: &A,
) -> Result<bool, AllocError>
    ensures { IfOk result (λ lowest. lowest ≡ judge.is_lowest_clean flash.now (past [] notes.now) region) }
{
    let regions = in_use(notes, alloc)?;
    Ok(
        u64::from(region) < flash.regions
            && !regions.contains(&region)
            && are_used_below(region, &regions),
    )
}

/// Whether each lower number is among the regions.
fn are_used_below(region: u32, regions: &[u32]) -> bool
    ensures { result ≡ judge.all_below (λ lower. is_one_of lower regions.now) region }
{
    for lower in 0..region {
        if !regions.contains(&lower) {
            return false;
        }
    }
    true
}

/// Whether the region may be opened: it is the lowest clean one, and the last note tells a large put that the open one
/// has no room for. Refused only when out of memory.
pub fn may_open<A: Allocator + Clone>(
    flash: &FlashConfig,
    notes: &[Note<A>],
    region: u32,
    alloc: &A,
) -> Result<bool, AllocError>
    requires { IsLimited flash.now }
    ensures { IfOk result (λ may. may ≡ judge.may_open flash.now (past [] notes.now) region) }
{
    match last(notes) {
        Some((note, before)) => opens(flash, before, note, region, alloc),
        None => Ok(false),
    }
}

fn opens<A: Allocator + Clone>(
    flash: &FlashConfig,
    before: &[Note<A>],
    note: &Note<A>,
    region: u32,
    alloc: &A,
) -> Result<bool, AllocError>
    requires { IsLimited flash.now }
    ensures { IfOk result (λ may. may ≡ judge.may_open flash.now (note.now ∷ past [] before.now) region) }
{
    match &note.said {
        Said::Unqueued { key } => {
            let lowest = is_lowest_clean(flash, before, region, alloc)?;
            let needed = needs_region(flash, before, key, alloc)?;
            Ok(needed && lowest)
        }
        _ => Ok(false),
    }
}

/// Whether a key that leaves the queue is a large put that the open region has no room for.
fn needs_region<A: Allocator + Clone>(
    flash: &FlashConfig,
    before: &[Note<A>],
    key: &Key<A>,
    alloc: &A,
) -> Result<bool, AllocError>
    requires { IsLimited flash.now }
    ensures { IfOk result (λ needed. needed ≡ judge.some_and (spec.put_from flash.now (past [] before.now) key.now) (λ put. spec.is_passed flash.now (past [] before.now) put.bytes)) }
{
    match put_from(flash, before, key, alloc)? {
        Some(put) => is_passed(flash, before, put.bytes, alloc),
        None => Ok(false),
    }
}

/// Whether the last note tells a large put of the key, which the open region has no room for, and no region is clean.
/// Refused only when out of memory.
pub fn is_unplaced<A: Allocator + Clone>(
    flash: &FlashConfig,
    notes: &[Note<A>],
    key: &Key<A>,
    alloc: &A,
) -> Result<bool, AllocError>
    requires { IsLimited flash.now }
    ensures { IfOk result (λ unplaced. unplaced ≡ judge.is_unplaced flash.now (past [] notes.now) key.now) }
{
    match last(notes) {
        Some((note, before)) => leaves_unplaced(flash, before, note, key, alloc),
        None => Ok(false),
    }
}

fn leaves_unplaced<A: Allocator + Clone>(
    flash: &FlashConfig,
    before: &[Note<A>],
    note: &Note<A>,
    key: &Key<A>,
    alloc: &A,
) -> Result<bool, AllocError>
    requires { IsLimited flash.now }
    ensures { IfOk result (λ unplaced. unplaced ≡ judge.is_unplaced flash.now (note.now ∷ past [] before.now) key.now) }
{
    match &note.said {
        Said::Unqueued { key: taken } => has_no_place(flash, before, taken, key, alloc),
        _ => Ok(false),
    }
}

/// Whether a key that leaves the queue is the named one, and a large put that no region has room for.
fn has_no_place<A: Allocator + Clone>(
    flash: &FlashConfig,
    before: &[Note<A>],
    taken: &Key<A>,
    key: &Key<A>,
    alloc: &A,
) -> Result<bool, AllocError>
    requires { IsLimited flash.now }
    ensures { IfOk result (λ unplaced. unplaced ≡ judge.some_and (spec.put_from flash.now (past [] before.now) taken.now) (λ put. bytes_eq put.key key.now && (spec.is_passed flash.now (past [] before.now) put.bytes && (spec.clean_count flash.now (past [] before.now) == 0)))) }
{
    match put_from(flash, before, taken, alloc)? {
        Some(put) => {
            let passed = is_passed(flash, before, put.bytes, alloc)?;
            let clean = clean_count(flash, before, alloc)?;
            Ok(put.key == key && passed && clean == 0)
        }
        None => Ok(false),
    }
}

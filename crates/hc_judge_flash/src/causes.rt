// The causes of losses on flash.
ghost use Rattle.std.specs.Prelude.{◌≡◌, ◌&&◌, ◌==◌, [], None, IfOk};
ghost use Rattle.hc_types.specs.Loss as loss;
ghost use Rattle.hc_types.specs.Loss.{scope_of, cause_of, BucketFull, Reclaimed, NoCleanRegion, Collision};
ghost use Rattle.hc_types.specs.Places.{kept_of};
ghost use Rattle.hc_types.specs.Tally.{count};
ghost use Rattle.hc_history.specs.Regions as regions;
ghost use Rattle.hc_history.specs.Lawful.{past};
ghost use Rattle.hc_legal.specs.Judge as judge;
ghost use Rattle.hc_judge_device.specs.Limits.{IsLimited};
ghost use Rattle.hc_judge_flash.specs.Filed.{is_first_filed};

use crate::filed::region_books;
use crate::filings::{Filing, are_empty, is_filed, is_filed_at, is_filed_under};
use crate::opening::is_unplaced;
use crate::puts::{before_put, is_put_of, put_under_way};
use hc_history::Note;
use hc_judge_device::{behind, clean_count, failed_page, flushed, pushes_out};
use hc_judge_memory::is_changed;
use hc_types::{Cause, FlashConfig, Key, Scope, kept};
use std::alloc::{AllocError, Allocator};

/// Whether the cause of a loss is true on flash, after these notes and before the rest. Refused only where memory
/// lacks.
pub fn is_true_on_flash<A: Allocator + Clone>(
    flash: &FlashConfig,
    notes: &[Note<A>],
    scope: &Scope<A>,
    cause: &Cause<A>,
    rest: &[Note<A>],
    alloc: &A,
) -> Result<bool, AllocError>
    requires { IsLimited flash.now }
    ensures { IfOk result (λ is_true. is_true ≡ judge.is_true_on_flash flash.now (past [] notes.now) (scope_of scope.now) (cause_of cause.now) rest.now) }
{
    match cause {
        Cause::BucketFull => is_pushed_out(flash, notes, scope, alloc),
        Cause::Reclaimed(region) => is_taken_back(flash, notes, scope, *region, alloc),
        Cause::NoCleanRegion => is_without_region(flash, notes, scope, alloc),
        Cause::Collision(by) => is_collision(flash, notes, scope, by, rest, alloc),
        Cause::Fault => is_fault(flash, notes, scope, alloc),
        Cause::Evicted { .. } | Cause::Expired => Ok(false),
    }
}

/// Whether it is the loss of a key that was pushed out of its bucket.
fn is_pushed_out<A: Allocator + Clone>(
    flash: &FlashConfig,
    notes: &[Note<A>],
    scope: &Scope<A>,
    alloc: &A,
) -> Result<bool, AllocError>
    ensures { IfOk result (λ is_true. is_true ≡ judge.is_true_on_flash flash.now (past [] notes.now) (scope_of scope.now) BucketFull []) }
{
    match scope {
        Scope::Key(key) => pushes_out(flash, notes, key, alloc),
        _ => Ok(false),
    }
}

/// Whether it is the loss of what a reclaimed region has.
fn is_taken_back<A: Allocator + Clone>(
    flash: &FlashConfig,
    notes: &[Note<A>],
    scope: &Scope<A>,
    region: u32,
    alloc: &A,
) -> Result<bool, AllocError>
    requires { IsLimited flash.now }
    ensures { IfOk result (λ is_true. is_true ≡ judge.is_true_on_flash flash.now (past [] notes.now) (scope_of scope.now) (Reclaimed region) []) }
{
    match scope {
        Scope::Hash { kept, but: None } => is_reclaimed(flash, notes, *kept, region, alloc),
        _ => Ok(false),
    }
}

/// Whether it is the loss of a large put that no region is there for.
fn is_without_region<A: Allocator + Clone>(
    flash: &FlashConfig,
    notes: &[Note<A>],
    scope: &Scope<A>,
    alloc: &A,
) -> Result<bool, AllocError>
    requires { IsLimited flash.now }
    ensures { IfOk result (λ is_true. is_true ≡ judge.is_true_on_flash flash.now (past [] notes.now) (scope_of scope.now) NoCleanRegion []) }
{
    match scope {
        Scope::Key(key) => is_unplaced(flash, notes, key, alloc),
        _ => Ok(false),
    }
}

/// Whether it is the loss of what has the kept hash of this key, which it names.
fn is_collision<A: Allocator + Clone>(
    flash: &FlashConfig,
    notes: &[Note<A>],
    scope: &Scope<A>,
    by: &Key<A>,
    rest: &[Note<A>],
    alloc: &A,
) -> Result<bool, AllocError>
    requires { IsLimited flash.now }
    ensures { IfOk result (λ is_true. is_true ≡ judge.is_true_on_flash flash.now (past [] notes.now) (scope_of scope.now) (Collision by.now) rest.now) }
{
    match scope {
        Scope::Hash {
            kept: hash,
            but: Some(but),
        } => {
            let collides = collides(flash, notes, by, rest, alloc)?;
            Ok(*hash == kept(by, flash.bits) && but == by && collides)
        }
        _ => Ok(false),
    }
}

/// Whether it is what the failure of a page may lose: its bucket, or a hash that is filed under its region.
fn is_fault<A: Allocator + Clone>(
    flash: &FlashConfig,
    notes: &[Note<A>],
    scope: &Scope<A>,
    alloc: &A,
) -> Result<bool, AllocError>
    requires { IsLimited flash.now }
    ensures { IfOk result (λ is_true. is_true ≡ judge.is_fault flash.now (past [] notes.now) (scope_of scope.now)) }
{
    match scope {
        Scope::Bucket(bucket) => {
            Ok(u64::from(*bucket) < flash.buckets && failed_page(notes) == Some(*bucket))
        }
        Scope::Hash { kept, but: None } => is_hash_fault(flash, notes, *kept, alloc),
        _ => Ok(false),
    }
}

/// Whether the hash is filed under the region of the page that just failed.
fn is_hash_fault<A: Allocator + Clone>(
    flash: &FlashConfig,
    notes: &[Note<A>],
    kept: u64,
    alloc: &A,
) -> Result<bool, AllocError>
    requires { IsLimited flash.now }
    ensures { IfOk result (λ is_true. is_true ≡ judge.is_fault flash.now (past [] notes.now) (loss.Hash kept None)) }
{
    match failed_page(notes) {
        Some(page) => {
            let books = region_books(flash, notes, alloc)?;
            Ok(is_filed_at(flash, &books.filings, kept, page))
        }
        None => Ok(false),
    }
}

/// Whether the hash is filed under the region, which was flushed, before any other that has a hash; and too few regions
/// are clean.
fn is_reclaimed<A: Allocator + Clone>(
    flash: &FlashConfig,
    notes: &[Note<A>],
    kept: u64,
    region: u32,
    alloc: &A,
) -> Result<bool, AllocError>
    requires { IsLimited flash.now }
    ensures { IfOk result (λ is_true. is_true ≡ judge.is_reclaimed flash.now (past [] notes.now) kept region) }
{
    let clean = clean_count(flash, notes, alloc)?;
    if clean >= flash.clean {
        return Ok(false);
    }
    let books = region_books(flash, notes, alloc)?;
    is_first(notes, &books.filings, kept, region, alloc)
}

/// Whether the hash is filed under the region, which was flushed, before any other that has a hash.
fn is_first<A: Allocator + Clone>(
    notes: &[Note<A>],
    filings: &[Filing],
    kept: u64,
    region: u32,
    alloc: &A,
) -> Result<bool, AllocError>
    ensures { IfOk result (λ is_true. is_true ≡ is_first_filed (past [] notes.now) filings.now kept region) }
{
    let is_flushed = is_flushed(notes, region, alloc)?;
    let is_oldest = is_oldest(notes, filings, region, alloc)?;
    Ok(is_filed_under(filings, kept, region) && is_flushed && is_oldest)
}

/// Whether the region is whole on flash.
fn is_flushed<A: Allocator + Clone>(
    notes: &[Note<A>],
    region: u32,
    alloc: &A,
) -> Result<bool, AllocError>
    ensures { IfOk result (λ is_true. is_true ≡ regions.is_one_of region (regions.flushed (past [] notes.now))) }
{
    let whole = flushed(notes, alloc)?;
    Ok(whole.contains(&region))
}

/// Whether nothing is filed under a region that was flushed before this one.
fn is_oldest<A: Allocator + Clone>(
    notes: &[Note<A>],
    filings: &[Filing],
    region: u32,
    alloc: &A,
) -> Result<bool, AllocError>
    ensures { IfOk result (λ is_true. is_true ≡ (count (λ (filing : regions.Filing). regions.is_one_of filing.region (regions.behind region (regions.flushed (past [] notes.now)))) filings.now == 0)) }
{
    let whole = flushed(notes, alloc)?;
    Ok(are_empty(filings, behind(region, &whole)))
}

/// Whether the key's hash was filed before its large put, or before its insert, add or remove.
fn collides<A: Allocator + Clone>(
    flash: &FlashConfig,
    notes: &[Note<A>],
    by: &Key<A>,
    rest: &[Note<A>],
    alloc: &A,
) -> Result<bool, AllocError>
    requires { IsLimited flash.now }
    ensures { IfOk result (λ is_true. is_true ≡ judge.collides flash.now (past [] notes.now) by.now rest.now) }
{
    let put = put_collides(flash, notes, by, alloc)?;
    let change = change_collides(flash, notes, by, rest, alloc)?;
    Ok(put || change)
}

/// Whether a large put of the key is under way, and its hash was filed before.
fn put_collides<A: Allocator + Clone>(
    flash: &FlashConfig,
    notes: &[Note<A>],
    by: &Key<A>,
    alloc: &A,
) -> Result<bool, AllocError>
    requires { IsLimited flash.now }
    ensures { IfOk result (λ is_true. is_true ≡ (regions.is_put_of by.now (regions.put_under_way flash.now (past [] notes.now)) && regions.is_filed (kept_of flash.now.bits by.now) (regions.filed flash.now (regions.before_put (past [] notes.now))))) }
{
    let found = has_hash(flash, before_put(notes), by, alloc)?;
    let put = put_under_way(flash, notes, alloc)?;
    Ok(is_put_of(by, &put) && found)
}

/// Whether the call that is answered next changes the key, and its hash is filed.
fn change_collides<A: Allocator + Clone>(
    flash: &FlashConfig,
    notes: &[Note<A>],
    by: &Key<A>,
    rest: &[Note<A>],
    alloc: &A,
) -> Result<bool, AllocError>
    requires { IsLimited flash.now }
    ensures { IfOk result (λ is_true. is_true ≡ (judge.is_changed (past [] notes.now) by.now rest.now && regions.is_filed (kept_of flash.now.bits by.now) (regions.filed flash.now (past [] notes.now)))) }
{
    let found = has_hash(flash, notes, by, alloc)?;
    Ok(is_changed(notes, by, rest) && found)
}

/// Whether the key's hash is filed.
fn has_hash<A: Allocator + Clone>(
    flash: &FlashConfig,
    notes: &[Note<A>],
    key: &Key<A>,
    alloc: &A,
) -> Result<bool, AllocError>
    requires { IsLimited flash.now }
    ensures { IfOk result (λ found. found ≡ regions.is_filed (kept_of flash.now.bits key.now) (regions.filed flash.now (past [] notes.now))) }
{
    let books = region_books(flash, notes, alloc)?;
    Ok(is_filed(&books.filings, kept(key, flash.bits)))
}

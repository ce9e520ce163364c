// What holds where a log ends between two steps.
ghost use Rattle.std.specs.Prelude.{◌≡◌, ◌==◌, ◌≤◌, [], IfOk, IfSome};
ghost use Rattle.std.specs.List.{list_all};
ghost use Rattle.hc_types.specs.Tally.{count};
ghost use Rattle.hc_history.specs.Books as books;
ghost use Rattle.hc_history.specs.Books.{is_linked};
ghost use Rattle.hc_history.specs.Lawful as lawful;
ghost use Rattle.hc_history.specs.Lawful.{past};
ghost use Rattle.hc_legal.specs.Judge as judge;
ghost use Rattle.hc_judge_memory.specs.Ends as spec;

use crate::live::{Charge, charges, has_linked};
use crate::map::{Entry, entry_at};
use crate::queue::waiting;
use hc_history::Note;
use hc_types::{Config, FlashConfig, Key};
use std::alloc::{AllocError, Allocator};

/// Whether the log may end here: each linked charge is that of an entry of the map, and no key has two; each key that
/// waits has an entry, and no linked charge. Refused only when out of memory.
pub fn is_at_end<A: Allocator + Clone>(
    config: &Config<A>,
    notes: &[Note<A>],
    alloc: &A,
) -> Result<bool, AllocError>
    requires bits { IfSome config.now.flash (λ f. f.bits ≤ 64) }
    requires buckets { IfSome config.now.flash (λ f. 1 ≤ f.buckets) }
    ensures { IfOk result (λ is_at_end. is_at_end ≡ judge.is_at_end config.now (past [] notes.now)) }
{
    let live = charges(notes, alloc)?;
    let keys = waiting(notes, alloc)?;
    Ok(
        are_backed(&config.flash, notes, &live, alloc)?
            && are_single(&live)
            && none_strays(&config.flash, notes, &keys, alloc)?,
    )
}

/// Whether each linked charge is that of an entry of the map.
fn are_backed<A: Allocator + Clone>(
    flash: &Option<FlashConfig>,
    notes: &[Note<A>],
    live: &[Charge<A>],
    alloc: &A,
) -> Result<bool, AllocError>
    requires bits { IfSome flash.now (λ f. f.bits ≤ 64) }
    requires buckets { IfSome flash.now (λ f. 1 ≤ f.buckets) }
    ensures { IfOk result (λ are_backed. are_backed ≡ (count (spec.is_unbacked flash.now (past [] notes.now)) live.now == 0)) }
{
    for charge in live {
        if is_unbacked(flash, notes, charge, alloc)? {
            return Ok(false);
        }
    }
    Ok(true)
}

fn is_unbacked<A: Allocator + Clone>(
    flash: &Option<FlashConfig>,
    notes: &[Note<A>],
    charge: &Charge<A>,
    alloc: &A,
) -> Result<bool, AllocError>
    requires bits { IfSome flash.now (λ f. f.bits ≤ 64) }
    requires buckets { IfSome flash.now (λ f. 1 ≤ f.buckets) }
    ensures { IfOk result (λ is_unbacked. is_unbacked ≡ spec.is_unbacked flash.now (past [] notes.now) charge.now) }
{
    let entry = entry_at(flash, notes, &charge.key, alloc)?;
    Ok(charge.linked && !is_backed(&entry, charge))
}

/// Whether the entry's value is what was charged.
fn is_backed<A: Allocator>(entry: &Option<Entry<'_, A>>, charge: &Charge<A>) -> bool
    ensures { result ≡ lawful.is_backed entry.now charge.now }
{
    match entry {
        Some(entry) => charge.bytes == 32 + charge.key.len() as u64 + entry.len(),
        None => false,
    }
}

/// Whether no key has two linked charges.
fn are_single<A: Allocator>(live: &[Charge<A>]) -> bool
    ensures { result ≡ list_all (spec.is_single live.now) live.now }
{
    for charge in live {
        if linked_count(live, &charge.key) > 1 {
            return false;
        }
    }
    true
}

/// How many linked charges the key has.
fn linked_count<A: Allocator>(live: &[Charge<A>], key: &Key<A>) -> u64
    ensures { result ≡ count (is_linked key.now) live.now }
{
    let mut count = 0;
    for charge in live {
        if charge.is_linked(key) {
            count += 1;
        }
    }
    count
}

/// Whether each of the keys that wait has an entry in the map, and no linked charge.
fn none_strays<A: Allocator + Clone>(
    flash: &Option<FlashConfig>,
    notes: &[Note<A>],
    keys: &[Key<A>],
    alloc: &A,
) -> Result<bool, AllocError>
    requires bits { IfSome flash.now (λ f. f.bits ≤ 64) }
    requires buckets { IfSome flash.now (λ f. 1 ≤ f.buckets) }
    ensures { IfOk result (λ none_strays. none_strays ≡ (count (lawful.is_stray flash.now (past [] notes.now)) keys.now == 0)) }
{
    for key in keys {
        if is_stray(flash, notes, key, alloc)? {
            return Ok(false);
        }
    }
    Ok(true)
}

/// Whether a key that waits has no entry in the map, or a linked charge.
fn is_stray<A: Allocator + Clone>(
    flash: &Option<FlashConfig>,
    notes: &[Note<A>],
    key: &Key<A>,
    alloc: &A,
) -> Result<bool, AllocError>
    requires bits { IfSome flash.now (λ f. f.bits ≤ 64) }
    requires buckets { IfSome flash.now (λ f. 1 ≤ f.buckets) }
    ensures { IfOk result (λ is_stray. is_stray ≡ lawful.is_stray flash.now (past [] notes.now) key.now) }
{
    if entry_at(flash, notes, key, alloc)?.is_none() {
        return Ok(true);
    }
    let live = charges(notes, alloc)?;
    Ok(has_linked(&live, key))
}

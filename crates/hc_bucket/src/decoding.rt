// A page's entries, copied out of it.
ghost use Rattle.std.specs.Prelude.{◌≡◌, List, option_map, IfOk, IfSome, IfNone};
ghost use Rattle.hc_types.specs.FlashEntry.{FlashEntry, entry_of, entries_of};
ghost use Rattle.hc_bucket.specs.Page.{Fits, IsPage};
ghost use Rattle.hc_bucket.specs.Placed.{entry_placed};
ghost use Rattle.hc_bucket.specs.Reading.{page_at};

use crate::entries::Entries;
use crate::placed::Placed;
use bytes::Bytes;
use hc_types::{Entry, Key};
use std::alloc::{AllocError, Allocator};

/// A copy of this entry.
fn copy_of<A: Allocator + Clone>(alloc: &A, placed: &Placed<'_>) -> Result<Entry<A>, AllocError>
    ensures { IfOk result (λ entry. entry_of entry ≡ entry_placed placed.now) }
{
    let value = Bytes::copy_from_slice(alloc.clone()?, placed.value)?;
    match Key::new(alloc.clone()?, placed.key) {
        Ok(key) => Ok(Entry {
            key,
            value,
            pool: placed.pool,
            expiry: placed.expiry,
        }),
        Err(_) => Err(AllocError),
    }
}

/// Copies of all of them.
fn copies_of<A: Allocator + Clone>(
    alloc: &A,
    entries: Entries<'_>,
) -> Result<Vec<Entry<A>, A>, AllocError>
    ensures { IfOk result (λ copies. entries_of copies.items ≡ entries.entry) }
{
    let mut entries = entries;
    let mut copies = Vec::new(alloc.clone()?);
    while let Some(placed) = entries.take_first() {
        let copy = copy_of(alloc, &placed)?;
        copies.push(copy)?;
    }
    Ok(copies)
}

/// The entries of this page, the oldest first, or `None` where these bytes are no page of this size. They are copied.
pub fn decode_page<A: Allocator + Clone>(
    alloc: A,
    page: &[u8],
    page_size: usize,
) -> Result<Option<Vec<Entry<A>, A>>, AllocError>
    ensures page { IfOk result (λ read. IfSome read (λ entries. IsPage page_size (entries_of entries.items) page.now)) }
    ensures read { IfOk result (λ read. option_map (λ entries. entries_of entries.items) read ≡ page_at page_size page.now) }
    ensures fits { IfOk result (λ read. IfSome read (λ entries. Fits page_size (entries_of entries.items))) }
    ensures only { IfOk result (λ read. IfSome read (λ entries. (es : List FlashEntry) → IsPage page_size es page.now → es ≡ entries_of entries.items)) }
    ensures no_page { IfOk result (λ read. IfNone read ((es : List FlashEntry) → ¬ IsPage page_size es page.now)) }
{
    match Entries::of_page(page, page_size) {
        Some(entries) => {
            let copies = copies_of(&alloc, entries)?;
            Ok(Some(copies))
        }
        None => Ok(None),
    }
}

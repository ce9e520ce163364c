// The entries of buckets, and their Bloom words.
ghost use Rattle.std.specs.Prelude.{◌≡◌, ◌==◌, List, [], ◌∷◌, IfOk};
ghost use Rattle.std.specs.List.{list_any};
ghost use Rattle.hc_types.specs.FlashEntry.{entries_of};
ghost use Rattle.hc_bucket.specs.Bloom as bloom;
ghost use Rattle.hc_history.specs.Note.{Note as Meaning};
ghost use Rattle.hc_history.specs.Pages as spec;
ghost use Rattle.hc_history.specs.Lawful as lawful;
ghost use Rattle.hc_history.specs.Lawful.{past};
ghost use Rattle.hc_types.specs.Places.{bucket_at};
ghost use Rattle.hc_types.specs.declared.config.FlashConfig.{FlashConfig as Flash};
ghost use Rattle.hc_judge_device.specs.Limits.{IsLimited};
ghost use Rattle.hc_judge_device.specs.Reading.{entries_held};

use bytes::Bytes;
use hc_bucket::decode_page;
use hc_history::{Note, Said};
use hc_types::{Entry, FlashConfig, Key, Scope, bucket_of, hash};
use std::alloc::{AllocError, Allocator};

/// The entries that a page's bytes hold, the oldest first: none, where they are no page of this size.
pub fn entries_in<A: Allocator + Clone>(
    size: u64,
    bytes: &[u8],
    alloc: &A,
) -> Result<Vec<Entry<A>, A>, AllocError>
    ensures { IfOk result (λ entries. entries_of entries.items ≡ spec.entries_in size bytes.now) }
{
    match decode_page(alloc.clone()?, bytes, size as usize)? {
        Some(entries) => Ok(entries),
        None => Ok(Vec::new(alloc.clone()?)),
    }
}

/// The entries of a bucket, the oldest first: those of its page as last written, unless the bucket was given up since.
pub fn bucket_entries<A: Allocator + Clone>(
    flash: &FlashConfig,
    notes: &[Note<A>],
    bucket: u64,
    alloc: &A,
) -> Result<Vec<Entry<A>, A>, AllocError>
    ensures { IfOk result (λ entries. entries_of entries.items ≡ spec.bucket_entries flash.now (past [] notes.now) bucket) }
{
    match page_of(notes, bucket) {
        Some(page) => entries_in(flash.page, page.as_slice(), alloc),
        None => Ok(Vec::new(alloc.clone()?)),
    }
}

/// The page that has the entries of a bucket: none, where its last write failed or it was given up since.
fn page_of<A: Allocator>(notes: &[Note<A>], bucket: u64) -> Option<&Bytes<A>>
    ensures { (flash : Flash) → entries_held flash.page result ≡ spec.bucket_entries flash (past [] notes.now) bucket }
{
    let mut page = None;
    for note in notes {
        page = page_next(note, bucket, page);
    }
    page
}

/// The same after this note.
fn page_next<'a, A: Allocator>(
    note: &'a Note<A>,
    bucket: u64,
    was: Option<&'a Bytes<A>>,
) -> Option<&'a Bytes<A>>
    ensures { (flash : Flash) (older : List Meaning) → entries_held flash.page was.entry ≡ spec.bucket_entries flash older bucket → entries_held flash.page result ≡ spec.bucket_entries flash (note.now ∷ older) bucket }
{
    match &note.said {
        Said::Wrote {
            page,
            bytes,
            is_written,
        } if u64::from(*page) == bucket => { if *is_written { Some(bytes) } else { None } }
        Said::Lose {
            scope: Scope::Bucket(given_up),
            ..
        } if u64::from(*given_up) == bucket => None,
        _ => was,
    }
}

/// Whether the key's bucket has an entry of it.
pub fn is_in_bucket<A: Allocator + Clone>(
    flash: &FlashConfig,
    notes: &[Note<A>],
    key: &Key<A>,
    alloc: &A,
) -> Result<bool, AllocError>
    requires { IsLimited flash.now }
    ensures { IfOk result (λ found. found ≡ lawful.is_in_bucket flash.now (past [] notes.now) key.now) }
{
    let entries = bucket_entries(flash, notes, bucket_of(key, flash), alloc)?;
    Ok(has_key(&entries, key))
}

/// Whether one of the entries is the key's.
fn has_key<A: Allocator>(entries: &[Entry<A>], key: &Key<A>) -> bool
    ensures { result ≡ spec.has_key key.now (entries_of entries.now) }
{
    for entry in entries {
        if entry.key == *key {
            return true;
        }
    }
    false
}

/// Whether the key's bucket could have an entry of it, by its Bloom word.
pub fn could_have<A: Allocator + Clone>(
    flash: &FlashConfig,
    notes: &[Note<A>],
    key: &Key<A>,
    alloc: &A,
) -> Result<bool, AllocError>
    requires { IsLimited flash.now }
    ensures { IfOk result (λ could. could ≡ bloom.word_has (spec.bucket_entries flash.now (past [] notes.now) (bucket_at flash.now key.now)) key.now) }
{
    let entries = bucket_entries(flash, notes, bucket_of(key, flash), alloc)?;
    Ok(word_has(&entries, key))
}

/// Whether the Bloom word of these entries has all the bits of the key.
fn word_has<A: Allocator>(entries: &[Entry<A>], key: &Key<A>) -> bool
    ensures { result ≡ bloom.word_has (entries_of entries.now) key.now }
{
    let hash = hash(key);
    has_bit(entries, hash % 64)
        && has_bit(entries, (hash >> 8) % 64)
        && has_bit(entries, (hash >> 16) % 64)
        && has_bit(entries, (hash >> 24) % 64)
}

/// Whether one of the entries sets the bit.
fn has_bit<A: Allocator>(entries: &[Entry<A>], bit: u64) -> bool
    ensures { result ≡ bloom.has_bit (entries_of entries.now) bit }
{
    for entry in entries {
        if sets_bit(hash(&entry.key), bit) {
            return true;
        }
    }
    false
}

/// Whether a key of this hash sets the bit.
fn sets_bit(hash: u64, bit: u64) -> bool
    ensures { result ≡ list_any (λ other. other == bit) (bloom.bits_of_hash hash) }
{
    hash % 64 == bit
        || (hash >> 8) % 64 == bit
        || (hash >> 16) % 64 == bit
        || (hash >> 24) % 64 == bit
}

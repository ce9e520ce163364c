// The next record of each kind that an image has many of, put behind the bytes of its frame.
ghost use Rattle.std.specs.Prelude.{◌≡◌, map, IfOk};
ghost use Rattle.std.specs.Vec.Iter.{into_iter_items};
ghost use Rattle.hc_types.specs.FlashEntry.{entry_of, entries_of};
ghost use Rattle.hc_region.specs.Resting.{rest_of};
ghost use Rattle.hc_image.specs.Saved.{put_frame, stone_frame, word_frame, region_frame, lead_frame, digest_frame, rest_or_clean};
ghost use Rattle.hc_image.specs.Saving.{Puts, Makes};

use hc_block::{Lead, Leads};
use hc_image_text::{Kind, put_entry, put_key, put_lead, put_number, put_region, put_word};
use hc_region::{AtRest, Region};
use hc_types::{Entry, Key, VALUE_MAX};
use std::alloc::{AllocError, Allocator};
use std::marker::Model;
use std::vec::IntoIter;

/// A record that there is once. It isn't the one that ends the image.
#[derive(Drop)]
pub(crate) struct Record<A: Allocator> {
    pub(crate) kind: Kind,
    pub(crate) body: Vec<u8, A>,
}

impl<A: Allocator> Model for Record<A> {
    ghost use Rattle.std.specs.Prelude.{◌≡◌, false};
    ghost use Rattle.hc_image_text.specs.Frames.{Frame as Meaning, framed};
    ghost use Rattle.hc_image_text.specs.Images.{is_end};

    ghost Value = { Meaning };

    ghost view = { λ r. framed r.kind r.body.items };

    ghost invariant = { λ r. is_end r.kind ≡ false };
}

impl<A: Allocator + Clone> Record<A> {
    /// The record goes behind the bytes.
    fn put(&self, out: &mut Vec<u8, A>) -> Result<Option<Kind>, AllocError>
        ensures { IfOk result (λ made. Puts self.now made out.old.items out.new.items) }
    {
        match out.extend_from_slice(self.body.as_slice()) {
            Ok(()) => Ok(Some(self.kind)),
            Err(_) => Err(AllocError),
        }
    }
}

/// The digest of a page goes behind the bytes.
fn put_digest<A: Allocator + Clone>(
    out: &mut Vec<u8, A>,
    digest: u64,
) -> Result<Option<Kind>, AllocError>
    ensures { IfOk result (λ made. Puts (digest_frame digest) made out.old.items out.new.items) }
{
    match put_number(out, digest) {
        Ok(()) => Ok(Some(Kind::Digests)),
        Err(_) => Err(AllocError),
    }
}

/// A put that waits goes behind the bytes.
fn put_put<A: Allocator + Clone>(
    alloc: A,
    out: &mut Vec<u8, A>,
    put: &Entry<A>,
) -> Result<Option<Kind>, AllocError>
    ensures { IfOk result (λ made. Puts (put_frame (entry_of put.now)) made out.old.items out.new.items) }
{
    if put.value.len() as u64 > VALUE_MAX {
        // (no cache has a longer one)
        return Err(AllocError);
    }
    match put_entry(alloc, out, put) {
        Ok(()) => Ok(Some(Kind::Put)),
        Err(_) => Err(AllocError),
    }
}

/// The key of a tombstone goes behind the bytes.
fn put_stone<A: Allocator + Clone>(
    out: &mut Vec<u8, A>,
    key: &Key<A>,
) -> Result<Option<Kind>, AllocError>
    ensures { IfOk result (λ made. Puts (stone_frame key.now) made out.old.items out.new.items) }
{
    match put_key(out, key) {
        Ok(()) => Ok(Some(Kind::Tombstone)),
        Err(_) => Err(AllocError),
    }
}

/// The word of a bucket goes behind the bytes.
fn put_bucket<A: Allocator + Clone>(
    out: &mut Vec<u8, A>,
    word: Option<u64>,
) -> Result<Option<Kind>, AllocError>
    ensures { IfOk result (λ made. Puts (word_frame word) made out.old.items out.new.items) }
{
    match put_word(out, word) {
        Ok(()) => Ok(Some(Kind::Words)),
        Err(_) => Err(AllocError),
    }
}

/// Where the region stands: a clean one, where it isn't at rest.
fn rest_of<A: Allocator + Clone + Copy>(region: &Region<A>) -> AtRest
    ensures { result ≡ rest_or_clean (rest_of region.now.status) }
{
    match region.rest() {
        Some(rest) => rest,
        None => AtRest::Clean,
    }
}

/// A region goes behind the bytes.
fn put_one_region<A: Allocator + Clone + Copy>(
    out: &mut Vec<u8, A>,
    region: &Region<A>,
) -> Result<Option<Kind>, AllocError>
    ensures { IfOk result (λ made. Puts (region_frame region.now) made out.old.items out.new.items) }
{
    if region.appended().len() > u32::MAX as usize {
        // (no region has so many)
        return Err(AllocError);
    }
    match put_region(out, rest_of(region), region) {
        Ok(()) => Ok(Some(Kind::Region)),
        Err(_) => Err(AllocError),
    }
}

/// Where a hash leads goes behind the bytes.
fn put_one_lead<A: Allocator + Clone>(
    out: &mut Vec<u8, A>,
    lead: &Lead,
) -> Result<Option<Kind>, AllocError>
    ensures { IfOk result (λ made. Puts (lead_frame lead.now) made out.old.items out.new.items) }
{
    match put_lead(out, lead.hash(), lead.place()) {
        Ok(()) => Ok(Some(Kind::Leads)),
        Err(_) => Err(AllocError),
    }
}

// ---- the next of each kind

/// The next of the records that there are once.
pub(crate) fn next_record<A: Allocator + Clone>(
    records: &mut IntoIter<Record<A>, A>,
    out: &mut Vec<u8, A>,
) -> Result<Option<Kind>, AllocError>
    ensures { IfOk result (λ made. Makes made (into_iter_items records.old) (into_iter_items records.new) out.old.items out.new.items) }
{
    match records.next() {
        Some(record) => record.put(out),
        None => Ok(None),
    }
}

/// The next of the digests of pages.
pub(crate) fn next_digest<A: Allocator + Clone>(
    digests: &mut IntoIter<u64, A>,
    out: &mut Vec<u8, A>,
) -> Result<Option<Kind>, AllocError>
    ensures { IfOk result (λ made. Makes made (map digest_frame (into_iter_items digests.old)) (map digest_frame (into_iter_items digests.new)) out.old.items out.new.items) }
{
    match digests.next() {
        Some(digest) => put_digest(out, digest),
        None => Ok(None),
    }
}

/// The next of the puts that wait.
pub(crate) fn next_put<A: Allocator + Clone>(
    alloc: A,
    puts: &mut IntoIter<Entry<A>, A>,
    out: &mut Vec<u8, A>,
) -> Result<Option<Kind>, AllocError>
    ensures { IfOk result (λ made. Makes made (map put_frame (entries_of (into_iter_items puts.old))) (map put_frame (entries_of (into_iter_items puts.new))) out.old.items out.new.items) }
{
    match puts.next() {
        Some(put) => put_put(alloc, out, &put),
        None => Ok(None),
    }
}

/// The next of the tombstones.
pub(crate) fn next_stone<A: Allocator + Clone>(
    keys: &mut IntoIter<Key<A>, A>,
    out: &mut Vec<u8, A>,
) -> Result<Option<Kind>, AllocError>
    ensures { IfOk result (λ made. Makes made (map stone_frame (into_iter_items keys.old)) (map stone_frame (into_iter_items keys.new)) out.old.items out.new.items) }
{
    match keys.next() {
        Some(key) => put_stone(out, &key),
        None => Ok(None),
    }
}

/// The next of the buckets' words.
pub(crate) fn next_word<A: Allocator + Clone>(
    words: &mut IntoIter<Option<u64>, A>,
    out: &mut Vec<u8, A>,
) -> Result<Option<Kind>, AllocError>
    ensures { IfOk result (λ made. Makes made (map word_frame (into_iter_items words.old)) (map word_frame (into_iter_items words.new)) out.old.items out.new.items) }
{
    match words.next() {
        Some(word) => put_bucket(out, word),
        None => Ok(None),
    }
}

/// The next of the regions.
pub(crate) fn next_region<A: Allocator + Clone + Copy>(
    regions: &mut IntoIter<Region<A>, A>,
    out: &mut Vec<u8, A>,
) -> Result<Option<Kind>, AllocError>
    ensures { IfOk result (λ made. Makes made (map region_frame (into_iter_items regions.old)) (map region_frame (into_iter_items regions.new)) out.old.items out.new.items) }
{
    match regions.next() {
        Some(region) => put_one_region(out, &region),
        None => Ok(None),
    }
}

/// Where the next of the hashes leads.
pub(crate) fn next_lead<A: Allocator + Clone>(
    leads: &mut Leads<A>,
    out: &mut Vec<u8, A>,
) -> Result<Option<Kind>, AllocError>
    ensures { IfOk result (λ made. Makes made (map lead_frame leads.old) (map lead_frame leads.new) out.old.items out.new.items) }
{
    match leads.next() {
        Some(lead) => put_one_lead(out, &lead),
        None => Ok(None),
    }
}

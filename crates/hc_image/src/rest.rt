// The records that a saver didn't give yet.
ghost use Rattle.std.specs.Prelude.{◌≡◌, [], ◌++◌, map, IfOk};
ghost use Rattle.std.specs.Vec.Iter.{into_iter_items};
ghost use Rattle.hc_types.specs.FlashEntry.{entries_of};
ghost use Rattle.hc_machine.specs.items.Items.{items_of};
ghost use Rattle.hc_image.specs.Saved.{lead_frame, digest_frame, item_frame, waiting_frames, engine_frames};
ghost use Rattle.hc_image.specs.Saving.{Makes, leads_of};

use crate::items::next_item;
use crate::making::{
    Record, next_digest, next_lead, next_put, next_record, next_region, next_stone, next_word,
};
use hc_block::Leads;
use hc_image_text::Kind;
use hc_region::Region;
use hc_state::Parts;
use hc_types::{Entry, Key};
use std::alloc::{AllocError, Allocator};
use std::marker::Model;
use std::vec::IntoIter;

/// What waits for flash, and what both engines have. Contracts see the frames of these.
pub(crate) struct OnFlash<A: Allocator> {
    pub(crate) puts: IntoIter<Entry<A>, A>,
    pub(crate) keys: IntoIter<Key<A>, A>,
    pub(crate) words: IntoIter<Option<u64>, A>,
    pub(crate) regions: IntoIter<Region<A>, A>,
    // none without flash
    pub(crate) leads: Option<Leads<A>>,
}

// (written out, so that who drops it calls this one function)
impl<A: Allocator> Drop for OnFlash<A> {
    fn drop(self) {
        let OnFlash {
            puts: _,
            keys: _,
            words: _,
            regions: _,
            leads: _,
        } = self;
    }
}

impl<A: Allocator> Model for OnFlash<A> {
    ghost use Rattle.std.specs.Prelude.{List, ◌++◌};
    ghost use Rattle.std.specs.Vec.Iter.{into_iter_items};
    ghost use Rattle.hc_types.specs.FlashEntry.{entries_of};
    ghost use Rattle.hc_image_text.specs.Frames.{Frame};
    ghost use Rattle.hc_image.specs.Saved.{waiting_frames, engine_frames};
    ghost use Rattle.hc_image.specs.Saving.{leads_of};

    ghost Value = { List Frame };

    ghost view = { λ f. waiting_frames (entries_of (into_iter_items f.puts)) (into_iter_items f.keys) ++ engine_frames (into_iter_items f.words) (into_iter_items f.regions) (leads_of f.leads) };
}

/// All records that weren't given yet. Contracts see their frames, in order.
pub(crate) struct Rest<A: Allocator> {
    pub(crate) records: IntoIter<Record<A>, A>,
    pub(crate) digests: IntoIter<u64, A>,
    pub(crate) on_flash: OnFlash<A>,
    // whose flash was taken out
    pub(crate) parts: Parts<A>,
}

// (written out, so that who drops it calls this one function)
impl<A: Allocator> Drop for Rest<A> {
    fn drop(self) {
        let Rest {
            records: _,
            digests: _,
            on_flash: _,
            parts: _,
        } = self;
    }
}

impl<A: Allocator> Model for Rest<A> {
    ghost use Rattle.std.specs.Prelude.{List, ◌++◌, map};
    ghost use Rattle.std.specs.Vec.Iter.{into_iter_items};
    ghost use Rattle.hc_machine.specs.items.Items.{items_of};
    ghost use Rattle.hc_image_text.specs.Frames.{Frame};
    ghost use Rattle.hc_image.specs.Saved.{digest_frame, item_frame};

    ghost Value = { List Frame };

    ghost view = { λ r. into_iter_items r.records ++ (map digest_frame (into_iter_items r.digests) ++ (r.on_flash ++ map item_frame (items_of r.parts.memory.pools))) };
}

/// Where the next of the hashes leads, where there is flash.
fn next_if_any<A: Allocator + Clone>(
    leads: &mut Option<Leads<A>>,
    out: &mut Vec<u8, A>,
) -> Result<Option<Kind>, AllocError>
    ensures { IfOk result (λ made. Makes made (map lead_frame (leads_of leads.old)) (map lead_frame (leads_of leads.new)) out.old.items out.new.items) }
{
    match leads {
        Some(leads) => next_lead(leads, out),
        None => Ok(None),
    }
}

/// The next region, or then where a hash leads.
fn next_large<A: Allocator + Clone + Copy>(
    regions: &mut IntoIter<Region<A>, A>,
    leads: &mut Option<Leads<A>>,
    out: &mut Vec<u8, A>,
) -> Result<Option<Kind>, AllocError>
    ensures { IfOk result (λ made. Makes made (engine_frames [] (into_iter_items regions.old) (leads_of leads.old)) (engine_frames [] (into_iter_items regions.new) (leads_of leads.new)) out.old.items out.new.items) }
{
    match next_region(regions, out) {
        Ok(None) => next_if_any(leads, out),
        made => made,
    }
}

/// The next word of a bucket, or then what the large engine has.
fn next_of_engines<A: Allocator + Clone + Copy>(
    words: &mut IntoIter<Option<u64>, A>,
    regions: &mut IntoIter<Region<A>, A>,
    leads: &mut Option<Leads<A>>,
    out: &mut Vec<u8, A>,
) -> Result<Option<Kind>, AllocError>
    ensures { IfOk result (λ made. Makes made (engine_frames (into_iter_items words.old) (into_iter_items regions.old) (leads_of leads.old)) (engine_frames (into_iter_items words.new) (into_iter_items regions.new) (leads_of leads.new)) out.old.items out.new.items) }
{
    match next_word(words, out) {
        Ok(None) => next_large(regions, leads, out),
        made => made,
    }
}

/// The next of the puts that wait, or then of the tombstones.
fn next_waiting<A: Allocator + Clone + Copy>(
    alloc: A,
    puts: &mut IntoIter<Entry<A>, A>,
    keys: &mut IntoIter<Key<A>, A>,
    out: &mut Vec<u8, A>,
) -> Result<Option<Kind>, AllocError>
    ensures { IfOk result (λ made. Makes made (waiting_frames (entries_of (into_iter_items puts.old)) (into_iter_items keys.old)) (waiting_frames (entries_of (into_iter_items puts.new)) (into_iter_items keys.new)) out.old.items out.new.items) }
{
    match next_put(alloc, puts, out) {
        Ok(None) => next_stone(keys, out),
        made => made,
    }
}

impl<A: Allocator + Clone + Copy> OnFlash<A> {
    /// The next record goes behind the bytes.
    fn next(&mut self, alloc: A, out: &mut Vec<u8, A>) -> Result<Option<Kind>, AllocError>
        ensures { IfOk result (λ made. Makes made self.old self.new out.old.items out.new.items) }
    {
        match next_waiting(alloc, &mut self.puts, &mut self.keys, out) {
            Ok(None) => next_of_engines(&mut self.words, &mut self.regions, &mut self.leads, out),
            made => made,
        }
    }
}

/// The next of the records that there are once, or then of the digests.
fn next_of_first<A: Allocator + Clone + Copy>(
    records: &mut IntoIter<Record<A>, A>,
    digests: &mut IntoIter<u64, A>,
    out: &mut Vec<u8, A>,
) -> Result<Option<Kind>, AllocError>
    ensures { IfOk result (λ made. Makes made (into_iter_items records.old ++ map digest_frame (into_iter_items digests.old)) (into_iter_items records.new ++ map digest_frame (into_iter_items digests.new)) out.old.items out.new.items) }
{
    match next_record(records, out) {
        Ok(None) => next_digest(digests, out),
        made => made,
    }
}

/// The next of what stands on flash or waits for it, or then of the items.
fn next_of_last<A: Allocator + Clone + Copy>(
    alloc: A,
    on_flash: &mut OnFlash<A>,
    parts: &mut Parts<A>,
    out: &mut Vec<u8, A>,
) -> Result<Option<Kind>, AllocError>
    ensures { IfOk result (λ made. Makes made (on_flash.old ++ map item_frame (items_of parts.old.memory.pools)) (on_flash.new ++ map item_frame (items_of parts.new.memory.pools)) out.old.items out.new.items) }
{
    match on_flash.next(alloc, out) {
        Ok(None) => next_item(alloc, parts, out),
        made => made,
    }
}

impl<A: Allocator + Clone + Copy> Rest<A> {
    /// The next record goes behind the bytes: its kind, or none where all were given.
    pub(crate) fn next(
        &mut self,
        alloc: A,
        out: &mut Vec<u8, A>,
    ) -> Result<Option<Kind>, AllocError>
        ensures { IfOk result (λ made. Makes made self.old self.new out.old.items out.new.items) }
    {
        match next_of_first(&mut self.records, &mut self.digests, out) {
            Ok(None) => next_of_last(alloc, &mut self.on_flash, &mut self.parts, out),
            made => made,
        }
    }
}

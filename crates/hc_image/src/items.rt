// The next item of a cache's parts, put behind the bytes of its frame.
ghost use Rattle.std.specs.Prelude.{◌≡◌, ◌≤◌, nat_le, false, [], ◌∷◌, length, map, IfOk, IfErr, OnOk, MatchOption};
ghost use Rattle.hc_machine.specs.items.Items.{items_of};
ghost use Rattle.hc_image.specs.Saved.{item_frame, numbered};
ghost use Rattle.hc_image.specs.Saving.{Puts, Makes};
ghost use Rattle.hc_image.specs.Loading.{item_by};
ghost use Rattle.hc_image.specs.declared.refusal.Refusal.TheVariants.{Unfit};
ghost use Rattle.hc_image_text.specs.Items.{item_of as seen};

use crate::refusal::Refusal;
use hc_image_text::{KeptItem, Kind, put_item};
use hc_memory::Item;
use hc_state::Parts;
use hc_types::{Entry, VALUE_MAX};
use std::alloc::{AllocError, Allocator};

/// The item, as an image has it.
fn kept_of<A: Allocator>(item: Item<A>) -> KeptItem<A>
    ensures { seen result ≡ numbered item }
{
    let Item {
        number,
        pool,
        key,
        value,
        expiry,
        clean,
    } = item;
    let entry = Entry {
        key,
        value,
        pool,
        expiry,
    };
    KeptItem {
        number,
        clean,
        entry,
    }
}

/// The item of a record. Refused where its value is longer than one can be.
pub(crate) fn item_of<A: Allocator>(kept: KeptItem<A>) -> Result<Item<A>, Refusal>
    ensures ok { IfOk result (λ item. item ≡ item_by (seen kept)) }
    ensures short { OnOk result (length (item_by (seen kept)).value ≤ 1048576) }
    ensures why { IfErr result (λ why. (why ≡ Unfit) × (nat_le (length (item_by (seen kept)).value) 1048576 ≡ false)) }
{
    let KeptItem {
        number,
        clean,
        entry,
    } = kept;
    let Entry {
        key,
        value,
        pool,
        expiry,
    } = entry;
    if value.len() as u64 > VALUE_MAX {
        return Err(Refusal::Unfit);
    }
    Ok(Item {
        number,
        pool,
        key,
        value,
        expiry,
        clean,
    })
}

/// An item goes behind the bytes.
fn put_one_item<A: Allocator + Clone>(
    alloc: A,
    out: &mut Vec<u8, A>,
    item: Item<A>,
) -> Result<Option<Kind>, AllocError>
    ensures { IfOk result (λ made. Puts (item_frame item) made out.old.items out.new.items) }
{
    item.is_short();
    let kept = kept_of(item);
    match put_item(alloc, out, &kept) {
        Ok(()) => Ok(Some(Kind::Item)),
        Err(_) => Err(AllocError),
    }
}

/// Takes the first of all items out: of the first pool that has one, that which was used longest ago.
fn hand_out<A: Allocator>(parts: &mut Parts<A>) -> Option<Item<A>>
    ensures { MatchOption result ((items_of parts.old.memory.pools ≡ []) × (items_of parts.new.memory.pools ≡ [])) (λ item. items_of parts.old.memory.pools ≡ item ∷ items_of parts.new.memory.pools) }
{
    parts.hand_out_item()
}

/// The next item, of the first pool that has one, that which was used longest ago: it leaves the parts.
pub(crate) fn next_item<A: Allocator + Clone>(
    alloc: A,
    parts: &mut Parts<A>,
    out: &mut Vec<u8, A>,
) -> Result<Option<Kind>, AllocError>
    ensures { IfOk result (λ made. Makes made (map item_frame (items_of parts.old.memory.pools)) (map item_frame (items_of parts.new.memory.pools)) out.old.items out.new.items) }
{
    match hand_out(parts) {
        Some(item) => put_one_item(alloc, out, item),
        None => Ok(None),
    }
}

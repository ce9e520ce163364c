// Items that went for one that comes from flash lose their clean marks, where flash loses them at the same time.
ghost use Rattle.std.specs.Prelude.{◌≡◌, ◌<◌, ◌≤◌, ◌^◌, length};
ghost use Rattle.hc_types.specs.Loss.{covers as is_covered};
ghost use Rattle.hc_memory.specs.Sound.{FlashFits};
ghost use Rattle.hc_state.specs.fill.Link.{is_lost as is_lost_seen, marked_by, all_marked_by};

use hc_engines::Loss;
use hc_memory::Item;
use hc_types::{FlashConfig, Key};
use std::alloc::Allocator;

/// Whether the loss covers a key whose value has `len` bytes.
fn loses<A: Allocator>(flash: &Option<FlashConfig>, loss: &Loss<A>, key: &Key<A>, len: u64) -> bool
    requires fits { FlashFits flash.now }
    requires len { len < 2 ^ 63 }
    ensures { result ≡ is_covered flash.now loss.now.scope key.now len }
{
    loss.scope.covers(flash, key, len)
}

/// Whether one of the losses covers a key whose value has `len` bytes.
fn is_lost<A: Allocator>(
    flash: &Option<FlashConfig>,
    losses: &[Loss<A>],
    key: &Key<A>,
    len: u64,
) -> bool
    requires fits { FlashFits flash.now }
    requires len { len < 2 ^ 63 }
    ensures { result ≡ is_lost_seen flash.now losses.now key.now len }
{
    for loss in losses {
        if loses(flash, loss, key, len) {
            return true;
        }
    }
    false
}

/// The item loses its clean mark, where one of the losses covers it.
fn mark<A: Allocator>(flash: &Option<FlashConfig>, losses: &[Loss<A>], item: &mut Item<A>)
    requires fits { FlashFits flash.now }
    ensures { item.new ≡ marked_by flash.now losses.now item.old }
{
    if is_lost(flash, losses, &item.key, item.value.len() as u64) {
        item.clean = false;
    }
}

/// Each of the items loses its clean mark, where one of the losses covers it.
pub(crate) fn mark_all<A: Allocator>(
    flash: &Option<FlashConfig>,
    losses: &[Loss<A>],
    items: &mut Vec<Item<A>, A>,
)
    requires fits { FlashFits flash.now }
    ensures { items.new.items ≡ all_marked_by flash.now losses.now items.old.items }
{
    for item in items.iter_mut() {
        mark(flash, losses, item);
    }
}

// Items that are given up before they are inserted.
ghost use Rattle.std.specs.Prelude.{◌≡◌, true};
ghost use Rattle.hc_machine.specs.Cache.{Discarded};
ghost use Rattle.hc_machine.specs.Calls.{is_known, discard as discard_step};
ghost use Rattle.hc_core.specs.Logged.{IsCall};

use crate::cache::Core;
use hc_history::{Note, Notes};
use hc_memory::{Blank, Sealed};
use std::alloc::Allocator;

/// Gives up an item of this cache that wasn't inserted.
pub(crate) fn give_up<N: Notes<Note<A>>, A: Allocator + Clone + Copy>(
    core: &mut Core<N, A>,
    sealed: Sealed<A>,
)
    requires mine { is_known core.old.cache sealed ≡ true }
    ensures { IsCall (discard_step sealed core.old.cache) Discarded core.old core.new }
{
    match core.discard(sealed) {
        Ok(()) => {}
        Err(_) => unreachable!(),
    }
}

/// Gives up an item of this cache that wasn't sealed.
pub(crate) fn give_up_blank<N: Notes<Note<A>>, A: Allocator + Clone + Copy>(
    core: &mut Core<N, A>,
    blank: Blank<A>,
)
    requires mine { is_known core.old.cache blank ≡ true }
    ensures { IsCall (discard_step blank core.old.cache) Discarded core.old core.new }
{
    match core.discard_blank(blank) {
        Ok(()) => {}
        Err(_) => unreachable!(),
    }
}

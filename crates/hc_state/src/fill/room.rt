// Room for what the end of a fill tells, buries and lets wait, before it changes anything.
ghost use Rattle.std.specs.Prelude.{◌≡◌, ◌<◌, ◌≤◌, ◌+◌, ◌*◌, IfSome, OnOk};
ghost use Rattle.hc_state.specs.fill.Plan.{HasRoomToEnd, losses_by};
ghost use Rattle.hc_state.specs.fill.Commit.{most_told_in};
ghost use Rattle.hc_state.specs.Whole.{Stays, nvm_of, spare_of};

use crate::begin::{NOTES_OF_A_CHARGE, NOTES_OF_A_VICTIM, NOTES_OF_A_WAITER};
use crate::state::State;
use hc_history::{Note, Notes};
use hc_nvm::{Ending, Nvm};
use std::alloc::{AllocError, Allocator};

/// The most notes that flash tells as a get is over, beside its losses and the tombstones that end with it.
const NOTES_OF_AN_END: usize = 5;

/// Room for so many more puts that wait, and so many tombstones, where there is flash.
fn reserve_flash<A: Allocator + Clone + Copy>(
    nvm: &mut Option<Nvm<A>>,
    puts: usize,
    stones: usize,
) -> Result<(), AllocError>
    ensures same { nvm_of nvm.new ≡ nvm_of nvm.old }
    ensures puts { OnOk result (puts ≤ (spare_of nvm.new).puts) }
    ensures stones { OnOk result (stones ≤ (spare_of nvm.new).stones) }
    ensures more_puts { (spare_of nvm.old).puts ≤ (spare_of nvm.new).puts }
    ensures more_stones { (spare_of nvm.old).stones ≤ (spare_of nvm.new).stones }
    ensures more_fills { (spare_of nvm.old).fills ≤ (spare_of nvm.new).fills }
{
    match nvm {
        Some(nvm) => nvm.reserve(puts, stones, 0),
        None => Ok(()),
    }
}

/// How many notes flash tells at most with so many losses, where so many tombstones stand. None where that is more than can
/// be counted.
fn most_with(losses: usize, stones: usize) -> Option<usize>
    ensures { IfSome result (λ most. most ≡ losses + (stones + 5)) }
{
    let most = stones.checked_add(NOTES_OF_AN_END)?;
    losses.checked_add(most)
}

/// How many notes flash tells at most as a get is over so.
fn most_told<A: Allocator + Clone + Copy>(nvm: &Option<Nvm<A>>, ending: &Ending<A>) -> Option<usize>
    ensures { IfSome result (λ most. most ≡ most_told_in (losses_by ending.now) (nvm_of nvm.now)) }
{
    match nvm {
        Some(nvm) => most_with(ending.losses().len(), nvm.how_many_tombstones()),
        None => Some(0),
    }
}

/// How many notes the end of a fill tells, where flash tells so many of them, so many items go for what it brought, and so
/// many calls wait; beside one for each open charge. None where that is more than can be counted.
fn notes_to_end(most: usize, charges: usize, victims: usize, waiting: usize) -> Option<usize>
    requires charges { charges ≤ 16777216 }
    requires victims { victims ≤ 1048576 }
    ensures { IfSome result (λ notes. notes ≡ charges + 1 + (most + (2 * victims + 2 + 6 * waiting))) }
{
    let each = waiting.checked_mul(NOTES_OF_A_WAITER)?;
    let told = each.checked_add(most)?;
    told.checked_add(charges + NOTES_OF_A_VICTIM * victims + NOTES_OF_A_CHARGE + 1)
}

impl<N: Notes<Note<A>>, A: Allocator + Clone + Copy> State<N, A> {
    /// Room for what the end of a fill tells, buries and lets wait, where so many items go for what it brought, and so many
    /// calls wait. Refused only when out of memory.
    pub(crate) fn room_to_end(
        &mut self,
        ending: &Ending<A>,
        victims: usize,
        waiting: usize,
    ) -> Result<(), AllocError>
        requires victims { victims ≤ 1048576 }
        ensures stays { Stays self.old self.new }
        ensures room { OnOk result (HasRoomToEnd ending.now victims waiting self.old.cache self.new) }
    {
        let Some(most) = most_told(&self.nvm, ending) else {
            return Err(AllocError);
        };
        let Some(notes) = notes_to_end(most, self.pools.open_charges(), victims, waiting) else {
            return Err(AllocError);
        };
        reserve_flash(&mut self.nvm, victims, waiting)?;
        self.notes.reserve(notes)
    }
}

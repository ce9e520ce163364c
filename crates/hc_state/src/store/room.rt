// Room for what an insert or a remove tells and buries, before it changes anything.
ghost use Rattle.std.specs.Prelude.{◌≡◌, ◌<◌, ◌≤◌, ◌+◌, ◌*◌, ◌⊎◌, length, IsSome, IfSome, IfNone, OnOk, OnErr};
ghost use Rattle.hc_state.specs.store.Commit.{how_many};
ghost use Rattle.hc_state.specs.wait.Commit.{waiters_at};
ghost use Rattle.hc_state.specs.Whole.{MayWant, Stays, nvm_of};

use crate::begin::{NOTES_OF_A_CALL, NOTES_OF_A_WAITER};
use crate::state::State;
use hc_history::{Note, Notes};
use hc_nvm::Nvm;
use hc_types::Key;
use std::alloc::{AllocError, Allocator};

/// How many calls wait for the key.
fn how_many_wait<A: Allocator + Clone + Copy>(nvm: &Option<Nvm<A>>, key: &Key<A>) -> usize
    ensures { result ≡ length (waiters_at (nvm_of nvm.now) key.now) }
{
    match nvm {
        Some(nvm) => nvm.waiters(key).len(),
        None => 0,
    }
}

/// How many notes a call tells for whose key so many others wait, beside one for each open charge. None where that is more
/// than can be counted.
fn notes_for(waiting: usize, charges: usize) -> Option<usize>
    requires { charges ≤ 16777216 }
    ensures notes { IfSome result (λ notes. notes ≡ 6 * waiting + 8 + charges) }
    ensures none { IfNone result (0 < waiting) }
{
    let each = waiting.checked_mul(NOTES_OF_A_WAITER)?;
    each.checked_add(NOTES_OF_A_CALL + charges)
}

impl<N: Notes<Note<A>>, A: Allocator + Clone + Copy> State<N, A> {
    /// Room for the tombstones of a call for whose key so many others wait.
    fn room_for_stones(&mut self, waiting: usize) -> Result<(), AllocError>
        ensures stays { Stays self.old self.new }
        ensures notes { self.old.notes ≤ self.new.notes }
        ensures stones { OnOk result (waiting + 1 ≤ self.new.spare.stones) }
        ensures silent { OnErr result ((0 < waiting) ⊎ IsSome self.old.cache.nvm) }
    {
        let Some(stones) = waiting.checked_add(1) else {
            return Err(AllocError);
        };
        match &mut self.nvm {
            Some(nvm) => nvm.reserve(0, stones, 0),
            None => Ok(()),
        }
    }

    /// Room for what a call tells and buries that inserts or removes this key. Refused only when out of memory.
    pub(crate) fn room_for(&mut self, key: &Key<A>) -> Result<(), AllocError>
        ensures stays { Stays self.old self.new }
        ensures notes { OnOk result (6 * how_many key.now self.old + 8 + length self.old.cache.memory.charges ≤ self.new.notes) }
        ensures stones { OnOk result (how_many key.now self.old + 1 ≤ self.new.spare.stones) }
        ensures silent { OnErr result (MayWant self.old.log self.old.cache) }
    {
        let waiting = how_many_wait(&self.nvm, key);
        let Some(notes) = notes_for(waiting, self.pools.open_charges()) else {
            return Err(AllocError);
        };
        self.notes.reserve(notes)?;
        self.room_for_stones(waiting)
    }
}

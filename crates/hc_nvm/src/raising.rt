// Tombstones end.
ghost use Rattle.std.specs.Prelude.{◌≡◌, ◌≤◌, ◌<◌, ◌+◌, length};
ghost use Rattle.hc_history.specs.Told.{told_more};
ghost use Rattle.hc_machine.specs.Nvm.{is_stone_of};
ghost use Rattle.hc_nvm.specs.After.{raised, standing};
ghost use Rattle.hc_waiting.specs.Tombstones.{is_of_bucket};

use crate::telling;
use hc_history::{Note, Notes};
use hc_types::Key;
use hc_waiting::Tombstones;
use std::alloc::Allocator;

/// Those of the bucket end, the oldest first, each told as it goes.
pub(crate) fn raise_bucket<A: Allocator + Copy, N: Notes<Note<A>>>(
    stones: &mut Tombstones<A>,
    bucket: u32,
    notes: &mut N,
)
    requires { length stones.old.stones ≤ N.room notes.old }
    ensures left { stones.new.stones ≡ standing (is_of_bucket stones.old.flash bucket) stones.old.stones }
    ensures flash { stones.new.flash ≡ stones.old.flash }
    ensures stones { stones.old.room ≤ stones.new.room }
    ensures told { N.told notes.new ≡ told_more (N.told notes.old) (raised (is_of_bucket stones.old.flash bucket) stones.old.stones) }
    ensures room { N.room notes.old ≤ N.room notes.new + length stones.old.stones }
{
    while let Some(key) = stones.remove_first(bucket) {
        telling::raised(notes, key);
    }
}

/// That of the key ends, where there is one, and that is told.
pub(crate) fn raise_key<A: Allocator + Copy, N: Notes<Note<A>>>(
    stones: &mut Tombstones<A>,
    key: Key<A>,
    notes: &mut N,
)
    requires { 0 < N.room notes.old }
    ensures left { stones.new.stones ≡ standing (is_stone_of key) stones.old.stones }
    ensures flash { stones.new.flash ≡ stones.old.flash }
    ensures stones { stones.old.room ≤ stones.new.room }
    ensures told { N.told notes.new ≡ told_more (N.told notes.old) (raised (is_stone_of key) stones.old.stones) }
    ensures room { N.room notes.old ≤ N.room notes.new + 1 }
{
    if stones.remove(&key) {
        telling::raised(notes, key);
    } else {
        drop(key);
    }
}

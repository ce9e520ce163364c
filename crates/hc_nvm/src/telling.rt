// What is told of flash, for which there is room.
ghost use Rattle.std.specs.Prelude.{◌≡◌, ◌≤◌, ◌<◌, ◌+◌, ◌∷◌, [], length, option_to_list};
ghost use Rattle.hc_types.specs.Loss.{scope_of};
ghost use Rattle.hc_history.specs.Told.{told_more};
ghost use Rattle.hc_history.specs.Note.{Written, Raised, Opened, Flushed, Cleared, Lose};
ghost use Rattle.hc_machine.specs.Cache.{unmarked_by};
ghost use Rattle.hc_machine.specs.Takes.{region_note, loss_notes};
ghost use Rattle.hc_memory.specs.Memory.{after_unmark};

use hc_engines::Loss;
use hc_history::{Note, Notes, Said, tell_loss};
use hc_memory::Pools;
use hc_types::Key;
use std::alloc::Allocator;

/// Tells a note that was made where notes are kept.
pub(crate) fn tell<A: Allocator, N: Notes<Note<A>>>(notes: &mut N, note: Option<Note<A>>)
    requires { 0 < N.room notes.old }
    ensures told { N.told notes.new ≡ told_more (N.told notes.old) (option_to_list note) }
    ensures room { N.room notes.old ≤ N.room notes.new + 1 }
{
    if let Some(note) = note {
        notes.note(note);
    }
}

/// Tells that the key's tombstone ended.
pub(crate) fn raised<A: Allocator, N: Notes<Note<A>>>(notes: &mut N, key: Key<A>)
    requires { 0 < N.room notes.old }
    ensures told { N.told notes.new ≡ told_more (N.told notes.old) (Raised key ∷ []) }
    ensures room { N.room notes.old ≤ N.room notes.new + 1 }
{
    notes.note(Note::new(Said::Raised { key }));
}

/// Tells that the key's small put is on flash.
pub(crate) fn written<A: Allocator, N: Notes<Note<A>>>(notes: &mut N, key: Key<A>)
    requires { 0 < N.room notes.old }
    ensures told { N.told notes.new ≡ told_more (N.told notes.old) (Written key ∷ []) }
    ensures room { N.room notes.old ≤ N.room notes.new + 1 }
{
    notes.note(Note::new(Said::Written { key }));
}

/// Tells that a region was opened, where one was.
pub(crate) fn opened<A: Allocator, N: Notes<Note<A>>>(notes: &mut N, region: Option<u32>)
    requires { 0 < N.room notes.old }
    ensures told { N.told notes.new ≡ told_more (N.told notes.old) (region_note Opened region) }
    ensures room { N.room notes.old ≤ N.room notes.new + 1 }
{
    if let Some(region) = region {
        notes.note(Note::new(Said::Opened { region }));
    }
}

/// Tells that a region is whole on flash, where one is.
pub(crate) fn flushed<A: Allocator, N: Notes<Note<A>>>(notes: &mut N, region: Option<u32>)
    requires { 0 < N.room notes.old }
    ensures told { N.told notes.new ≡ told_more (N.told notes.old) (region_note Flushed region) }
    ensures room { N.room notes.old ≤ N.room notes.new + 1 }
{
    if let Some(region) = region {
        notes.note(Note::new(Said::Flushed { region }));
    }
}

/// Tells that a region is clean again, where one is.
pub(crate) fn cleared<A: Allocator, N: Notes<Note<A>>>(notes: &mut N, region: Option<u32>)
    requires { 0 < N.room notes.old }
    ensures told { N.told notes.new ≡ told_more (N.told notes.old) (region_note Cleared region) }
    ensures room { N.room notes.old ≤ N.room notes.new + 1 }
{
    if let Some(region) = region {
        notes.note(Note::new(Said::Cleared { region }));
    }
}

/// Tells a loss, which takes the clean marks of the items that it covers.
pub(crate) fn lost<A: Allocator + Clone, N: Notes<Note<A>>>(
    notes: &mut N,
    pools: &mut Pools<A>,
    loss: Loss<A>,
)
    requires { 0 < N.room notes.old }
    ensures told { N.told notes.new ≡ told_more (N.told notes.old) (Lose loss.scope loss.cause ∷ []) }
    ensures marks { pools.new ≡ after_unmark pools.old loss.scope }
    ensures room { N.room notes.old ≤ N.room notes.new + 1 }
{
    let Loss { scope, cause } = loss;
    pools.unmark(&scope);
    tell_loss(notes, scope, cause);
}

/// Tells these losses, in order.
pub(crate) fn losses<A: Allocator + Clone, N: Notes<Note<A>>>(
    notes: &mut N,
    pools: &mut Pools<A>,
    losses: Vec<Loss<A>, A>,
)
    requires { length losses.items ≤ N.room notes.old }
    ensures told { N.told notes.new ≡ told_more (N.told notes.old) (loss_notes losses.items) }
    ensures marks { pools.new ≡ unmarked_by (loss_notes losses.items) pools.old }
    ensures room { N.room notes.old ≤ N.room notes.new + length losses.items }
{
    for loss in losses {
        lost(notes, pools, loss);
    }
}

// What a call needs before it changes anything: its number, room for its notes, and the note with which it begins.
ghost use Rattle.std.specs.Prelude.{◌≡◌, ◌+◌, ◌^◌, ◌≤◌, length, IfOk, OnOk, OnErr, IfErr};
ghost use Rattle.hc_history.specs.Note.{Begin, Find};
ghost use Rattle.hc_history.specs.Told.{where_kept, Hears};

use hc_history::{Note, Notes, Op, Said};
use hc_memory::Pools;
use hc_types::{Key, Refusal};
use std::alloc::{AllocError, Allocator};

/// The most notes of a call that stores or removes an item, beside those of the calls that wait for its key: that it begins, of the
/// put that waited, of what the key had, of what flash had of it, twice, of the item that is stored, and its answer and its end.
pub(crate) const NOTES_OF_A_CALL: usize = 8;

/// The most notes of a call that waited, as it is served: the same, without its begin and its end.
pub(crate) const NOTES_OF_A_WAITER: usize = 6;

/// The most notes of an item that goes: of its charge, and of its put or its loss.
pub(crate) const NOTES_OF_A_VICTIM: usize = 2;

/// The notes of an item that is charged: of its charge, and for its being given up or linked.
pub(crate) const NOTES_OF_A_CHARGE: usize = 2;

/// The notes of a find that is answered at once: that it begins, its answer and its end.
pub(crate) const NOTES_OF_A_FIND: usize = 3;

/// The number after `last`. Refused with `NoMemory` where the numbers have run out.
pub(crate) fn number_after(last: u64) -> Result<u64, Refusal>
    ensures ok { IfOk result (λ n. n ≡ last + 1) }
    ensures err { IfErr result (λ refusal. (refusal ≡ Refusal.NoMemory) × (last + 1 ≡ 2 ^ 64)) }
{
    if last == u64::MAX {
        return Err(Refusal::NoMemory);
    }
    Ok(last + 1)
}

/// Makes room for so many notes, beside one for each open charge.
pub(crate) fn room_for_notes<A: Allocator, N: Notes<Note<A>>>(
    notes: &mut N,
    pools: &Pools<A>,
    count: usize,
) -> Result<(), AllocError>
    requires { count ≤ 2 ^ 32 }
    ensures same { N.told notes.new ≡ N.told notes.old }
    ensures room { OnOk result (count + length pools.now.charges ≤ N.room notes.new) }
    ensures more { N.room notes.old ≤ N.room notes.new }
    ensures silent { OnErr result (Hears (N.told notes.old)) }
{
    notes.reserve(count + pools.open_charges())
}

/// The note with which a find of the key begins, where notes are kept.
pub(crate) fn begin_find<A: Allocator, N: Notes<Note<A>>>(
    notes: &N,
    call: u64,
    client: u8,
    key: &Key<A>,
) -> Result<Option<Note<A>>, AllocError>
    ensures { IfOk result (λ note. note ≡ where_kept (N.told notes.now) (Begin call client (Find key.now))) }
{
    if !notes.keeps() {
        return Ok(None);
    }
    let op = Op::Find(key.clone()?);
    Ok(Some(Note::new(Said::Begin { call, client, op })))
}

// What a find that is answered at once needs before anything changes: its notes, where they are kept, with what it finds.
ghost use Rattle.std.specs.Prelude.{◌≡◌, ◌+◌, None, Some, option_map, IfOk};
ghost use Rattle.hc_types.specs.FlashEntry.{entry_of};
ghost use Rattle.hc_history.specs.Note.{Begin, Did, Find};
ghost use Rattle.hc_history.specs.Seen.{reply_of};
ghost use Rattle.hc_history.specs.Told.{where_kept};
ghost use Rattle.hc_machine.specs.Calls.{waiting_at};
ghost use Rattle.hc_machine.specs.Waiting.{live, find_reply};
ghost use Rattle.hc_state.specs.find.Answer.{reply_by, stands_in};
ghost use Rattle.hc_state.specs.Whole.{nvm_of};

use crate::begin::begin_find;
use crate::wait::begin::is_linked;
use bytes::Bytes;
use hc_history::{Note, Notes, Reply, Said};
use hc_memory::{Pools, is_expired};
use hc_nvm::Nvm;
use hc_types::{Entry, Key};
use std::alloc::{AllocError, Allocator};

/// The value of a put that waits, unless it is expired at `now` (seconds).
fn live_value<A: Allocator>(put: Option<Entry<A>>, now: u64) -> Option<Bytes<A>>
    ensures { reply_by result ≡ find_reply (live now (option_map entry_of put)) }
{
    let Some(put) = put else {
        return None;
    };
    let Entry { value, expiry, .. } = put;
    if is_expired(now, expiry) {
        return None;
    }
    Some(value)
}

/// Another owner of the value of the key's put that waits, unless it is expired at `now` (seconds).
pub(crate) fn waiting_value<A: Allocator + Clone + Copy>(
    nvm: &Option<Nvm<A>>,
    key: &Key<A>,
    now: u64,
) -> Result<Option<Bytes<A>>, AllocError>
    ensures { IfOk result (λ found. reply_by found ≡ find_reply (live now (waiting_at (nvm_of nvm.now) key.now))) }
{
    let Some(nvm) = nvm else {
        return Ok(None);
    };
    let put = nvm.put(key)?;
    Ok(live_value(put, now))
}

/// Another owner of the value that stands under the key, unless it is expired at `now` (seconds): of its item, or else of
/// its put that waits. The item isn't used.
fn value_in<A: Allocator + Clone + Copy>(
    pools: &Pools<A>,
    nvm: &Option<Nvm<A>>,
    key: &Key<A>,
    now: u64,
) -> Result<Option<Bytes<A>>, AllocError>
    ensures { IfOk result (λ found. reply_by found ≡ find_reply (live now (stands_in pools.now.pools (nvm_of nvm.now) key.now))) }
{
    if is_linked(pools, key) {
        return pools.value(key, now);
    }
    waiting_value(nvm, key, now)
}

/// What a find is told that came to this value.
fn reply_to_find<A: Allocator>(value: Option<Bytes<A>>) -> Reply<A>
    ensures { reply_of result ≡ reply_by value }
{
    match value {
        Some(value) => Reply::Hit(value),
        None => Reply::Miss,
    }
}

/// A find that is answered at once: its number, and its notes, where they are kept.
#[derive(Drop)]
pub(crate) struct Finding<A: Allocator> {
    pub call: u64,
    pub begin: Option<Note<A>>,
    pub did: Option<Note<A>>,
}

/// The note that answers a find of the key at `now` (seconds), where notes are kept.
fn did_find<A: Allocator + Clone + Copy, N: Notes<Note<A>>>(
    notes: &N,
    call: u64,
    pools: &Pools<A>,
    nvm: &Option<Nvm<A>>,
    key: &Key<A>,
    now: u64,
) -> Result<Option<Note<A>>, AllocError>
    ensures { IfOk result (λ note. note ≡ where_kept (N.told notes.now) (Did call (find_reply (live now (stands_in pools.now.pools (nvm_of nvm.now) key.now))))) }
{
    if !notes.keeps() {
        return Ok(None);
    }
    let reply = reply_to_find(value_in(pools, nvm, key, now)?);
    Ok(Some(Note::new(Said::Did { call, reply })))
}

/// The notes of the find with this number, where notes are kept.
pub(crate) fn notes_of_find<A: Allocator + Clone + Copy, N: Notes<Note<A>>>(
    notes: &N,
    call: u64,
    client: u8,
    pools: &Pools<A>,
    nvm: &Option<Nvm<A>>,
    key: &Key<A>,
    now: u64,
) -> Result<Finding<A>, AllocError>
    ensures call { IfOk result (λ plan. plan.call ≡ call) }
    ensures begin { IfOk result (λ plan. plan.begin ≡ where_kept (N.told notes.now) (Begin call client (Find key.now))) }
    ensures did { IfOk result (λ plan. plan.did ≡ where_kept (N.told notes.now) (Did call (find_reply (live now (stands_in pools.now.pools (nvm_of nvm.now) key.now))))) }
{
    let begin = begin_find(notes, call, client, key)?;
    match did_find(notes, call, pools, nvm, key, now) {
        Ok(did) => Ok(Finding { call, begin, did }),
        Err(no_memory) => {
            drop(begin);
            Err(no_memory)
        }
    }
}

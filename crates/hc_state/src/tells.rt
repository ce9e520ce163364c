// Notes are told, for which there is room: nothing here can fail.
ghost use Rattle.std.specs.Prelude.{◌≡◌, ◌+◌, ◌<◌, ◌≤◌, [], ◌∷◌, option_to_list, option_map};
ghost use Rattle.hc_history.specs.Note.{Did, End, Charged, Linked};
ghost use Rattle.hc_history.specs.Seen.{reply_of};
ghost use Rattle.hc_history.specs.Told.{told_more};
ghost use Rattle.hc_state.specs.Tells.{freed_notes};

use hc_history::{Note, Notes, Reply, Said};
use hc_types::Key;
use std::alloc::Allocator;

/// Tells a note that was made where notes are kept.
pub(crate) fn tell<A: Allocator, N: Notes<Note<A>>>(notes: &mut N, note: Option<Note<A>>)
    requires { 0 < N.room notes.old }
    ensures told { N.told notes.new ≡ told_more (N.told notes.old) (option_to_list note) }
    ensures room { N.room notes.old ≤ N.room notes.new + 1 }
{
    if let Some(note) = note {
        notes.note(note);
    }
}

/// Tells that a reply is handed out. That is counted nowhere, and so told only where notes are kept.
pub(crate) fn ended<A: Allocator, N: Notes<Note<A>>>(notes: &mut N, call: u64)
    requires { 0 < N.room notes.old }
    ensures told { N.told notes.new ≡ told_more (N.told notes.old) (End call ∷ []) }
    ensures room { N.room notes.old ≤ N.room notes.new + 1 }
{
    if notes.keeps() {
        notes.note(Note::new(Said::End { call }));
    }
}

/// Tells that an item can be found. That is counted nowhere, and so told only where notes are kept.
pub(crate) fn linked<A: Allocator, N: Notes<Note<A>>>(notes: &mut N, charge: u64)
    requires { 0 < N.room notes.old }
    ensures told { N.told notes.new ≡ told_more (N.told notes.old) (Linked charge ∷ []) }
    ensures room { N.room notes.old ≤ N.room notes.new + 1 }
{
    if notes.keeps() {
        notes.note(Note::new(Said::Linked { charge }));
    }
}

/// Answers the call: by its note, where notes are kept.
pub(crate) fn answered<A: Allocator, N: Notes<Note<A>>>(notes: &mut N, call: u64, reply: Reply<A>)
    requires { 0 < N.room notes.old }
    ensures told { N.told notes.new ≡ told_more (N.told notes.old) (Did call (reply_of reply) ∷ []) }
    ensures room { N.room notes.old ≤ N.room notes.new + 1 }
{
    if notes.keeps() {
        notes.note(Note::new(Said::Did { call, reply }));
        return;
    }
    let kind = reply.kind();
    drop(reply);
    if let Some(kind) = kind {
        notes.count(kind);
    }
}

/// Answers the call and hands out its reply.
pub(crate) fn end<A: Allocator, N: Notes<Note<A>>>(notes: &mut N, call: u64, reply: Reply<A>)
    requires { 2 ≤ N.room notes.old }
    ensures told { N.told notes.new ≡ told_more (N.told notes.old) (Did call (reply_of reply) ∷ End call ∷ []) }
    ensures room { N.room notes.old ≤ N.room notes.new + 2 }
{
    answered(notes, call, reply);
    ended(notes, call);
}

/// Tells that a charge is free, where there was one. That is counted nowhere, and so told only where notes are kept.
pub(crate) fn freed<A: Allocator, N: Notes<Note<A>>>(notes: &mut N, charge: Option<u64>)
    requires { 0 < N.room notes.old }
    ensures told { N.told notes.new ≡ told_more (N.told notes.old) (freed_notes charge) }
    ensures room { N.room notes.old ≤ N.room notes.new + 1 }
{
    if let Some(charge) = charge {
        if notes.keeps() {
            notes.note(Note::new(Said::Freed { charge }));
        }
    }
}

/// Tells a charge, where notes are kept and its key was copied.
pub(crate) fn charged<A: Allocator, N: Notes<Note<A>>>(
    notes: &mut N,
    copy: Option<Key<A>>,
    charge: u64,
    pool: u8,
    bytes: u64,
)
    requires { 0 < N.room notes.old }
    ensures told { N.told notes.new ≡ told_more (N.told notes.old) (option_to_list (option_map (λ key. Charged charge key pool bytes) copy)) }
    ensures room { N.room notes.old ≤ N.room notes.new + 1 }
{
    if let Some(key) = copy {
        notes.note(Note::new(Said::Charged {
            charge,
            key,
            pool,
            bytes,
        }));
    }
}

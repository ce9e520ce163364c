// The keys that wait for flash, and those with a tombstone, after the notes so far.
ghost use Rattle.std.specs.Prelude.{◌≡◌, not, [], ◌∷◌, List, IfOk, OnOk, filter};
ghost use Rattle.std.specs.Str.{bytes_eq};
ghost use Rattle.hc_history.specs.Note.{Note as Meaning};
ghost use Rattle.hc_history.specs.Books as books;
ghost use Rattle.hc_history.specs.Books.{is_among, without_key};
ghost use Rattle.hc_history.specs.Lawful.{past};

use hc_history::{Note, Said};
use hc_types::Key;
use std::alloc::{AllocError, Allocator};

/// The keys that wait for flash, the last one first. Refused only when out of memory.
pub fn waiting<A: Allocator + Clone>(
    notes: &[Note<A>],
    alloc: &A,
) -> Result<Vec<Key<A>, A>, AllocError>
    ensures { IfOk result (λ keys. keys.items ≡ books.waiting (past [] notes.now)) }
{
    let mut keys = Vec::new(alloc.clone()?);
    for note in notes {
        wait(&mut keys, note)?;
    }
    Ok(keys)
}

fn wait<A: Allocator>(keys: &mut Vec<Key<A>, A>, note: &Note<A>) -> Result<(), AllocError>
    ensures { OnOk result ((older : List Meaning) → keys.old.items ≡ books.waiting older → keys.new.items ≡ books.waiting (note.now ∷ older)) }
{
    match &note.said {
        Said::Queued { key } => put(keys, key),
        Said::Unqueued { key } => {
            take_out(keys, key);
            Ok(())
        }
        _ => Ok(()),
    }
}

fn put<A: Allocator>(keys: &mut Vec<Key<A>, A>, key: &Key<A>) -> Result<(), AllocError>
    ensures { OnOk result (keys.new.items ≡ key.now ∷ keys.old.items) }
{
    let key = key.clone()?;
    keys.insert(0, key)?;
    Ok(())
}

fn take_out<A: Allocator>(keys: &mut Vec<Key<A>, A>, key: &Key<A>)
    ensures { keys.new.items ≡ without_key key.now keys.old.items }
{
    keys.retain(|other| !is_key(other, key));
}

fn is_key<A: Allocator>(key: &Key<A>, named: &Key<A>) -> bool
    ensures { result ≡ bytes_eq key.now named.now }
{
    key == named
}

/// Whether the key waits for flash.
#[must_use]
pub fn is_waiting<A: Allocator>(notes: &[Note<A>], key: &Key<A>) -> bool
    ensures { result ≡ is_among key.now (books.waiting (past [] notes.now)) }
{
    let mut waits = false;
    for note in notes {
        waits = is_waiting_after(note, key, waits);
    }
    waits
}

pub(crate) fn is_waiting_after<A: Allocator>(note: &Note<A>, key: &Key<A>, was: bool) -> bool
    ensures { (older : List Meaning) → was ≡ is_among key.now (books.waiting older) → result ≡ is_among key.now (books.waiting (note.now ∷ older)) }
{
    match &note.said {
        Said::Queued { key: queued } if queued == key => true,
        Said::Unqueued { key: taken } if taken == key => false,
        _ => was,
    }
}

/// Whether the key has a tombstone.
#[must_use]
pub fn is_buried<A: Allocator>(notes: &[Note<A>], key: &Key<A>) -> bool
    ensures { result ≡ is_among key.now (books.buried (past [] notes.now)) }
{
    let mut buried = false;
    for note in notes {
        buried = is_buried_after(note, key, buried);
    }
    buried
}

fn is_buried_after<A: Allocator>(note: &Note<A>, key: &Key<A>, was: bool) -> bool
    ensures { (older : List Meaning) → was ≡ is_among key.now (books.buried older) → result ≡ is_among key.now (books.buried (note.now ∷ older)) }
{
    match &note.said {
        Said::Buried { key: buried } if buried == key => true,
        Said::Raised { key: raised } if raised == key => false,
        _ => was,
    }
}

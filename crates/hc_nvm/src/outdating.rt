// A key is inserted or removed: its copies on flash are stale from there on. What that needs is made first.
ghost use Rattle.std.specs.Prelude.{◌≡◌, ◌≤◌, ◌+◌, ℕ, List, Bool, false, IfOk};
ghost use Rattle.hc_engines.specs.pair.Pair.{is_indexed as is_indexed_seen};
ghost use Rattle.hc_history.specs.Told.{told_more, is_log};
ghost use Rattle.hc_machine.specs.Nvm.{Nvm as Machine, is_due as is_due_seen};
ghost use Rattle.hc_machine.specs.Leaving.{bury as bury_step, unindex as unindex_step, outdate as outdate_step};
ghost use Rattle.hc_machine.specs.Cache.{unmarked_by};
ghost use Rattle.hc_nvm.specs.Outdating.{Buries, Unindexes, Serves, buried_note, burial_of, twice_of};

use crate::nvm::Nvm;
use hc_history::{Note, Notes, Said};
use hc_memory::Pools;
use hc_types::Key;
use std::alloc::{AllocError, Allocator, Global};

/// What a key's tombstone needs: the key twice, and its note, where notes are kept.
#[derive(Drop)]
pub(crate) struct Burial<A: Allocator = Global> {
    copy: Key<A>,
    key: Key<A>,
    note: Option<Note<A>>,
}

/// A key twice, for two places that keep it.
#[derive(Drop)]
pub(crate) struct Twice<A: Allocator = Global> {
    copy: Key<A>,
    key: Key<A>,
}

/// What a key needs so that its copies on flash are stale from then on: that of a tombstone, and that of the loss of an
/// index entry. What isn't needed then may be missing.
#[derive(Drop)]
#[must_use]
pub struct Outdating<A: Allocator = Global> {
    burial: Option<Box<Burial<A>, A>>,
    collision: Option<Box<Twice<A>, A>>,
}

/// The note of a tombstone, where notes are kept.
fn note_of<A: Allocator>(key: &Key<A>, keeps: bool) -> Result<Option<Note<A>>, AllocError>
    ensures { IfOk result (λ note. note ≡ buried_note keeps key.now) }
{
    if !keeps {
        return Ok(None);
    }
    let key = key.clone()?;
    Ok(Some(Note::new(Said::Buried { key })))
}

/// What the key's tombstone needs.
fn to_bury<A: Allocator>(
    alloc: A,
    key: &Key<A>,
    keeps: bool,
) -> Result<Box<Burial<A>, A>, AllocError>
    ensures { IfOk result (λ burial. burial.value ≡ burial_of keeps key.now) }
{
    let copy = key.clone()?;
    let again = key.clone()?;
    let note = note_of(key, keeps)?;
    let burial = Box::new(
        alloc,
        Burial {
            copy,
            key: again,
            note,
        },
    )?;
    Ok(burial)
}

/// The key twice.
fn to_unindex<A: Allocator>(alloc: A, key: &Key<A>) -> Result<Box<Twice<A>, A>, AllocError>
    ensures { IfOk result (λ twice. twice.value ≡ twice_of key.now) }
{
    let copy = key.clone()?;
    let key = key.clone()?;
    let twice = Box::new(alloc, Twice { copy, key })?;
    Ok(twice)
}

impl<A: Allocator + Copy> Outdating<A> {
    /// What the key needs whatever flash has of it by then, with the note where notes are kept. Refused only where memory
    /// lacks.
    pub fn whole(alloc: A, key: &Key<A>, keeps: bool) -> Result<Outdating<A>, AllocError>
        ensures { IfOk result (λ plan. (nvm : Machine) → Serves keeps key.now nvm plan) }
    {
        let twice = to_unindex(alloc, key)?;
        match to_bury(alloc, key, keeps) {
            Ok(burial) => Ok(Outdating {
                burial: Some(burial),
                collision: Some(twice),
            }),
            Err(no_memory) => {
                drop(twice);
                Err(no_memory)
            }
        }
    }

    /// What a key needs of which flash has nothing, or which was outdated already.
    pub fn nothing() -> Outdating<A>
        ensures { (keeps : Bool) (key : List ℕ) (nvm : Machine) → is_due_seen nvm key ≡ false → is_indexed_seen nvm.pair key ≡ false → Serves keeps key nvm result }
    {
        Outdating {
            burial: None,
            collision: None,
        }
    }
}

impl<A: Allocator + Clone + Copy> Nvm<A> {
    /// What the key's tombstone needs, where one is due.
    fn plan_to_bury(
        &self,
        key: &Key<A>,
        keeps: bool,
    ) -> Result<Option<Box<Burial<A>, A>>, AllocError>
        ensures { IfOk result (λ burial. Buries keeps key.now self.now.nvm burial) }
    {
        if !self.is_due(key) {
            return Ok(None);
        }
        let burial = to_bury(*self.jobs.allocator(), key, keeps)?;
        Ok(Some(burial))
    }

    /// What the loss of the key's index entry needs, where there is one.
    fn plan_to_unindex(&self, key: &Key<A>) -> Result<Option<Box<Twice<A>, A>>, AllocError>
        ensures { IfOk result (λ twice. Unindexes key.now self.now.nvm twice) }
    {
        if !self.is_indexed(key) {
            return Ok(None);
        }
        let twice = to_unindex(*self.jobs.allocator(), key)?;
        Ok(Some(twice))
    }

    /// What the key needs as things are, so that its copies on flash are stale from then on, with the note where notes are
    /// kept. Nothing is copied where flash has nothing of the key. Refused only when out of memory.
    pub fn plan_to_outdate(&self, key: &Key<A>, keeps: bool) -> Result<Outdating<A>, AllocError>
        ensures { IfOk result (λ plan. Serves keeps key.now self.now.nvm plan) }
    {
        let collision = self.plan_to_unindex(key)?;
        match self.plan_to_bury(key, keeps) {
            Ok(burial) => Ok(Outdating { burial, collision }),
            Err(no_memory) => {
                drop(collision);
                Err(no_memory)
            }
        }
    }

    /// The key gets a tombstone, where one is due.
    fn bury_by<N: Notes<Note<A>>>(
        &mut self,
        key: &Key<A>,
        burial: Option<Box<Burial<A>, A>>,
        notes: &mut N,
    )
        requires burial { Buries (is_log (N.told notes.old)) key.now self.old.nvm burial }
        requires stones { 1 ≤ self.old.stones }
        requires room { 1 ≤ N.room notes.old }
        ensures nvm { self.new.nvm ≡ (bury_step key.now self.old.nvm).nvm }
        ensures told { N.told notes.new ≡ told_more (N.told notes.old) (bury_step key.now self.old.nvm).part }
        ensures puts { self.new.puts ≡ self.old.puts }
        ensures stones { self.old.stones ≤ self.new.stones + 1 }
        ensures fills { self.new.fills ≡ self.old.fills }
        ensures room { N.room notes.old ≤ N.room notes.new + 1 }
    {
        if let Some(burial) = burial {
            let Burial { copy, key, note } = Box::into_inner(burial);
            self.bury(copy, key, note, notes);
        }
    }

    /// The key's index entry goes, where there is one.
    fn unindex_by<N: Notes<Note<A>>>(
        &mut self,
        key: &Key<A>,
        collision: Option<Box<Twice<A>, A>>,
        notes: &mut N,
        pools: &mut Pools<A>,
    )
        requires collision { Unindexes key.now self.old.nvm collision }
        requires room { 1 ≤ N.room notes.old }
        ensures nvm { self.new.nvm ≡ (unindex_step key.now self.old.nvm).nvm }
        ensures told { N.told notes.new ≡ told_more (N.told notes.old) (unindex_step key.now self.old.nvm).part }
        ensures marks { pools.new ≡ unmarked_by (unindex_step key.now self.old.nvm).part pools.old }
        ensures puts { self.new.puts ≡ self.old.puts }
        ensures stones { self.new.stones ≡ self.old.stones }
        ensures fills { self.new.fills ≡ self.old.fills }
        ensures room { N.room notes.old ≤ N.room notes.new + 1 }
    {
        if let Some(twice) = collision {
            let Twice { copy, key } = Box::into_inner(twice);
            self.unindex(copy, key, notes, pools);
        }
    }

    /// The key's copies on flash are stale from here on, by a plan that has what that needs: it gets a tombstone, where one
    /// is due, and the index entry of its kept hash goes, whoever's it is.
    pub fn outdate<N: Notes<Note<A>>>(
        &mut self,
        plan: Outdating<A>,
        key: &Key<A>,
        notes: &mut N,
        pools: &mut Pools<A>,
    )
        requires plan { Serves (is_log (N.told notes.old)) key.now self.old.nvm plan }
        requires stones { 1 ≤ self.old.stones }
        requires room { 2 ≤ N.room notes.old }
        ensures nvm { self.new.nvm ≡ (outdate_step key.now self.old.nvm).nvm }
        ensures told { N.told notes.new ≡ told_more (N.told notes.old) (outdate_step key.now self.old.nvm).part }
        ensures marks { pools.new ≡ unmarked_by (outdate_step key.now self.old.nvm).part pools.old }
        ensures puts { self.new.puts ≡ self.old.puts }
        ensures stones { self.old.stones ≤ self.new.stones + 1 }
        ensures fills { self.new.fills ≡ self.old.fills }
        ensures room { N.room notes.old ≤ N.room notes.new + 2 }
    {
        let Outdating { burial, collision } = plan;
        self.bury_by(key, burial, notes);
        self.unindex_by(key, collision, notes, pools);
    }
}

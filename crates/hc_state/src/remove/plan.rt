// What a remove needs is made before anything changes: its number and its first note, and what its key needs.
ghost use Rattle.std.specs.Prelude.{◌≡◌, ◌+◌, Option, Some, None, IfOk, OnOk, OnErr, IfErr};
ghost use Rattle.hc_history.specs.Note.{Begin, Remove};
ghost use Rattle.hc_history.specs.Told.{Hears, where_kept};
ghost use Rattle.hc_state.specs.store.Plan.{Prepares, HasRoomFor};
ghost use Rattle.hc_state.specs.Whole.{MayLack, Stays};

use crate::state::State;
use crate::store::plan::Prepared;
use hc_history::{Note, Notes, Op, Said};
use hc_types::{Key, Refusal};
use std::alloc::{AllocError, Allocator};

/// The note with which a remove of the key begins, where notes are kept.
fn begin_remove<A: Allocator, N: Notes<Note<A>>>(
    notes: &N,
    call: u64,
    client: u8,
    key: &Key<A>,
) -> Result<Option<Note<A>>, AllocError>
    ensures note { IfOk result (λ note. note ≡ where_kept (N.told notes.now) (Begin call client (Remove key.now))) }
    ensures silent { OnErr result (Hears (N.told notes.now)) }
{
    if !notes.keeps() {
        return Ok(None);
    }
    let op = Op::Remove(key.clone()?);
    Ok(Some(Note::new(Said::Begin { call, client, op })))
}

impl<N: Notes<Note<A>>, A: Allocator + Clone + Copy> State<N, A> {
    /// The note with which a remove of the key begins, where notes are kept.
    fn note_of_remove(
        &self,
        call: u64,
        client: u8,
        key: &Key<A>,
    ) -> Result<Option<Note<A>>, AllocError>
        ensures note { IfOk result (λ note. note ≡ where_kept self.now.log (Begin call client (Remove key.now))) }
        ensures silent { OnErr result (Hears self.now.log) }
    {
        begin_remove(&self.notes, call, client, key)
    }

    /// What a remove of the key needs before it changes anything. Refused with `NoMemory`.
    fn plan_to_remove(&self, client: u8, key: &Key<A>) -> Result<Prepared<A>, Refusal>
        ensures ok { IfOk result (λ plan. Prepares client (Remove key.now) key.now None self.now plan) }
        ensures memory { IfErr result (λ refusal. refusal ≡ Refusal.NoMemory) }
        ensures silent { OnErr result (MayLack self.now.log self.now.cache) }
    {
        let call = self.next_call()?;
        let clearing = self.plan_to_clear(key, None)?;
        match self.note_of_remove(call, client, key) {
            Ok(begin) => Ok(Prepared {
                call,
                begin,
                clearing,
            }),
            Err(_) => {
                drop(clearing);
                Err(Refusal::NoMemory)
            }
        }
    }

    /// Room for what a remove of the key tells and buries, and what else it needs. Refused with `NoMemory`.
    pub(crate) fn prepare_to_remove(
        &mut self,
        client: u8,
        key: &Key<A>,
    ) -> Result<Prepared<A>, Refusal>
        ensures stays { Stays self.old self.new }
        ensures ok { IfOk result (λ plan. Prepares client (Remove key.now) key.now None self.new plan) }
        ensures room { OnOk result (HasRoomFor key.now self.new) }
        ensures memory { IfErr result (λ refusal. refusal ≡ Refusal.NoMemory) }
        ensures silent { OnErr result (MayLack self.old.log self.old.cache) }
    {
        self.room_for(key)?;
        self.plan_to_remove(client, key)
    }
}

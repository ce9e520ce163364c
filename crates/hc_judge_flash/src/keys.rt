// Keys of which a small entry is being written, and those that are due a tombstone.
ghost use Rattle.std.specs.Prelude.{◌≡◌, List, [], ◌∷◌, IfOk};
ghost use Rattle.hc_history.specs.Note.{Note as Meaning};
ghost use Rattle.hc_history.specs.Lawful as lawful;
ghost use Rattle.hc_history.specs.Lawful.{past};
ghost use Rattle.hc_history.specs.Books.{is_among, writing};
ghost use Rattle.hc_judge_device.specs.Limits.{IsLimited};

use hc_history::{Note, Said};
use hc_judge_device::could_have;
use hc_types::{FlashConfig, Key};
use std::alloc::{AllocError, Allocator};

/// Whether a small entry of the key is being written.
#[must_use]
pub fn is_writing<A: Allocator>(notes: &[Note<A>], key: &Key<A>) -> bool
    ensures { result ≡ is_among key.now (writing (past [] notes.now)) }
{
    let mut is_writing = false;
    for note in notes {
        is_writing = writing_next(note, key, is_writing);
    }
    is_writing
}

/// The same after this note.
fn writing_next<A: Allocator>(note: &Note<A>, key: &Key<A>, was: bool) -> bool
    ensures { (older : List Meaning) → was ≡ is_among key.now (writing older) → result ≡ is_among key.now (writing (note.now ∷ older)) }
{
    match &note.said {
        Said::Writing { key: written } if written == key => true,
        Said::Written { key: written } if written == key => false,
        _ => was,
    }
}

/// Whether the key's bucket could have it, by its Bloom word, or a small entry of it is being written.
pub fn is_due<A: Allocator + Clone>(
    flash: &FlashConfig,
    notes: &[Note<A>],
    key: &Key<A>,
    alloc: &A,
) -> Result<bool, AllocError>
    requires { IsLimited flash.now }
    ensures { IfOk result (λ due. due ≡ lawful.is_due flash.now (past [] notes.now) key.now) }
{
    let could = could_have(flash, notes, key, alloc)?;
    Ok(could || is_writing(notes, key))
}

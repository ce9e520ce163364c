// What a call is to be answered.
ghost use Rattle.std.specs.Prelude.{◌≡◌, ◌≤◌, ℕ, List, [], ◌∷◌, is_some, option_map, IfOk, IfSome};
ghost use Rattle.hc_history.specs.Note.{Note as Meaning, Add, Find, Remove};
ghost use Rattle.hc_history.specs.Seen.{op_of, reply_of};
ghost use Rattle.hc_history.specs.Books as books;
ghost use Rattle.hc_history.specs.Lawful as lawful;
ghost use Rattle.hc_history.specs.Lawful.{past};
ghost use Rattle.hc_legal.specs.Judge as judge;

use crate::live::{Charge, charge_note, has_link_of};
use crate::map::{entry_at, value_at};
use bytes::Bytes;
use hc_history::{Note, Op, Reply, Said};
use hc_types::{FlashConfig, Key};
use std::alloc::{AllocError, Allocator};

/// Whether a linked charge of the key was freed since the call began. Refused only when out of memory.
pub fn freed_since<A: Allocator + Clone>(
    notes: &[Note<A>],
    call: u64,
    key: &Key<A>,
    alloc: &A,
) -> Result<bool, AllocError>
    ensures { IfOk result (λ is_freed. is_freed ≡ lawful.freed_since (past [] notes.now) call key.now) }
{
    let mut live = Vec::new(alloc.clone()?);
    let mut is_freed = false;
    for note in notes {
        is_freed = freed_since_after(note, call, key, is_freed, &live);
        charge_note(&mut live, note)?;
    }
    Ok(is_freed)
}

/// The same after this note, with the charges that are live before it.
fn freed_since_after<A: Allocator>(
    note: &Note<A>,
    call: u64,
    key: &Key<A>,
    was: bool,
    live: &[Charge<A>],
) -> bool
    ensures { (older : List Meaning) → live.now ≡ books.charges older → was ≡ lawful.freed_since older call key.now → result ≡ lawful.freed_since (note.now ∷ older) call key.now }
{
    match &note.said {
        Said::Begin { call: begun, .. } if *begun == call => false,
        Said::Freed { charge } if !was => has_link_of(live, *charge, key),
        _ => was,
    }
}

/// Whether the reply is the one that the map gives to a call that asks for this. Refused only when out of memory.
pub fn is_answer<A: Allocator + Clone>(
    flash: &Option<FlashConfig>,
    notes: &[Note<A>],
    call: u64,
    op: &Op<A>,
    reply: &Reply<A>,
    alloc: &A,
) -> Result<bool, AllocError>
    requires bits { IfSome flash.now (λ f. f.bits ≤ 64) }
    requires buckets { IfSome flash.now (λ f. 1 ≤ f.buckets) }
    ensures { IfOk result (λ is_answer. is_answer ≡ judge.is_answer flash.now (past [] notes.now) call (op_of op.now) (reply_of reply.now)) }
{
    match op {
        Op::Insert(..) => Ok(matches!(reply, Reply::Stored)),
        Op::Add(key, ..) => answers_add(flash, notes, key, reply, alloc),
        Op::Find(key) => answers_find(flash, notes, key, reply, alloc),
        Op::Remove(key) => answers_remove(flash, notes, call, key, reply, alloc),
    }
}

/// An add stores exactly where the map has no unexpired value.
fn answers_add<A: Allocator + Clone>(
    flash: &Option<FlashConfig>,
    notes: &[Note<A>],
    key: &Key<A>,
    reply: &Reply<A>,
    alloc: &A,
) -> Result<bool, AllocError>
    requires bits { IfSome flash.now (λ f. f.bits ≤ 64) }
    requires buckets { IfSome flash.now (λ f. 1 ≤ f.buckets) }
    ensures { (call : ℕ) (value : List ℕ) (expiry : ℕ) → IfOk result (λ is_answer. is_answer ≡ judge.is_answer flash.now (past [] notes.now) call (Add key.now value expiry) (reply_of reply.now)) }
{
    let found = value_at(flash, notes, key, alloc)?;
    match reply {
        Reply::Stored => Ok(found.is_none()),
        Reply::Exists => Ok(found.is_some()),
        _ => Ok(false),
    }
}

/// A find hits exactly where the map has an unexpired value, which it answers.
fn answers_find<A: Allocator + Clone>(
    flash: &Option<FlashConfig>,
    notes: &[Note<A>],
    key: &Key<A>,
    reply: &Reply<A>,
    alloc: &A,
) -> Result<bool, AllocError>
    requires bits { IfSome flash.now (λ f. f.bits ≤ 64) }
    requires buckets { IfSome flash.now (λ f. 1 ≤ f.buckets) }
    ensures { (call : ℕ) → IfOk result (λ is_answer. is_answer ≡ judge.is_answer flash.now (past [] notes.now) call (Find key.now) (reply_of reply.now)) }
{
    let found = value_at(flash, notes, key, alloc)?;
    match reply {
        Reply::Hit(value) => Ok(is_value(found, value)),
        Reply::Miss => Ok(found.is_none()),
        _ => Ok(false),
    }
}

fn is_value<A: Allocator>(found: Option<&Bytes<A>>, value: &Bytes<A>) -> bool
    ensures { result ≡ judge.is_value (option_map (λ bytes. bytes.now) found.entry) value.now }
{
    match found {
        Some(bytes) => bytes == value,
        None => false,
    }
}

/// A remove finds an item exactly where one was freed since it began, and then the map has the key.
fn answers_remove<A: Allocator + Clone>(
    flash: &Option<FlashConfig>,
    notes: &[Note<A>],
    call: u64,
    key: &Key<A>,
    reply: &Reply<A>,
    alloc: &A,
) -> Result<bool, AllocError>
    requires bits { IfSome flash.now (λ f. f.bits ≤ 64) }
    requires buckets { IfSome flash.now (λ f. 1 ≤ f.buckets) }
    ensures { IfOk result (λ is_answer. is_answer ≡ judge.is_answer flash.now (past [] notes.now) call (Remove key.now) (reply_of reply.now)) }
{
    match reply {
        Reply::FoundInMemory => {
            Ok(is_there(flash, notes, key, alloc)? && freed_since(notes, call, key, alloc)?)
        }
        Reply::NotInMemory => Ok(!freed_since(notes, call, key, alloc)?),
        _ => Ok(false),
    }
}

/// Whether the map has an entry of the key.
fn is_there<A: Allocator + Clone>(
    flash: &Option<FlashConfig>,
    notes: &[Note<A>],
    key: &Key<A>,
    alloc: &A,
) -> Result<bool, AllocError>
    requires bits { IfSome flash.now (λ f. f.bits ≤ 64) }
    requires buckets { IfSome flash.now (λ f. 1 ≤ f.buckets) }
    ensures { IfOk result (λ is_there. is_there ≡ is_some (books.entry_at flash.now (past [] notes.now) key.now)) }
{
    Ok(entry_at(flash, notes, key, alloc)?.is_some())
}

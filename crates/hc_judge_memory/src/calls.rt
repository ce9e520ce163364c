// The calls of clients after the notes so far.
ghost use Rattle.std.specs.Prelude.{◌≡◌, ◌+◌, [], ◌∷◌, List, if◌then◌else◌, option_map, unwrap_or};
ghost use Rattle.hc_history.specs.Note.{Note as Meaning};
ghost use Rattle.hc_history.specs.Seen.{op_of, reply_of};
ghost use Rattle.hc_history.specs.Books as books;
ghost use Rattle.hc_history.specs.Books.{Call, open_calls, open_call};
ghost use Rattle.hc_history.specs.Lawful as lawful;
ghost use Rattle.hc_history.specs.Lawful.{past};
ghost use Rattle.hc_legal.specs.Judge as judge;
ghost use Rattle.hc_judge_memory.specs.Calls as spec;

use crate::ahead::next_answer;
use hc_history::{Note, Op, Reply, Said};
use hc_types::Key;
use std::alloc::Allocator;

/// How many calls were begun.
#[must_use]
pub fn begun<A: Allocator>(notes: &[Note<A>]) -> u64
    ensures { result ≡ books.begun (past [] notes.now) }
{
    let mut count = 0;
    for note in notes {
        if begins(note) {
            count += 1;
        }
    }
    count
}

fn begins<A: Allocator>(note: &Note<A>) -> bool
    ensures { (older : List Meaning) → books.begun (note.now ∷ older) ≡ (if result then books.begun older + 1 else books.begun older) }
{
    matches!(&note.said, Said::Begin { .. })
}

/// What the last call of this number asks for, if it is begun and not yet answered.
#[must_use]
pub fn open_op<A: Allocator>(notes: &[Note<A>], call: u64) -> Option<&Op<A>>
    ensures { option_map (λ op. op_of op.now) result ≡ option_map (λ (c : Call). c.op) (open_call call (open_calls (past [] notes.now))) }
{
    let mut before = notes;
    while let Some((note, older)) = before.split_last() {
        if let Some(open) = open_op_by(note, call) {
            return open;
        }
        before = older;
    }
    None
}

/// What the note leaves of it, if it begins or answers a call of this number.
fn open_op_by<A: Allocator>(note: &Note<A>, call: u64) -> Option<Option<&Op<A>>>
    ensures { (older : List Meaning) → unwrap_or (option_map (option_map (λ op. op_of op.now)) result) (spec.open_op call older) ≡ spec.open_op call (note.now ∷ older) }
{
    match &note.said {
        Said::Begin {
            call: begun,
            op,
            ..
        } if *begun == call => Some(Some(op)),
        Said::Did { call: done, .. } if *done == call => Some(None),
        _ => None,
    }
}

/// Whether a reply of this call is not yet handed out.
#[must_use]
pub fn is_owed<A: Allocator>(notes: &[Note<A>], call: u64) -> bool
    ensures { result ≡ spec.is_owed (past [] notes.now) call }
{
    let mut owed = false;
    for note in notes {
        owed = is_owed_after(note, call, owed);
    }
    owed
}

fn is_owed_after<A: Allocator>(note: &Note<A>, call: u64, was: bool) -> bool
    ensures { (older : List Meaning) → was ≡ spec.is_owed older call → result ≡ spec.is_owed (note.now ∷ older) call }
{
    match &note.said {
        Said::Did { call: done, .. } if *done == call => true,
        Said::End { call: ended } if *ended == call => false,
        _ => was,
    }
}

/// Whether the call that is answered next inserts or removes the key, or adds it and stores.
#[must_use]
pub fn is_changed<A: Allocator>(notes: &[Note<A>], key: &Key<A>, rest: &[Note<A>]) -> bool
    ensures { result ≡ judge.is_changed (past [] notes.now) key.now rest.now }
{
    match next_answer(rest) {
        Some((call, reply)) => is_changed_by(notes, call, reply, key),
        None => false,
    }
}

/// Whether an open call of this number, so answered, changes the key.
fn is_changed_by<A: Allocator>(notes: &[Note<A>], call: u64, reply: &Reply<A>, key: &Key<A>) -> bool
    ensures { result ≡ spec.is_changed_by call (reply_of reply.now) key.now (past [] notes.now) }
{
    let mut changed = false;
    for note in notes {
        changed = is_changed_after(note, call, reply, key, changed);
    }
    changed
}

fn is_changed_after<A: Allocator>(
    note: &Note<A>,
    call: u64,
    reply: &Reply<A>,
    key: &Key<A>,
    was: bool,
) -> bool
    ensures { (older : List Meaning) → was ≡ spec.is_changed_by call (reply_of reply.now) key.now older → result ≡ spec.is_changed_by call (reply_of reply.now) key.now (note.now ∷ older) }
{
    match &note.said {
        Said::Begin {
            call: begun,
            op,
            ..
        } if *begun == call => was || changes(op, reply, key),
        Said::Did { call: done, .. } if *done == call => false,
        _ => was,
    }
}

/// Whether a call that asks for this, so answered, inserts or removes the key, or adds it and stores.
fn changes<A: Allocator>(op: &Op<A>, reply: &Reply<A>, key: &Key<A>) -> bool
    ensures { result ≡ lawful.changes (op_of op.now) (reply_of reply.now) key.now }
{
    match op {
        Op::Insert(changed, ..) | Op::Remove(changed) => changed == key,
        Op::Add(changed, ..) => matches!(reply, Reply::Stored) && changed == key,
        Op::Find(_) => false,
    }
}

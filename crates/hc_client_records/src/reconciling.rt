// Whether records agree with a log.
ghost use Rattle.std.specs.Prelude.{◌≡◌, [], ◌∷◌, List, IfSome, IfNone, length, map};
ghost use Rattle.std.specs.List.{list_all};
ghost use Rattle.std.specs.Bool.{Decides};
ghost use Rattle.hc_history.specs.Note.{Note as Meaning};
ghost use Rattle.hc_history.specs.Lawful.{past};
ghost use Rattle.hc_history.specs.Seen.{op_of, reply_of};
ghost use Rattle.hc_legal.specs.Replies.{reply_eq};
ghost use Rattle.hc_client_records.specs.Judge as judge;
ghost use Rattle.hc_client_records.specs.Judge.{Leaves, Differs};
ghost use Rattle.hc_client_records.specs.Records.{Reconciled, finished_at};
ghost use Rattle.hc_client_records.specs.Walk.{AreFinished};

use crate::calls::{answered, asked};
use crate::own::are_own;
use crate::reached::are_reached;
use crate::record::{Entry, Record, Recorded};
use crate::walk::{Calls, Finished, finished_calls};
use hc_history::{Note, Op, Reply, Said};
use std::alloc::Global;

/// Whether all records agree with the log, each call and each move of the clock in it is some client's own, and the clock came to
/// each moment to which a client moved it. It is one walk over the log and the records, which keeps the calls in ordered maps
/// in the allocator's memory. Where that lacks, it takes time that grows with the square of the log.
#[must_use]
pub fn reconcile<T: Recorded>(log: &[Note], records: &[T], alloc: Global) -> bool
    ensures { Decides result (Reconciled log.now (map T.recorded records.now)) }
{
    if !agree(log, records, alloc) {
        return false;
    }
    if !are_own(log, records, alloc) {
        return false;
    }
    are_reached(log, records)
}

/// Whether each record agrees with the log, by one walk over it where there is memory.
fn agree<T: Recorded>(log: &[Note], records: &[T], alloc: Global) -> bool
    ensures { result ≡ list_all (judge.agrees log.now) (map T.recorded records.now) }
{
    match finished_calls(alloc, log) {
        Ok(clients) => agree_with(&clients, records),
        Err(_) => agree_each(log, records),
    }
}

/// Whether each record has the finished calls of its client.
fn agree_with<T: Recorded>(clients: &[Calls<'_>], records: &[T]) -> bool
    requires { length clients.now ≡ 256 }
    ensures { (log : List Meaning) → AreFinished clients.now log → result ≡ list_all (judge.agrees log) (map T.recorded records.now) }
{
    for who in records {
        if !agrees_with(clients, who.record()) {
            return false;
        }
    }
    true
}

fn agrees_with(clients: &[Calls<'_>], answers: &Record) -> bool
    requires { length clients.now ≡ 256 }
    ensures { (log : List Meaning) → AreFinished clients.now log → result ≡ judge.agrees log answers.now }
{
    let calls = clients[answers.client as usize].as_slice();
    are_entries(calls, answers.entries.as_slice())
}

/// Whether the entries are these calls, in order.
fn are_entries(calls: &[Finished<'_>], entries: &[Entry]) -> bool
    ensures { result ≡ judge.are_same calls.now entries.now }
{
    let mut left = entries;
    for finished in calls {
        match left_of(finished.call, finished.op, finished.reply, left) {
            Some(rest) => left = rest,
            None => return false,
        }
    }
    left.is_empty()
}

/// Whether each record agrees with the log, without memory: by a walk for each, and a look back from each end of a call.
fn agree_each<T: Recorded>(log: &[Note], records: &[T]) -> bool
    ensures { result ≡ list_all (judge.agrees log.now) (map T.recorded records.now) }
{
    for who in records {
        if !agrees(log, who.record()) {
            return false;
        }
    }
    true
}

/// Whether the record is the log's finished calls of its client, in the order of their ends.
fn agrees(log: &[Note], answers: &Record) -> bool
    ensures { result ≡ judge.agrees log.now answers.now }
{
    let mut left = answers.entries.as_slice();
    for place in 0..log.len() {
        match left_after(answers.client, &log[..place], &log[place], left) {
            Some(rest) => left = rest,
            None => return false,
        }
    }
    left.is_empty()
}

/// What is left of the entries behind this note. Nothing is where it ends another call than the first of them.
fn left_after<'a>(
    client: u8,
    before: &[Note],
    note: &Note,
    entries: &'a [Entry],
) -> Option<&'a [Entry]>
    ensures some { IfSome result (λ left. Leaves (finished_at client (past [] before.now) note.now) entries.now left.now) }
    ensures none { IfNone result (Differs (finished_at client (past [] before.now) note.now) entries.now) }
{
    let Said::End { call } = &note.said else {
        return Some(entries);
    };
    let Some(begun) = asked(before, *call) else {
        return Some(entries);
    };
    if begun.client != client {
        return Some(entries);
    }
    match answered(before, *call) {
        Some(reply) => left_of(begun.call, begun.op, reply, entries),
        None => Some(entries),
    }
}

/// What is left of the entries behind this call, where it is the first of them.
fn left_of<'a>(call: u64, op: &Op, reply: &Reply, entries: &'a [Entry]) -> Option<&'a [Entry]>
    ensures some { IfSome result (λ left. Leaves (record { call = call; op = op_of op.now; reply = reply_of reply.now } ∷ []) entries.now left.now) }
    ensures none { IfNone result (Differs (record { call = call; op = op_of op.now; reply = reply_of reply.now } ∷ []) entries.now) }
{
    match entries.split_first() {
        Some((entry, rest)) if is_entry(call, op, reply, entry) => Some(rest),
        _ => None,
    }
}

fn is_entry(call: u64, op: &Op, reply: &Reply, entry: &Entry) -> bool
    ensures { result ≡ judge.entry_eq (record { call = call; op = op_of op.now; reply = reply_of reply.now }) entry.now }
{
    call == entry.call && is_op(op, &entry.op) && is_reply(reply, &entry.reply)
}

pub(crate) fn is_op(a: &Op, b: &Op) -> bool
    ensures { result ≡ judge.op_eq (op_of a.now) (op_of b.now) }
{
    match (a, b) {
        (Op::Insert(k, v, e), Op::Insert(l, w, f)) | (Op::Add(k, v, e), Op::Add(l, w, f)) => {
            k == l && v == w && *e == *f
        }
        (Op::Find(k), Op::Find(l)) | (Op::Remove(k), Op::Remove(l)) => k == l,
        _ => false,
    }
}

fn is_reply(a: &Reply, b: &Reply) -> bool
    ensures { result ≡ reply_eq (reply_of a.now) (reply_of b.now) }
{
    match (a, b) {
        (Reply::Hit(v), Reply::Hit(w)) => v == w,
        (Reply::Stored, Reply::Stored)
        | (Reply::Exists, Reply::Exists)
        | (Reply::Miss, Reply::Miss)
        | (Reply::FoundInMemory, Reply::FoundInMemory)
        | (Reply::NotInMemory, Reply::NotInMemory) => true,
        _ => false,
    }
}
